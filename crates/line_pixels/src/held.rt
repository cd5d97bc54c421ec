// Runs of samples by the bytes of the normal row that hold them. How far pixels stand apart is said in each arm, since a loop does many at once only where that is fixed.
ghost use Rattle.std.specs.Prelude.{ℕ, ◌+◌, ◌*◌, ◌^◌, ◌≤◌, ◌<◌, ◌≡◌, length};
ghost use Rattle.rules.specs.Lists.{filled};
ghost use Rattle.line_pixels.specs.SamplePlace.{held_by, sample_place};
ghost use Rattle.line_pixels.specs.Source.{PlainReaches};

use crate::runs::Stepping;
use crate::source::Source;

impl Source<'_> {
    // A run whose samples are held by so many bytes of the normal row, each pixel by the colour of the bytes at a place.
    pub(crate) fn fill_held<S: Stepping, const BYTES: usize, F: Fn(&[u8], usize) -> u32>(
        &self,
        x: usize,
        colour: F,
        out: &mut [u32],
    )
        requires lent { PlainReaches self.now (x + length out.old) }
        requires held { held_by self.now.entry ≡ BYTES }
        requires callable { (at : ℕ) → at + BYTES ≤ length self.now.normal.now → F.pre colour self.now.normal at }
        ensures { (shows : ℕ → ℕ) → ((i answer : ℕ) → i < length out.old → F.post colour self.now.normal (sample_place self.now BYTES x i) answer → answer ≡ shows i) → out.new ≡ filled shows 0 out.old (length out.old) }
    {
        let normal = self.normal;
        let apart = (self.screen.depth / 8) as usize;
        let first = apart * x + (apart - BYTES) - (self.entry.low / 8) as usize;
        if apart == 4 {
            S::fill(
                |i|
                    requires { (first + 4 * i < 2 ^ 64) × F.pre colour normal (first + 4 * i) }
                { colour(normal, first + 4 * i) },
                out,
            );
        } else {
            S::fill(
                |i|
                    requires { (first + 2 * i < 2 ^ 64) × F.pre colour normal (first + 2 * i) }
                { colour(normal, first + 2 * i) },
                out,
            );
        }
    }
}
