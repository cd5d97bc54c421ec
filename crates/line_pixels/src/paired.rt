// Long runs in RGB 4-4-4 and 5-5-5 through gamma: the final words of red and green together, for all values of the two, and those of blue are made once, and the colour of a pixel is the sum of one of each.
ghost use Rattle.std.specs.Prelude.{ℕ, ◌+◌, ◌*◌, ◌/◌, ◌%◌, ◌≤◌, ◌<◌, ◌≡◌, true, false, ◌⊎◌, length};
ghost use Rattle.line_pixels.specs.Inner.{gamma_red, gamma_green, gamma_blue, PairedBy, PairsFit, paired_444, paired_555};
ghost use Rattle.line_pixels.specs.Source.{PlainReaches, PlainDrawn};

use crate::correction::{gamma_blue, gamma_green, gamma_red};
use crate::runs::{FourByFour, OneByOne, Stepping};
use crate::source::Source;
use crate::sums::sum_rows;
use chip_registers::STORE_WORDS;
use line_colour::entry::WindowEntry;
use line_formats::Format;

// The final words of all pairs of red and green, and those of all blues, in a format whose channels have so many values.
#[derive(Drop)]
struct FinalWords<const VALUES: usize, const PAIRS: usize> {
    pairs: [u32; PAIRS],
    blues: [u32; VALUES],
    ghost fit: { PairsFit VALUES pairs blues },
}

impl<const VALUES: usize, const PAIRS: usize> FinalWords<VALUES, PAIRS> {
    // Those that the gamma map makes of a format's colours. So many quarters of a value are the value widened.
    fn make(&mut self, store: &[u32; STORE_WORDS], quarters: usize)
        requires { (1 ≤ VALUES) × (VALUES ≤ 32) × ((v : ℕ) → v < VALUES → quarters * v / 4 < 256) }
        ensures { PairedBy store.now VALUES quarters self.new.pairs self.new.blues }
    {
        let mut reds = [0; VALUES];
        let mut greens = [0; VALUES];
        OneByOne::fill(
            |v|
                requires { quarters * v / 4 < 256 }
                ensures { result ≡ gamma_red store.entry.now (quarters * v / 4) }
            { gamma_red(store, quarters * v / 4) },
            &mut reds,
        );
        OneByOne::fill(
            |v|
                requires { quarters * v / 4 < 256 }
                ensures { result ≡ gamma_green store.entry.now (quarters * v / 4) }
            { gamma_green(store, quarters * v / 4) },
            &mut greens,
        );
        OneByOne::fill(
            |v|
                requires { quarters * v / 4 < 256 }
                ensures { result ≡ gamma_blue store.entry.now (quarters * v / 4) }
            { gamma_blue(store, quarters * v / 4) },
            &mut self.blues,
        );
        sum_rows(&reds, &greens, &mut self.pairs);
    }
}

// The colour of two bytes in RGB 4-4-4: red and green are the second.
fn colour_444(words: &FinalWords<16, 256>, normal: &[u8], at: usize) -> u32
    requires { at + 2 ≤ length normal.now }
    ensures { result ≡ paired_444 words.now.pairs words.now.blues normal.now at }
{
    words.pairs[normal[at + 1] as usize] + words.blues[(normal[at] % 16) as usize]
}

// The colour of two bytes in RGB 5-5-5: the two high bits of green stand in the first.
fn colour_555(words: &FinalWords<32, 1024>, normal: &[u8], at: usize) -> u32
    requires { at + 2 ≤ length normal.now }
    ensures { result ≡ paired_555 words.now.pairs words.now.blues normal.now at }
{
    words.pairs[normal[at] as usize % 4 * 256 + normal[at + 1] as usize]
        + words.blues[(normal[at] / 4 % 32) as usize]
}

// Whether an entry's colours are in RGB 4-4-4 or 5-5-5 and go through gamma.
pub(crate) fn is_paired(entry: WindowEntry) -> bool
    ensures { result ≡ true → (entry.bypass ≡ false) × ((entry.format ≡ Format.Rgb444) ⊎ (entry.format ≡ Format.Rgb555)) }
{
    !entry.bypass && matches!(entry.format, Format::Rgb444 | Format::Rgb555)
}

impl Source<'_> {
    // A plain run in RGB 4-4-4 through gamma.
    fn fill_444(&self, x: usize, out: &mut [u32])
        requires { PlainReaches self.now (x + length out.old) × (self.now.entry.bypass ≡ false) × (self.now.entry.format ≡ Format.Rgb444) }
        ensures { PlainDrawn self.now x out.old out.new }
    {
        let mut words = FinalWords {
            pairs: [0; 256],
            blues: [0; 16],
        };
        // 17 times a value is 68 quarters of it.
        words.make(self.store, 68);
        self.fill_held::<FourByFour, 2, _>(x, |normal, at| colour_444(&words, normal, at), out);
    }

    // A plain run in RGB 5-5-5 through gamma.
    fn fill_555(&self, x: usize, out: &mut [u32])
        requires { PlainReaches self.now (x + length out.old) × (self.now.entry.bypass ≡ false) × (self.now.entry.format ≡ Format.Rgb555) }
        ensures { PlainDrawn self.now x out.old out.new }
    {
        let mut words = FinalWords {
            pairs: [0; 1024],
            blues: [0; 32],
        };
        // 8 times a value and a quarter of it are 33 quarters.
        words.make(self.store, 33);
        self.fill_held::<FourByFour, 2, _>(x, |normal, at| colour_555(&words, normal, at), out);
    }

    // A plain run in RGB 4-4-4 or 5-5-5 through gamma.
    pub(crate) fn fill_paired(&self, x: usize, out: &mut [u32])
        requires { PlainReaches self.now (x + length out.old) × (self.now.entry.bypass ≡ false) × ((self.now.entry.format ≡ Format.Rgb444) ⊎ (self.now.entry.format ≡ Format.Rgb555)) }
        ensures { PlainDrawn self.now x out.old out.new }
    {
        match self.entry.format {
            Format::Rgb444 => self.fill_444(x, out),
            // RGB 5-5-5 is all that is left.
            Format::Rgb555 | Format::Index8 | Format::Index12 | Format::Rgb332 | Format::Rgb888 => {
                self.fill_555(x, out);
            }
        }
    }
}
