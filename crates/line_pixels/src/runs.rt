// Runs of words, each word by a closure that answers the colour at a number.
ghost use Rattle.std.specs.Prelude.{ℕ, ◌+◌, ◌≤◌, ◌<◌, ◌≡◌, length, set};
ghost use Rattle.rules.specs.Lists.{filled, changed};
ghost use Rattle.line_pixels.specs.ByClosure.{IsShown, IsChange};

// Four words, from a place on.
fn put_four(out: &mut [u32], at: usize, first: u32, second: u32, third: u32, fourth: u32)
    requires { at + 4 ≤ length out.old }
    ensures { out.new ≡ set (set (set (set out.old at first) (at + 1) second) (at + 2) third) (at + 3) fourth }
{
    out[at] = first;
    out[at + 1] = second;
    out[at + 2] = third;
    out[at + 3] = fourth;
}

// How a loop takes the words of a run: how many in a turn.
pub(crate) trait Stepping {
    // Each word is changed by its number and what it is.
    fn change<F: Fn(usize, u32) -> u32>(colour: F, words: &mut [u32])
        requires { (i word : ℕ) → i < length words.old → F.pre colour i word }
        ensures { (change : ℕ → ℕ → ℕ) → IsChange (F.post colour) (length words.old) change → words.new ≡ changed change 0 words.old (length words.old) };

    // Each word is filled by its number.
    final fn fill<F: Fn(usize) -> u32>(colour: F, words: &mut [u32])
        requires { (i : ℕ) → i < length words.old → F.pre colour i }
        ensures { (shows : ℕ → ℕ) → IsShown (F.post colour) (length words.old) shows → words.new ≡ filled shows 0 words.old (length words.old) }
    {
        Self::change(
            |i, _|
                requires { F.pre colour i }
            { colour(i) },
            words,
        );
    }
}

// One word a turn: a loop of which the machine may take many turns at once.
pub(crate) struct OneByOne;

// Four words a turn, all four at hand before the first is stored.
pub(crate) struct FourByFour;

impl Stepping for OneByOne {
    fn change<F: Fn(usize, u32) -> u32>(colour: F, words: &mut [u32]) {
        for i in 0..words.len() {
            words[i] = colour(i, words[i]);
        }
    }
}

impl Stepping for FourByFour {
    fn change<F: Fn(usize, u32) -> u32>(colour: F, words: &mut [u32]) {
        let fours = words.len() / 4;
        for turn in 0..fours {
            let i = 4 * turn;
            let under = [words[i], words[i + 1], words[i + 2], words[i + 3]];
            // In this order the machine looks two up at once.
            let second = colour(i + 1, under[1]);
            let third = colour(i + 2, under[2]);
            let fourth = colour(i + 3, under[3]);
            let first = colour(i, under[0]);
            put_four(words, i, first, second, third, fourth);
        }
        for last in 4 * fours..words.len() {
            words[last] = colour(last, words[last]);
        }
    }
}
