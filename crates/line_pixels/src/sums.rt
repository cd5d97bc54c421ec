// Tables of sums: each word of one table together with each of another.
ghost use Rattle.std.specs.Prelude.{ℕ, ◌+◌, ◌*◌, ◌/◌, ◌%◌, ◌≤◌, ◌<◌, ◌≡◌, length, get_or};
ghost use Rattle.rules.specs.Lists.{filled};

use crate::runs::{OneByOne, Stepping};

// A word together with each of a table.
fn sum_row(word: u32, across: &[u32], sums: &mut [u32])
    requires { (word < 65536) × ((k : ℕ) → k < length across.now → get_or across.now k 0 ≤ 255 * 65536) × (length sums.old ≡ length across.now) }
    ensures { sums.new ≡ filled (λ k. get_or across.now k 0 + word) 0 sums.old (length across.now) }
{
    OneByOne::fill(|k| across[k] + word, sums);
}

// The sums of two tables, row by row: a row for each word of the second, in it a column for each of the first.
pub(crate) fn sum_rows(across: &[u32], down: &[u32], sums: &mut [u32])
    requires { ((k : ℕ) → k < length across.now → get_or across.now k 0 ≤ 255 * 65536) × ((k : ℕ) → k < length down.now → get_or down.now k 0 < 65536) × (length down.now * length across.now ≤ length sums.old) }
    ensures { sums.new ≡ filled (λ k. get_or across.now (k % length across.now) 0 + get_or down.now (k / length across.now) 0) 0 sums.old (length down.now * length across.now) }
{
    let columns = across.len();
    for (row, word) in down.iter().enumerate() {
        let start = row * columns;
        sum_row(*word, across, &mut sums[start..start + columns]);
    }
}
