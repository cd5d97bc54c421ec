// Line entries: which ID a pixel has.
ghost use Rattle.std.specs.Prelude.{◌<◌, ◌≡◌, length, IfOk};
ghost use Rattle.rules.specs.Rule.{run};
ghost use Rattle.refusals.specs.Refusal.{outcome_of};
ghost use Rattle.line_windows.specs.Table.{table_view};
ghost use Rattle.line_windows.specs.Ids.{line_entries};
ghost use Rattle.line_windows.specs.Carried.{found_from};

use crate::{BLOCK_BYTES, LINE_ENTRY_BYTES};
use refusals::Refusal;

// What a line entry serves.
#[derive(Clone, Copy)]
pub struct FoundId {
    // The ID that it gives its pixels.
    pub id: u32,
    // The last pixel that it serves.
    pub last: u32,
    // The entry to go on from after that pixel.
    pub next: usize,
}

// How many whole line entries there are from byte `start` on, in a table of so many bytes: to the end of the block or of the table.
fn line_entries(bytes: usize, start: usize) -> usize
    ensures { result ≡ line_entries bytes start }
{
    let in_block = BLOCK_BYTES - start % BLOCK_BYTES;
    let in_table = bytes.saturating_sub(start);
    in_block.min(in_table) / LINE_ENTRY_BYTES
}

// The ID of pixel x in the line table at byte `start`: the first line entry, from entry `from` on, that ends there or later says.
pub fn look_up(table: &[u8], start: usize, from: usize, x: u32) -> Result<FoundId, Refusal>
    ensures says { outcome_of result ≡ run (table_view table.now) (found_from (length table.now) start from x) }
    ensures below { IfOk result (λ found. found.id < 32) }
{
    for entry in from..line_entries(table.len(), start) {
        let word = words::be16(table, start + LINE_ENTRY_BYTES * entry);
        let xend = words::field(word, 15, 5);
        if x <= xend {
            return Ok(FoundId {
                id: words::field(word, 4, 0),
                last: xend,
                next: entry + 1,
            });
        }
    }
    Err(Refusal::NoLineEntry(x))
}
