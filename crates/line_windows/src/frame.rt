// Frame entries: which line table a line uses.
ghost use Rattle.std.specs.Prelude.{◌<◌, ◌≡◌, length, IfOk};
ghost use Rattle.rules.specs.Rule.{run};
ghost use Rattle.refusals.specs.Refusal.{outcome_of};
ghost use Rattle.line_windows.specs.Table.{most_table_bytes, table_view};
ghost use Rattle.line_windows.specs.Frame.{frame_entries, line_table_of};

use crate::{BLOCK_BYTES, FRAME_ENTRY_BYTES, LINE_ENTRY_BYTES, MOST_FRAME_ENTRIES};
use refusals::Refusal;

// How many whole frame entries a table of so many bytes has.
fn frame_entries(bytes: usize) -> usize
    ensures { result ≡ frame_entries bytes }
{
    let whole = bytes / FRAME_ENTRY_BYTES;
    whole.min(MOST_FRAME_ENTRIES)
}

// The byte at which the line table of line y starts: the first frame entry that ends there or later says.
pub fn line_table(table: &[u8], y: u32) -> Result<usize, Refusal>
    ensures says { outcome_of result ≡ run (table_view table.now) (line_table_of (length table.now) y) }
    ensures below { IfOk result (λ byte. byte < most_table_bytes) }
{
    for entry in 0..frame_entries(table.len()) {
        let word = words::be32(table, FRAME_ENTRY_BYTES * entry);
        if y <= words::field(word, 26, 16) {
            let block = words::field(word, 14, 8) as usize;
            let offset = words::field(word, 7, 0) as usize;
            return Ok(BLOCK_BYTES * block + LINE_ENTRY_BYTES * offset);
        }
    }
    Err(Refusal::NoFrameEntry(y))
}
