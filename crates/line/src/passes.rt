// The two passes over a line: every run is checked, and then every run is drawn.
ghost use Rattle.std.specs.Prelude.{◌≡◌};
ghost use Rattle.line.specs.Cells.{lent_of};
ghost use Rattle.line.specs.Inner.{InRange, FitsScreen, Entries, EntriesAnswer, Enough, coloured};

use crate::runs::{entry_of, id_at, run_end, stored_entry};
use chip_registers::STORE_WORDS;
use line_colour::entry::WindowEntry;
use line_pixels::Screen;
use line_setup::controls::Controls;
use refusals::Refusal;

// The first pass: whether every pixel has a defined window entry.
pub(crate) fn check_runs(
    controls: Controls,
    store: &[u32; STORE_WORDS],
    table: &[u8],
    start: usize,
) -> Result<(), Refusal>
    ensures { EntriesAnswer controls store.now table.now start result }
{
    let mut x = 0;
    let mut from = 0;
    while x < controls.width {
        let found = id_at(controls, table, start, from, x)?;
        let Some(_) = entry_of(controls, store, found.id) else {
            return Err(Refusal::UndefinedEntry(x));
        };
        x = run_end(controls, found.last);
        from = found.next;
    }
    Ok(())
}

// The second pass: every run is lent the rest of the output, from where it begins.
pub(crate) fn draw_runs(
    controls: Controls,
    screen: Screen,
    store: &[u32; STORE_WORDS],
    table: &[u8],
    start: usize,
    normal: &[u8],
    overlay: &[u8],
    out: &mut [u32],
)
    requires { InRange controls × FitsScreen controls screen × Enough controls (lent_of store.now table.now normal.now overlay.now) out.old × Entries controls store.now table.now start }
    ensures { out.new ≡ coloured controls screen (lent_of store.now table.now normal.now overlay.now) start out.old }
{
    let mut x = 0;
    let mut from = 0;
    while x < controls.width {
        let Ok(found) = id_at(controls, table, start, from, x) else {
            // Not taken: the first pass found an ID for every pixel.
            return;
        };
        // By its format, as the first pass found the window entry defined: the decoder's answer would be put together in memory and taken apart for each run.
        let word = stored_entry(store, found.id);
        let Some(format) = line_colour::entry::format_of(word) else {
            // Not taken: a defined window entry names a format.
            return;
        };
        let entry = WindowEntry::of(format, word, controls.depth);
        let end = run_end(controls, found.last);
        let first = x as usize;
        let count = (end - x) as usize;
        screen.fill(
            entry,
            store,
            normal,
            overlay,
            first,
            count,
            &mut out[first..],
        );
        x = end;
        from = found.next;
    }
}
