// Runs: the pixels that one line entry serves. They all have its ID, and so one window entry.
ghost use Rattle.std.specs.Prelude.{◌<◌, ◌≡◌, get_or};
ghost use Rattle.line_colour.specs.Entry.{decoded};
ghost use Rattle.line.specs.Inner.{PassedAt, Served, EndsRun};

use chip_registers::STORE_WORDS;
use line_colour::entry::WindowEntry;
use line_setup::controls::Controls;
use line_windows::ids::FoundId;
use refusals::Refusal;

// The ID of pixel x with the pixels that have it too; with window IDs off all pixels are window 0's.
pub(crate) fn id_at(
    controls: Controls,
    table: &[u8],
    start: usize,
    from: usize,
    x: u32,
) -> Result<FoundId, Refusal>
    requires { PassedAt controls table.now start from x × (x < controls.width) }
    ensures { Served controls table.now start x result }
{
    if controls.ids {
        return line_windows::ids::look_up(table, start, from, x);
    }
    Ok(FoundId {
        id: 0,
        last: controls.width - 1,
        next: 0,
    })
}

// The window entry of an ID, as it is stored.
pub(crate) fn stored_entry(store: &[u32; STORE_WORDS], id: u32) -> u32
    requires { id < 32 }
    ensures { result ≡ get_or store.now id 0 }
{
    let id = id as usize;
    store[id]
}

// What the window entry of an ID says, if it is defined.
pub(crate) fn entry_of(
    controls: Controls,
    store: &[u32; STORE_WORDS],
    id: u32,
) -> Option<WindowEntry>
    requires { id < 32 }
    ensures { result ≡ decoded (get_or store.now id 0) controls.depth }
{
    line_colour::entry::decode(stored_entry(store, id), controls.depth)
}

// The pixel behind a run whose line entry serves pixels up to this one: a run ends with the line.
pub(crate) fn run_end(controls: Controls, last: u32) -> u32
    ensures { EndsRun controls.width last result }
{
    if last < controls.width {
        return last + 1;
    }
    controls.width
}
