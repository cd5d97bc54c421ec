// What the pixels of a run are drawn from.
ghost use Rattle.std.specs.Prelude.{ℕ, ◌<◌, get_or};

use crate::Screen;
use chip_registers::STORE_WORDS;
use line_colour::entry::WindowEntry;

// What the control words and the window entry say, and the memory that is lent.
#[derive(Clone, Copy)]
pub(crate) struct Source<'a> {
    // What every pixel of the line goes by.
    pub screen: Screen,
    // What the window entry over the run says.
    pub entry: WindowEntry,
    // The store.
    pub store: &'a [u32; STORE_WORDS],
    // The normal row.
    pub normal: &'a [u8],
    // The overlay row.
    pub overlay: &'a [u8],
    // Each element of the normal row is a byte.
    ghost bytes: { (place : ℕ) → get_or normal.now place 0 < 256 },
}
