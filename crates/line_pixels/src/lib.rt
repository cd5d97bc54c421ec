// Pixels: the colour that each pixel of a line shows, and runs of them.
#![tactic(auto)]

mod bytes;
mod correction;
mod cursor;
pub mod fill;
mod held;
mod index_12;
mod layers;
mod lengths;
mod looked_up;
mod mapped;
mod overlay;
mod paired;
mod rgb;
mod rgb_332;
mod runs;
mod source;
mod store;
mod sums;

// What every pixel of a line goes by: what the control words say, and which line it is.
#[derive(Clone, Copy)]
pub struct Screen {
    // Whether overlay is on.
    pub overlay: bool,
    // Whether the cursor is on.
    pub cursor: bool,
    // Whether the cursor is a cross-hair, and not the glyph.
    pub crosshair: bool,
    // The bits of a pixel of the normal row: 16 or 32.
    pub depth: u32,
    // x of the cursor.
    pub cx: usize,
    // y of the cursor.
    pub cy: usize,
    // The line's number.
    pub y: usize,
}
