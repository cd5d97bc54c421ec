// What a line goes by besides the cells that it reads.
use crate::controls::Controls;

// How much is lent.
#[derive(Clone, Copy)]
pub struct Lengths {
    // Words of the store.
    pub store: usize,
    // Bytes of the table.
    pub table: usize,
    // Bytes of the normal row.
    pub normal: usize,
    // Bytes of the overlay row.
    pub overlay: usize,
    // Words of the output.
    pub output: usize,
}

// What a line goes by.
#[derive(Clone, Copy)]
pub struct Setup {
    // Whether the state keeps its rule.
    pub good: bool,
    // What the control words say.
    pub controls: Controls,
    // The line's number.
    pub y: u32,
    // How much is lent.
    pub lengths: Lengths,
}
