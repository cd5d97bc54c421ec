// Window IDs: the table that gives each pixel of a line its ID.
#![tactic(auto)]

pub mod frame;
pub mod ids;

// The most bytes that a table can have.
pub const MOST_TABLE_BYTES: usize = 65536;

// The bytes of a block: a line table ends with the block that it starts in.
const BLOCK_BYTES: usize = 512;

// The bytes of a frame entry.
const FRAME_ENTRY_BYTES: usize = 4;

// The bytes of a line entry.
const LINE_ENTRY_BYTES: usize = 2;

// The most frame entries that count.
const MOST_FRAME_ENTRIES: usize = 2048;
