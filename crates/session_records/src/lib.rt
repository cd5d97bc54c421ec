// The records of a session file: what stands at a place of lent bytes.
#![tactic(auto)]

mod faults;
mod parts;
pub mod record;
mod tags;

// How many records a file has at most.
pub const MOST_RECORDS: u32 = 1000000;

// How many dots a record has at most.
pub const MOST_DOTS: u32 = 16777216;

// How many bytes the table has at most, all records of it together.
pub const LONGEST_TABLE: usize = 65536;

// How many bytes a normal row has at most.
pub const LONGEST_NORMAL: usize = 8192;

// How many bytes an overlay row has at most.
pub const LONGEST_OVERLAY: usize = 2048;

// How many bytes a body has at most: what a length of two bytes can say.
const LONGEST_BODY: usize = 65535;
