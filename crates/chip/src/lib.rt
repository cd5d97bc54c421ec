// The chip: its state, register writes and reads, and dots.
#![tactic(auto)]

pub mod answered;
pub mod change;
pub mod dot;
pub mod dots;
mod pass;
pub mod read;
pub mod state;
pub mod write;
