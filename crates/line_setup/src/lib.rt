// What a line goes by, and what it is refused for before anything is read.
#![tactic(auto)]

pub mod controls;
pub mod faults;
pub mod setup;
