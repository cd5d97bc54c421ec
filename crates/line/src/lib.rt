// One drawn line.
#![tactic(auto)]

pub mod draw;
mod passes;
pub mod request;
mod runs;
