// What the emulator calls from C on the chip.
#![tactic(auto)]

pub mod calls;
mod numbers;
