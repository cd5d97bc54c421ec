// What the emulator calls from C to play a recorded session.
#![tactic(auto)]

pub mod steps;
