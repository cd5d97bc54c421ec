// Colour: from a window entry and a sample to a map entry or a colour, and gamma.
#![tactic(auto)]

pub mod entry;
pub mod gamma;
