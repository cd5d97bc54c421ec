// The library for C: each of its calls is the call of a crate below, under the same clauses.
#![tactic(auto)]

pub mod calls;
pub mod questions;
pub mod steps;
