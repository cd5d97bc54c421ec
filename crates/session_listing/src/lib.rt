// The listing of a session, as text.
#![tactic(auto)]

pub mod entry;
mod parts;
mod pixel_lines;
mod put;
pub mod render;
