// A recorded session: what it holds, and one record of it at a time.
#![tactic(auto)]

mod acts;
mod keep;
pub mod session;
pub mod step;
