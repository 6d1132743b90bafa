//! The second half of the main theorem, and the laws over runs of the machine that it rests on.
#![tactic(auto)]

pub mod laws;
pub mod runs;
