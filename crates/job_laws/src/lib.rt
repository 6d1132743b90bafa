//! What the job of a command leaves, as laws over runs of the machine.
#![tactic(auto)]

pub mod alone;
pub mod files;
pub mod laws;
