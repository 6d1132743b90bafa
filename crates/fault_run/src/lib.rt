//! A run of the machine, given outright, in which calls of every device fail; and laws that have it as an
//! instance.
#![tactic(auto)]

pub mod laws;
pub mod runs;
