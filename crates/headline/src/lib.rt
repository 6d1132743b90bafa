//! The main theorem: both halves, and the survival of acknowledged files, of every run of the machine.
#![tactic(auto)]

pub mod laws;
