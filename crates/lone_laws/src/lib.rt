//! Laws of a job that runs alone, from a state whose vault was just opened.
#![tactic(auto)]

pub mod laws;
