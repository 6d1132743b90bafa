//! Laws over runs of the machine that rest on the codes: the first half of the main theorem.
#![tactic(auto)]

pub mod laws;
