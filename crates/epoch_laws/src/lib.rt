//! Laws over runs: who may be damaged, told by events and outcomes.
#![tactic(auto)]

pub mod laws;
pub mod transcripts;
