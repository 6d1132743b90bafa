//! Laws over runs: whose bytes stand under a name.
#![tactic(auto)]

pub mod counts;
pub mod instances;
pub mod laws;
pub mod transcripts;
