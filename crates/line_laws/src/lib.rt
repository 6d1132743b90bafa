//! What the lines of outcomes tell.
#![tactic(auto)]

pub mod instances;
pub mod laws;
