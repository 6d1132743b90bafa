//! What a list of the names, a repair and an audit answer in a run, and what that hangs on.
#![tactic(auto)]

pub mod instances;
pub mod laws;
