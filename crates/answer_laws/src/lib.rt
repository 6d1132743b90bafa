//! Any bytes are answered for.
#![tactic(auto)]

pub mod laws;
