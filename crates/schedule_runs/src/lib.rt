//! Devices that runs given outright have left, and what a replay or a trial over them does: instances of what
//! both suppose.
#![tactic(auto)]

pub mod laws;
