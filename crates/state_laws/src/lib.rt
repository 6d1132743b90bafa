//! Sound states: what holds of every state of the machine that a run reaches, told of the state alone.
#![tactic(auto)]

pub mod laws;
