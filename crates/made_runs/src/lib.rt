//! Steps of the machine as functions of the state, and runs that are computed from a list of turns.
#![tactic(auto)]

pub mod runs;
