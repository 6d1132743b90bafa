//! A run with a scrub, given outright.
#![tactic(auto)]

pub mod runs;
