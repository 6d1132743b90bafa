//! A run of the machine, given outright, with damage, an audit that finds it, and a repair; and laws that
//! have it as an instance.
#![tactic(auto)]

pub mod runs;
