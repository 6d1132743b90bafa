//! A run of the machine, given outright, in which the journal is upgraded, a file has a profile of its own,
//! and a scrub and a pack run.
#![tactic(auto)]

pub mod runs;
