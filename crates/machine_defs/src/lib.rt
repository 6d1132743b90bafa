//! The machine of jobs, as definitions: its states, its events, its runs, and the lines that they write.
#![tactic(auto)]

pub mod laws;
pub mod rows;
pub mod runs;
