//! Records as plain data, their spelling, the journal's text, and what a list of records folds to.
#![tactic(auto)]

pub mod laws;
mod limits;
pub mod rows;

pub use limits::{LARGEST_FILE, LARGEST_JOURNAL, MOST_FILES, limits_are_defined};
