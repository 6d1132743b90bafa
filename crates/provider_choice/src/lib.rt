//! A provider of one of two kinds.
#![tactic(auto)]

mod choice;

pub use choice::Choice;
