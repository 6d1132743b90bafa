//! What a user may conclude of the program: the sentences of its promise, each from the contract of `hail`
//! alone.
#![tactic(auto)]

pub mod commands;
pub mod instances;
pub mod laws;
pub mod schedules;
pub mod texts;
pub mod upkeep;
pub mod worked;
