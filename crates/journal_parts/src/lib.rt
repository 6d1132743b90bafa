//! A journal read whole, for users of the parts.
#![tactic(auto)]

pub mod laws;
mod reading;

pub use reading::read_journal;
