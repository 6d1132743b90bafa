//! The trial of a seed: its events, and the bytes that its gets are to give.
#![tactic(auto)]

mod draws;
mod epochs;
pub mod laws;
mod trial;

pub use trial::{Trial, make_trial};
