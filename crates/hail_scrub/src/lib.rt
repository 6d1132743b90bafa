//! A scrub: a full read of all files, which rewrites each block that differs from what the others say.
#![tactic(auto)]

mod begin;
mod compare;
mod cursor;
pub mod laws;
mod moves;
mod progress;
mod scrub;
mod steps;
mod turn;

pub use scrub::Scrub;
pub use turn::{ScrubAnswer, ScrubTurn};
