//! The words that the program takes, and the lines that it tells.
#![tactic(auto)]

mod given;
mod text;

pub use given::{only_reads, stores_blocks, words};
pub use text::{has_place, text_of};
