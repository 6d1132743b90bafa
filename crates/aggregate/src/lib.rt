//! Honest answers to challenges, each one symbol for all picked rows, and the same sums of masks.
#![tactic(auto)]

mod answers;
mod blocks;
pub mod laws;
mod masks;

pub use answers::{answer, answer_drawn};
pub use blocks::Blocks;
pub use masks::{mask_sum, mask_sum_drawn};
