//! The decoder by syndromes.
#![tactic(auto)]

mod decode;
mod gather;
pub mod laws;
mod multipliers;
mod syndrome;

pub use decode::decode_syndromes;
pub use syndrome::syndromes;
