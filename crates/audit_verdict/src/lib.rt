//! The verdict on a round of an audit: which providers did not answer rightly.
#![tactic(auto)]

mod answers;
mod counting;
mod judge;
pub mod laws;

pub use answers::round_challenge;
pub use judge::judge_round;
pub use record_codec::Counts;
