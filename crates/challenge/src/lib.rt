//! Challenges to what a provider holds of a file: which rows they pick, and with which weights.
#![tactic(auto)]

mod draw;
mod drawn;
mod question;

pub use drawn::Drawn;
pub use question::Challenge;
