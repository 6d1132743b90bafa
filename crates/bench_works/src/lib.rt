//! Pieces of hail's work that words name: each gives the count of its answers and a checksum of them.
#![tactic(auto)]

mod audit;
mod blocks;
mod decode;
mod encode;
mod failure;
mod field;
mod get;
mod measure;
mod numbers;
mod outcome;
mod put;
mod spoilt;
mod stripes;

pub use failure::Failure;
pub use measure::{FORMS, measured};
pub use outcome::Outcome;
