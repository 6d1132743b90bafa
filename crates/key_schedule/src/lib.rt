//! The master key, and what is derived from it by SHA-256 (FIPS 180-4): file keys, secret points and seeds.
#![tactic(auto)]

mod derive;
mod master;

pub use derive::{file_key, point, seed};
pub use master::Master;
