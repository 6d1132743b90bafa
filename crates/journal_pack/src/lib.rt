//! A journal in two areas: reading the active one, and packing it into the other.
#![tactic(auto)]

mod active;
pub mod laws;
mod pack;
mod packing;

pub use active::{Active, read_active};
pub use pack::Pack;
pub use packing::pack_records;
