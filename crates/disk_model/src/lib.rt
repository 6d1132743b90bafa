//! A disk: what it reads, what of that a stop may change, and how often it failed.
#![tactic(auto)]

mod disk;
pub mod laws;
mod memory;
mod parts;
mod range;
mod sure;
mod whole;

pub use disk::Disk;
pub use memory::MemDisk;
pub use sure::SureDisk;
pub use whole::read_front;
