//! What a set-up and a start do with the disk, before there is a job.
#![tactic(auto)]

mod fault;
mod folding;
mod preparing;
mod reading;
mod set_up;
mod store;

pub use fault::{InitFault, StartFault};
pub use set_up::init;
pub use store::{Store, read_store};
