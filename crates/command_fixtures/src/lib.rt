//! Stores over devices in memory, for the rows of the commands: what is done to them, and what is to come of
//! it.
#![tactic(auto)]

mod areas;
mod case;
mod commands;
mod deed;
mod goes;
mod heard;
mod holder;
mod image;
mod pinched;
mod rows;
mod schedule;
mod shows;
mod store;
mod told;

pub use case::Case;
pub use deed::Deed;
pub use rows::{Rows, first_wrong};
pub use schedule::Schedules;
pub use store::KEY;
pub use told::{NONE_FAILS, Told, tell};
