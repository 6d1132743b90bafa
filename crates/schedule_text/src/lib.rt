//! Schedules, read from bytes: each line is an event of a replay.
#![tactic(auto)]

mod begin;
mod event;
mod fault;
mod field;
mod form;
pub mod laws;
mod line;
mod read;
mod word;

pub use event::Event;
pub use fault::ScheduleFault;
pub use read::read_schedule;
