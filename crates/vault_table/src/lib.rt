//! What the records of a journal fold to: the setup, the files in effect, started puts, and audits.
#![tactic(auto)]

mod apply;
mod entry;
mod files;
pub mod laws;
mod names;
mod starts;
mod table;

pub use entry::{Entry, Refused};
pub use table::Table;
