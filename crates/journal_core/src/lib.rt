//! The text of a journal, and appends to it.
#![tactic(auto)]

mod append;
mod areas;
mod fault;
mod gates;
pub mod laws;
mod moving;

pub use append::Append;
pub use areas::{FIRST_BASE, SECOND, SECOND_BASE, SWITCH};
pub use fault::{BadJournal, JournalFault};
pub use gates::{active_gate, next_record};
pub use moving::make_move;
