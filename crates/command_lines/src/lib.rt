//! The texts that the commands write, and writing them to a sink.
#![tactic(auto)]

mod audit;
mod list;
mod notes;
mod pieces;
mod scrub;
mod status;
mod values;
mod write;

pub use audit::{audit_lines, counts_in_use};
pub use list::{list_lines, push_files};
pub use notes::{dropped_line, packed_line, ready_line, repaired_line, stored_line, upgraded_line};
pub use pieces::{numbered_line, push_counted, push_line, push_number};
pub use scrub::scrub_lines;
pub use status::{LOST_ROW, NO_MEMORY, SINK_FAULT, WRITTEN};
pub use values::values_line;
pub use write::{tell_no_row, write_text};
