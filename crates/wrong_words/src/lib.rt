//! Bodies that bear the contracts of schedule_text, command_words and command_lines, for must-fail edits to
//! spoil.
#![tactic(auto)]

pub mod of_command_lines;
pub mod of_command_words;
pub mod of_schedule_text;
