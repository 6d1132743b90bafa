//! The command that serves one of the providers handed in: its words, and what it answers.
#![tactic(auto)]

mod command;
pub mod laws;
mod status;
mod words;

pub use command::serve_at;
pub use exit_statuses::BAD_FRAME;
pub use status::Served;
pub use words::read_serve;
