//! The words of a command line: which command they spell, the setup of its numbers, and the master key of a
//! text.
#![tactic(auto)]

mod command;
mod init;
mod key;
pub mod laws;
mod row;
mod word;

pub use command::{Command, read_command};
pub use init::{Numbers, read_setup};
pub use key::read_key;
pub use row::Row;
pub use word::read_number;
