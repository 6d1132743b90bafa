//! What the rows of devices stand on: calls and what they are to answer, looks at files, and files that forget.
#![tactic(auto)]

pub mod calls;
pub mod disk_calls;
pub mod files;
pub mod forgetful;
pub mod given;
