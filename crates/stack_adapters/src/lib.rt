//! A folder with one file for each object, and how it is brought to the medium.
#![tactic(auto)]

mod object_file;
mod stack;
mod sync;

pub use stack::Stack;
pub use sync::bring;
