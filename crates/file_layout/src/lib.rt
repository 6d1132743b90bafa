//! How a file's bytes lie in stripes of symbols.
#![tactic(auto)]

mod file;

pub use file::FileShape;
