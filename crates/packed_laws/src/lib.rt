//! Laws of the records of a packed journal: their spellings, and how long their text is.
#![tactic(auto)]

pub mod laws;
