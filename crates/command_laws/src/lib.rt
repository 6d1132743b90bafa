//! What a user may believe of a command: how it ends, and what it leaves.
#![tactic(auto)]

pub mod after;
pub mod ends;
pub mod inits;
pub mod instances;
pub mod kept;
pub mod pieces;
pub mod statuses;
