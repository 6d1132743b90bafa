//! What each command says and leaves, as definitions: its words, its order of refusals, what it does to the
//! devices, its lines.
#![tactic(auto)]

pub mod rows;
