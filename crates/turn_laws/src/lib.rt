//! Jobs that are given by their turns, from every state that was just opened over four providers: they run
//! alone, as commands ask.
#![tactic(auto)]

pub mod laws;
