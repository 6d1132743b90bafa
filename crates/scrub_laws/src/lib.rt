//! What a scrub leaves that ran alone, as laws over runs of the machine.
#![tactic(auto)]

pub mod alone;
