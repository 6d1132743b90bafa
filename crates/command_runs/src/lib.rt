//! Commands over devices, given outright: how they end, and laws that have them as instances.
#![tactic(auto)]

pub mod given_up;
pub mod laws;
pub mod packs;
pub mod refused;
pub mod runs;
