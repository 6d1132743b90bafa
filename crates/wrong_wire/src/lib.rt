//! Bodies that bear the contracts of provider_wire, for must-fail edits to spoil.
#![tactic(auto)]

pub mod of_provider_wire;
