//! Bodies that bear the contracts of vault_core, for must-fail edits to spoil.
#![tactic(auto)]

pub mod of_vault_core;
