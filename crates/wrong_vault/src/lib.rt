//! Bodies that bear the contracts of vault and vault_open, for must-fail edits to spoil.
#![tactic(auto)]

pub mod of_vault;
pub mod of_vault_open;
