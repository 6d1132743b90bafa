//! Bodies that bear the contracts of journal_core, vault_table and journal_pack, for must-fail edits to spoil.
#![tactic(auto)]

pub mod of_journal_core;
pub mod of_journal_pack;
pub mod of_vault_table;
