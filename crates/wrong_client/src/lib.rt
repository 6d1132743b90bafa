//! Bodies that bear the contracts of hail_client and command_jobs, for must-fail edits to spoil.
#![tactic(auto)]

pub mod of_command_jobs;
pub mod of_hail_client;
