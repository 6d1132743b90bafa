//! Bodies that bear the contracts of the devices in memory, for must-fail edits to spoil.
#![tactic(auto)]

pub mod of_disk_model;
pub mod of_provider_model;
pub mod of_stream_model;
