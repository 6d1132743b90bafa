//! Bodies that bear the contracts of record_codec, for must-fail edits to spoil.
#![tactic(auto)]

pub mod of_record_codec;
