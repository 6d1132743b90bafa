//! Bodies that bear the contracts of hail_top, for must-fail edits to spoil.
#![tactic(auto)]

pub mod of_hail_top;
