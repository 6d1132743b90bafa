//! Bodies that bear the contracts of stripe_bench and hail_scrub, for must-fail edits to spoil.
#![tactic(auto)]

pub mod of_hail_scrub;
pub mod of_stripe_bench;
