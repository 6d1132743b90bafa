//! Bodies that bear the contracts of polynomials and the codes over them, for must-fail edits to spoil.
#![tactic(auto)]

pub mod of_code_points;
pub mod of_dispersal_code;
pub mod of_hail_gao;
pub mod of_hail_poly;
pub mod of_hail_syndrome;
