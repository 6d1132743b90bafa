//! Plain facts on lists, options and numbers; definitions and laws of fields of characteristic two, and of
//! polynomials over them.
#![tactic(auto)]

pub mod laws;
