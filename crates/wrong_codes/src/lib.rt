//! Bodies that bear contracts of column_codec, server_code and audit_verdict, for must-fail edits to spoil.
#![tactic(auto)]

pub mod of_audit_verdict;
pub mod of_column_codec;
pub mod of_server_code;
