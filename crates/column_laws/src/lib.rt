//! Laws of seen blocks: what they open to, which rows they are accepted with, and when they hold a forgery.
#![tactic(auto)]

pub mod laws;
