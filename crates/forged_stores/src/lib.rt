//! Stores known by their journals; a get over such a store whose other bytes prove a forgery.
#![tactic(auto)]

pub mod laws;
mod stored;

pub use stored::Stored;
