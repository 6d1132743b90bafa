//! The two codes as definitions: the server code down a provider's block, and the dispersal code across
//! providers.
#![tactic(auto)]

mod counted;
pub mod laws;

pub use counted::{PROFILES, profiles_are_counted};
