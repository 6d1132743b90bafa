//! A provider: the blocks that it holds, how often its calls failed, and how often it was fetched from.
#![tactic(auto)]

mod fault;
mod held;
pub mod laws;
mod liar;
mod memory;
mod object;
mod provider;
mod sure;
mod untold;

pub use fault::StoreFault;
pub use liar::Liar;
pub use memory::MemProvider;
pub use provider::{Provider, Tamper};
pub use sure::SureProvider;
pub use untold::Untold;
