//! A client over its devices, with a vault open or none, and a scrub or a pack that runs alone, or none. Each
//! call is one event of the machine of jobs.
#![tactic(auto)]

mod alone;
mod begin;
mod client;
mod fault;
pub mod laws;
mod open;
mod replace;
mod run;
mod step;
mod turn;

pub use client::Client;
pub use fault::ReopenFault;
pub use turn::{ClientTurn, PackStep};
