//! The jobs of a client on its disk and its providers. Each call is one event of the machine of jobs.
#![tactic(auto)]

mod act;
mod admit;
mod area;
mod ask;
mod auditing;
mod begin;
mod benches;
mod desk;
mod end;
mod fetch;
mod files;
mod flight;
mod fresh;
mod getting;
mod heard;
mod heard_list;
mod hold;
pub mod laws;
mod making;
mod mending;
mod moves;
mod packing;
mod packs;
mod question;
mod remove;
mod start;
mod step;
mod store;
mod stream;
mod tasks;
mod turn;
mod vault;
mod work;

pub use heard::{Heard, HeardList};
pub use packing::{PackAnswer, PackJob, PackTurn};
pub use turn::{Answer, Ended, Turn};
pub use vault::Vault;
pub use vault_core::BeginFault;
pub use vault_open::{InitFault, StartFault, init};
