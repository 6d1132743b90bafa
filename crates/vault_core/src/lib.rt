//! The job machine of a vault: which action of which job comes next, and what a reply to it changes. It calls
//! no device.
#![tactic(auto)]

mod action;
mod alone;
mod begin;
mod cursor;
mod entries;
mod feed;
mod going;
mod job;
mod look;
mod made;
mod own;
mod pinned;
mod refusal;
mod reply;
mod room;
mod stream;
mod wish;

pub use action::{Action, Next};
pub use own::Core;
pub use pinned::Pinned;
pub use reply::Reply;
pub use wish::{BeginFault, Wish};
