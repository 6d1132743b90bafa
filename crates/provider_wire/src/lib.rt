//! A provider behind a wire: a server of requests that come from a source, and a provider that sends them
//! over a link.
#![tactic(auto)]

mod answer;
mod bad;
mod block;
mod challenge_bytes;
mod end;
mod fields;
mod frame;
pub mod laws;
mod link;
mod link_calls;
mod link_provider;
mod loop_link;
mod over_link;
mod piece;
mod reading;
mod receive;
mod request;
mod server;
mod symbol_bytes;
mod window;

pub use block::Block;
pub use end::ServeEnd;
pub use link::Link;
pub use link_provider::LinkProvider;
pub use loop_link::LoopLink;
pub use request::Request;
pub use server::serve;
