//! Providers on other machines: a link over two pipes, one over which requests go out ahead of the answers, and
//! the devices of a home of whose providers some are remote.
#![tactic(auto)]

mod ahead;
mod answer;
mod barrier;
mod blocks;
mod home_disk;
mod home_provider;
mod home_sink;
mod owed;
mod pipe_end;
mod pipe_link;
mod place;
mod remote_home;
mod remotes;

pub use ahead::AheadLink;
pub use barrier::Barrier;
pub use home_disk::HomeDisk;
pub use home_provider::HomeProvider;
pub use home_sink::HomeSink;
pub use pipe_link::PipeLink;
pub use remote_home::home_providers;
pub use remotes::{RemoteLink, Remotes};
