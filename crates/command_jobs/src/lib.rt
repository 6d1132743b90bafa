//! The one job of a command, its scrub or its pack: the vault is opened over the disk, and what the command
//! asks for runs to its end.
#![tactic(auto)]

mod job;
mod open;
mod pack;
mod piece;
mod run;
mod scrub;
mod stream;

pub use job::Job;
pub use open::{Unopened, open_vault};
pub use pack::run_pack;
pub use run::run_job;
pub use scrub::run_scrub;
pub use stream::{Streamed, Unbegun, run_stream};
