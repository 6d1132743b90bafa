//! What runs alone beside a held vault: a scrub or a pack.
ghost use Rattle.std.specs.Prelude.{◌≡◌};
ghost use Rattle.hail_client.specs.AtWork.{alone_number};

use hail_scrub::Scrub;
use vault::PackJob;

/// A scrub under way, and the number of its job.
#[derive(Drop)]
pub struct ScrubJob {
    pub number: u32,
    pub scrub: Scrub,
}

/// What runs alone beside a held vault, with no job beside it.
#[derive(Drop)]
pub enum Alone {
    Scrub(ScrubJob),
    Pack(PackJob),
}

impl Alone {
    /// The number of its job.
    pub(crate) fn number(&self) -> u32
        ensures { result ≡ alone_number self.now }
    {
        match self {
            Alone::Scrub(running) => running.number,
            Alone::Pack(running) => running.number,
        }
    }
}
