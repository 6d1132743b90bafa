use hail_scrub::ScrubTurn;
use vault::{PackAnswer, Turn};

/// What came of a step of a pack.
#[derive(Drop)]
pub enum PackStep {
    /// It goes on.
    More,
    /// It ended.
    Done(PackAnswer),
}

/// What came of a step: of one of a job of the vault, of one of the scrub that runs alone, over so many
/// providers, or of one of the pack that does.
#[derive(Drop)]
pub enum ClientTurn {
    Job(Turn),
    Scrub { providers: u8, turn: ScrubTurn },
    Pack(PackStep),
}
