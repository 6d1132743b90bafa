ghost use Rattle.std.specs.Prelude.{◌≡◌};
ghost use Rattle.std.specs.Option.{ForSome};
ghost use Rattle.column_defs.specs.Objects.{symbols_in};
ghost use Rattle.file_layout.specs.Files.{shaped_object};

use crate::heard::{Answers, Fetches};
use column_codec::Bench;
use record_codec::Counts;
use stream_model::Bytes;
use stripe_bench::Blocks;

/// What a put works with: the bytes of its file, and the stripe whose symbols are at hand.
#[derive(Drop)]
pub struct PutTask {
    pub bytes: Bytes,
    pub bench: Bench,
    pub at_hand: Option<u32>,
    ghost gathered: { ForSome at_hand (λ stripe. bench.rows.items
        ≡ symbols_in (shaped_object bench.keys.master.0 bench.keys.file) bytes stripe) },
}

/// What a stream works with, a put that is given its file stripe by stripe: the stripe whose symbols are at
/// hand, in the bench.
#[derive(Drop)]
pub struct StreamTask {
    pub bench: Bench,
    pub at_hand: Option<u32>,
}

/// What a get works with: what its fetches gave, and the bytes that were opened so far, of a file of this
/// length.
#[derive(Drop)]
pub struct GetTask {
    pub fetched: Fetches,
    pub bytes: Vec<u8>,
    pub length: usize,
    pub bench: Bench,
}

/// What an audit works with: what its asks gave, and the sums of the rounds that all providers were asked in.
#[derive(Drop)]
pub struct AuditTask {
    pub heard: Answers,
    pub undecided: u32,
    pub counts: Counts,
}

/// What a repair works with: the blocks of the stripe in work, the bench that opens them, and benches for the
/// other profiles of its files.
#[derive(Drop)]
pub struct RepairTask {
    pub blocks: Blocks,
    pub bench: Bench,
    pub others: Vec<Bench>,
}

/// What a running job works with.
#[derive(Drop)]
pub enum Task {
    Put(PutTask),
    Stream(StreamTask),
    Get(GetTask),
    Drop,
    Audit(AuditTask),
    Repair(RepairTask),
    Upgrade,
}

/// A running job and what it works with.
#[derive(Drop)]
pub struct Running {
    pub number: u32,
    pub task: Task,
}
