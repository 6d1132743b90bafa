use record_codec::Counts;

/// What came of an action. A fault of a provider at a fetch, an ask or a removal is told as `Done`.
#[derive(Clone, Copy)]
pub enum Reply {
    /// The action was done.
    Done,
    /// The disk call, or the store, failed.
    Failed,
    /// The write, or the store, found no memory.
    Memory,
    /// A row of the stripe is not accepted, this one the lowest.
    Lost { row: u64 },
    /// The last ask of an audit was made, with these sums over all rounds.
    Verdict { undecided: u32, counts: Counts },
}
