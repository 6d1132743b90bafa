/// How a scrub ended.
#[derive(Clone, Copy)]
pub enum ScrubAnswer {
    /// All stripes were read: how many, and of each provider how many symbols and blocks differed. They are
    /// rewritten.
    Scrubbed {
        stripes: u64,
        symbols: [u64; 16],
        blocks: [u64; 16],
    },
    /// The lowest row of a stripe that is not accepted.
    Lost {
        stripe: u32,
        row: u64,
    },
    /// A store of this provider failed.
    ProviderFault {
        provider: u32,
    },
    /// A store found no memory.
    Memory,
}

/// What came of a step of a scrub.
#[derive(Clone, Copy)]
pub enum ScrubTurn {
    /// The scrub goes on.
    More,
    /// The scrub ended.
    Done(ScrubAnswer),
}
