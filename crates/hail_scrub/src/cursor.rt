use file_layout::FileShape;

/// A file with a stripe at least: how many it has, and the place of its bench.
#[derive(Clone, Copy)]
pub struct Item {
    pub file: FileShape,
    pub stripes: u32,
    pub bench: usize,
}

/// A stripe of a file, which has this place among the files.
#[derive(Clone, Copy)]
pub struct Spot {
    pub item: Item,
    pub place: usize,
    pub stripe: u32,
}

/// What a scrub does next. It stands for the list of all actions that it has still to do.
#[derive(Clone, Copy)]
pub enum Cursor {
    /// A fetch from this provider.
    Fetching { spot: Spot, provider: u32 },
    /// The opening of a stripe, whose blocks are fetched.
    Opening { spot: Spot },
    /// The store of a block that differs, on this provider.
    Storing { spot: Spot, provider: u32 },
    /// The end.
    Ending,
    /// Nothing: it has ended.
    Over,
}
