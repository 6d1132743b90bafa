ghost use Rattle.std.specs.Prelude.{◌≤◌, ◌≡◌};

/// Offsets outside of which no byte of a disk is loose, so that a sync need not look at the others.
#[derive(Clone, Copy)]
pub struct LooseRange {
    /// The first of them.
    pub from: usize,
    /// The one behind the last.
    pub to: usize,
}

impl LooseRange {
    /// No offset.
    pub fn none() -> LooseRange
        ensures { result.to ≡ 0 }
    {
        LooseRange {
            from: usize::MAX,
            to: 0,
        }
    }

    /// The least range that has these offsets and those from one up to another.
    pub fn with(self, from: usize, to: usize) -> LooseRange
        ensures no_later { result.from ≤ self.from }
        ensures from { result.from ≤ from }
        ensures no_earlier { self.to ≤ result.to }
        ensures to { to ≤ result.to }
    {
        LooseRange {
            from: self.from.min(from),
            to: self.to.max(to),
        }
    }
}
