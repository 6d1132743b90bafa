ghost use Rattle.std.specs.Prelude.{◌≤◌};
ghost use Rattle.journal_pack.specs.Packs.{moves_of};

use journal_pack::Pack;

/// A pack under way: the number of its job, the length of the text at its begin in bytes, and the moves that
/// it makes.
#[derive(Drop)]
pub struct PackJob {
    pub number: u32,
    pub before: u64,
    pub pack: Pack,
    ghost undone: { moves_of pack ≤ 4 },
}

/// How a pack ended.
#[derive(Drop)]
pub enum PackAnswer {
    /// The journal is packed: the lengths of the text before and after, in bytes.
    Packed { before: u64, after: u64 },
    /// A call of the disk failed: the vault must be opened anew.
    DiskFault,
    /// A write found no memory: the old text is the journal.
    Memory,
}

/// What came of a step of a pack.
#[derive(Drop)]
pub enum PackTurn {
    /// It goes on.
    More(PackJob),
    /// It ended.
    Done(PackAnswer),
}
