ghost use Rattle.std.specs.Prelude.{◌≡◌};
ghost use Rattle.journal_core.specs.declared.fault.JournalFault.TheVariants as journal_fault;

use std::alloc::{AllocError, AllocFailed};

/// The first place at which bytes are no journal, an offset in bytes.
#[derive(Clone, Copy, Debug, PartialEq, Eq)]
pub struct BadJournal {
    pub at: u64,
}

/// Why a journal was not read.
#[derive(Clone, Copy, Debug, PartialEq, Eq)]
pub enum JournalFault {
    /// The bytes are no journal.
    Bad(BadJournal),
    /// Memory ran out.
    Memory,
}

impl From<BadJournal> for JournalFault {
    ghost from_gives = { λ bad e. e ≡ journal_fault.Bad bad };

    fn from(bad: BadJournal) -> Self {
        JournalFault::Bad(bad)
    }
}

impl From<AllocError> for JournalFault {
    ghost from_gives = { λ _ e. e ≡ journal_fault.Memory };

    fn from(_: AllocError) -> Self {
        JournalFault::Memory
    }
}

impl<T: Drop> From<AllocFailed<T>> for JournalFault {
    ghost from_gives = { λ _ e. e ≡ journal_fault.Memory };

    fn from(_: AllocFailed<T>) -> Self {
        JournalFault::Memory
    }
}
