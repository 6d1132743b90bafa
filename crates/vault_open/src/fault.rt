ghost use Rattle.std.specs.Prelude.{◌≡◌};
ghost use Rattle.vault_open.specs.declared.fault.InitFault.TheVariants as init_fault;
ghost use Rattle.vault_open.specs.declared.fault.StartFault.TheVariants as start_fault;
ghost use Rattle.vault_open.specs.Faults.{init_answer, start_answer};

use journal_core::BadJournal;
use stream_model::{Memory, WriteFault};
use thiserror::Error;

/// Why a store was not set up.
#[derive(Clone, Copy, Debug, Drop, Error)]
pub enum InitFault {
    /// A number of the setup is outside its limits.
    #[error("BadSetup")]
    BadSetup,
    /// A call of the disk failed.
    #[error("DiskFault")]
    DiskFault,
    /// More than nine bytes are no journal, or its first record is no setup: the offset of the first bad
    /// byte.
    #[error("BadJournal {at}")]
    BadJournal { at: u64 },
    /// The journal's first record is a setup.
    #[error("Already")]
    Already,
    /// Memory ran out.
    #[error("Memory")]
    Memory,
}

/// Why a vault was not opened.
#[derive(Clone, Copy, Debug, Drop, Error)]
pub enum StartFault {
    /// A call of the disk failed.
    #[error("DiskFault")]
    DiskFault,
    /// The disk has at most nine bytes, or a journal with no record.
    #[error("NotSetUp")]
    NotSetUp,
    /// More than nine bytes are no journal, or a record may not follow those before it: the offset of the
    /// first bad byte.
    #[error("BadJournal {at}")]
    BadJournal { at: u64 },
    /// Memory ran out.
    #[error("Memory")]
    Memory,
}

impl From<WriteFault> for InitFault {
    ghost from_gives = { λ f e. e ≡ init_answer f };

    fn from(fault: WriteFault) -> Self {
        match fault {
            WriteFault::Failed => InitFault::DiskFault,
            WriteFault::Memory => InitFault::Memory,
        }
    }
}

impl From<BadJournal> for InitFault {
    ghost from_gives = { λ bad e. e ≡ init_fault.BadJournal bad.at };

    fn from(bad: BadJournal) -> Self {
        InitFault::BadJournal { at: bad.at }
    }
}

impl From<WriteFault> for StartFault {
    ghost from_gives = { λ f e. e ≡ start_answer f };

    fn from(fault: WriteFault) -> Self {
        match fault {
            WriteFault::Failed => StartFault::DiskFault,
            WriteFault::Memory => StartFault::Memory,
        }
    }
}

impl From<BadJournal> for StartFault {
    ghost from_gives = { λ bad e. e ≡ start_fault.BadJournal bad.at };

    fn from(bad: BadJournal) -> Self {
        StartFault::BadJournal { at: bad.at }
    }
}

impl From<Memory> for StartFault {
    ghost from_gives = { λ _ e. e ≡ start_fault.Memory };

    fn from(_: Memory) -> Self {
        StartFault::Memory
    }
}
