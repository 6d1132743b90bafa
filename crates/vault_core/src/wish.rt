use record_codec::Name;

/// What a job is wished for. A put is told the length of its file in bytes; the bytes themselves stay with
/// the caller. It may name a profile of its own; else it has the setup's.
#[derive(Clone, Copy)]
pub enum Wish {
    /// To put a file of so many bytes under a name.
    Put {
        name: Name,
        length: u32,
        profile: Option<u8>,
    },
    /// To get the file of a name.
    Get {
        name: Name,
    },
    /// To drop the file of a name.
    Drop {
        name: Name,
    },
    /// To audit all files in effect.
    Audit,
    /// To rebuild the providers that the last audit flagged.
    Repair,
    /// To raise the journal to its second version.
    Upgrade,
}

/// Why a job does not begin; the first that applies, in this order.
#[derive(Clone, Copy, PartialEq, Eq)]
pub enum BeginFault {
    /// A disk call of these jobs failed: the vault must be opened anew.
    MustReopen,
    /// Eight jobs run, or an upgrade; or an audit is wished while a put, an audit or a repair runs; or a
    /// repair while an audit or a repair runs; or an upgrade while any job runs.
    Busy,
    /// The bytes are no name.
    BadName,
    /// No profile has the number that a put names.
    BadProfile,
    /// The file has more than 2^22 bytes.
    TooLong,
    /// A put names a profile, and the journal has its first version.
    OldVersion,
    /// The name is not in effect.
    NoSuchName,
    /// The names in effect and those of running puts are 1,024 together, and this one is not among them.
    TooManyFiles,
    /// A repair is due, and no audit comes before it.
    RepairDue,
    /// No repair is due.
    NothingDue,
    /// The journal has its second version already.
    NewVersion,
    /// The records of this job find no room in the journal, or its number would come too near the last one.
    JournalFull,
    /// The journal stands in the first area, and its text reaches into the second, which a pack would write.
    PackTooLong,
    /// Memory ran out.
    Memory,
}
