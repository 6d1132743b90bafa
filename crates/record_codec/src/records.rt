use crate::counts::Counts;
use crate::name::Name;
use crate::setup::Setup;

/// A record of the journal. Lengths are bytes of a file; ids number puts, and numbers count audits, both from
/// 1 on.
#[derive(Clone, Copy)]
pub enum Record {
    /// What the store is set up with, and its master key.
    Setup {
        setup: Setup,
        master: [u8; 32],
    },
    /// A put took its id.
    PutStart {
        id: u64,
        name: Name,
    },
    /// All blocks of a put are stored: its file is in effect.
    PutDone {
        id: u64,
        length: u32,
    },
    /// A name is no longer in effect.
    Drop {
        name: Name,
    },
    /// An audit took its number.
    AuditStart {
        number: u64,
    },
    /// An audit's wrong rounds by provider, and its undecided rounds.
    AuditDone {
        number: u64,
        undecided: u32,
        counts: Counts,
    },
    /// What this audit found is repaired.
    RepairDone {
        number: u64,
    },
    /// All blocks of a put are stored, with this profile: its file is in effect. Of the journal's second
    /// version.
    PutDoneIn {
        id: u64,
        length: u32,
        profile: u8,
    },
    /// From here on the journal has its second version.
    Version,
    /// A packed journal goes on with these numbers.
    Resume {
        id: u64,
        audit: u64,
    },
    /// A file in effect, in a packed journal.
    File {
        id: u64,
        length: u32,
        profile: u8,
        name: Name,
    },
    /// The audit whose repair is due, in a packed journal.
    Due {
        number: u64,
        counts: Counts,
    },
}
