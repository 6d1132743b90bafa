use record_codec::Name;

/// A file in effect: its name, the number of its object, its length in bytes, and the number of its profile.
#[derive(Clone, Copy)]
pub struct Entry {
    pub name: Name,
    pub id: u64,
    pub length: u32,
    pub profile: u8,
}

/// Why a record may not follow those before it.
#[derive(Clone, Copy, PartialEq, Eq)]
pub enum Refused {
    /// Nothing is set up, and the record is no setup.
    NoSetup,
    /// A setup stands already.
    SecondSetup,
    /// A put must take the next id, and not the last number there is; a file of a packed journal an id below
    /// the next one that no other file and no started put has.
    BadId,
    /// No put with this id is started and not done.
    NotStarted,
    /// 1,024 files are in effect, and the name is none of theirs.
    TooMany,
    /// The name is not in effect.
    NoName,
    /// An audit must take the next number, not the last there is, with no repair due; and end as it was
    /// started, with a count for each provider. A due audit of a packed journal has a number below the next
    /// one, none else is due, and a count exceeds the tolerance.
    BadAudit,
    /// No repair of this audit is due.
    NoRepair,
    /// A put's end without a profile, in the journal's second version.
    OldKind,
    /// A record of the second version, in the first.
    OldVersion,
    /// The journal has its second version already.
    NewVersion,
    /// A packed journal's next numbers must come in the second version, before any number is drawn, and are
    /// not 0.
    BadResume,
    /// A packed journal's file has a name that is in effect.
    NameTwice,
    /// Memory ran out.
    Memory,
}
