//! What the program ends with: the status of each refusal and fault.
#![tactic(auto)]

ghost use Rattle.std.specs.Prelude.{◌≡◌};
ghost use Rattle.exit_statuses.specs.Statuses.{statuses};

/// The words are no form of a command.
pub const USAGE: u8 = 2;

/// No file in effect has the name.
pub const NO_SUCH_NAME: u8 = 3;

/// No polynomial is accepted for a row.
pub const LOST_ROW: u8 = 4;

/// A repair comes before the next audit.
pub const REPAIR_DUE: u8 = 6;

/// No repair is due.
pub const NOTHING_DUE: u8 = 7;

/// The disk reads no journal.
pub const BAD_JOURNAL: u8 = 8;

/// No store was set up.
pub const NOT_SET_UP: u8 = 9;

/// A store was set up before.
pub const ALREADY_SET_UP: u8 = 10;

/// The records of the job find no room in the journal.
pub const JOURNAL_FULL: u8 = 11;

/// A call of the disk failed.
pub const DISK_FAULT: u8 = 12;

/// A store of a provider failed.
pub const PROVIDER_FAULT: u8 = 13;

/// A read of the source failed.
pub const SOURCE_FAULT: u8 = 14;

/// A write to the sink failed.
pub const SINK_FAULT: u8 = 15;

/// The file, or the schedule, is too long.
pub const TOO_LONG: u8 = 16;

/// The bytes are no name.
pub const BAD_NAME: u8 = 17;

/// The source gave no master key.
pub const BAD_KEY: u8 = 18;

/// A line of the schedule is outside the grammar.
pub const BAD_SCHEDULE: u8 = 19;

/// The numbers are no setup, or no shape has them; or there is no profile of the number that a put names.
pub const BAD_SETUP: u8 = 20;

/// No further name fits in beside those in effect.
pub const TOO_MANY_FILES: u8 = 21;

/// Fewer providers were handed in than the setup has.
pub const TOO_FEW_PROVIDERS: u8 = 22;

/// A put names a profile, and the journal has its first version.
pub const OLD_VERSION: u8 = 23;

/// The journal has its second version already.
pub const NEW_VERSION: u8 = 24;

/// The bytes from an offset on begin no request.
pub const BAD_FRAME: u8 = 25;

/// The journal's text reaches from the first area of the disk into the second, which a pack would write.
pub const PACK_TOO_LONG: u8 = 26;

/// There was no memory.
pub const NO_MEMORY: u8 = 70;

/// The statuses but 0, in ascending order.
pub fn statuses() -> [u8; 25]
    ensures { result ≡ statuses }
{
    [
        USAGE,
        NO_SUCH_NAME,
        LOST_ROW,
        REPAIR_DUE,
        NOTHING_DUE,
        BAD_JOURNAL,
        NOT_SET_UP,
        ALREADY_SET_UP,
        JOURNAL_FULL,
        DISK_FAULT,
        PROVIDER_FAULT,
        SOURCE_FAULT,
        SINK_FAULT,
        TOO_LONG,
        BAD_NAME,
        BAD_KEY,
        BAD_SCHEDULE,
        BAD_SETUP,
        TOO_MANY_FILES,
        TOO_FEW_PROVIDERS,
        OLD_VERSION,
        NEW_VERSION,
        BAD_FRAME,
        PACK_TOO_LONG,
        NO_MEMORY,
    ]
}
