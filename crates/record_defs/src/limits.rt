ghost use Rattle.std.specs.Prelude.{◌≡◌};
ghost use Rattle.record_defs.specs.Records.{largest_file, largest_journal, most_files};

/// The largest length of a file, in bytes.
pub const LARGEST_FILE: u32 = 1 << 22;

/// The largest length of a journal, and so of a disk, in bytes.
pub const LARGEST_JOURNAL: u64 = 1 << 24;

/// How many files can be in effect.
pub const MOST_FILES: usize = 1024;

/// The limits are those of the definitions.
pub fn limits_are_defined()
    ensures file { LARGEST_FILE ≡ largest_file }
    ensures journal { LARGEST_JOURNAL ≡ largest_journal }
    ensures files { MOST_FILES ≡ most_files }
{}
