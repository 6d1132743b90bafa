//! The last records of jobs.
ghost use Rattle.std.specs.Prelude.{◌≡◌, ◌≤◌, ◌<◌, ◌^◌, IsTrue, nat_lt};
ghost use Rattle.machine_defs.specs.Appends.{done_record};
ghost use Rattle.record_defs.specs.Records.{AuditDone, RepairDone, Version, all_profiles, largest_file};
ghost use Rattle.std.specs.List.{All};
ghost use Rattle.record_codec.specs.Entries.{entry_of, counted, IsInGrammar, IsPadded};

use record_codec::{Counts, Record};

/// The last record of a put: in the second version it has the file's profile.
pub fn put_done(version: u8, id: u64, length: u32, profile: u8) -> Record
    ensures value { entry_of result ≡ done_record version id length profile }
    ensures in_grammar { length ≤ largest_file → IsTrue (nat_lt profile all_profiles) → IsInGrammar result }
{
    if version == 2 {
        Record::PutDoneIn {
            id,
            length,
            profile,
        }
    } else {
        Record::PutDone { id, length }
    }
}

/// Numbers fit their type: a contract learns it of a slice alone.
fn fit(numbers: &[u32])
    ensures { All (λ k. k < 2 ^ 32) numbers.now }
{}

/// The last record of an audit.
pub fn audit_done(number: u64, undecided: u32, counts: Counts) -> Record
    ensures value { entry_of result ≡ AuditDone number undecided (counted counts) }
    ensures in_grammar { 4 ≤ counts.n → counts.n ≤ 16 → IsPadded counts → IsInGrammar result }
{
    fit(&counts.by);
    Record::AuditDone {
        number,
        undecided,
        counts,
    }
}

/// The record of a repair.
pub fn repair_done(number: u64) -> Record
    ensures value { entry_of result ≡ RepairDone number }
    ensures in_grammar { IsInGrammar result }
{
    Record::RepairDone { number }
}

/// The record of an upgrade: from it on the journal has its second version.
pub fn second_version() -> Record
    ensures value { entry_of result ≡ Version }
    ensures in_grammar { IsInGrammar result }
{
    Record::Version
}
