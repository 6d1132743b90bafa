use crate::deeds::Deed::{self, Begins, DiskHas, Keeps, Loses, Mended, Reopens, Runs, Sized};
use crate::deeds::{FOUR, SIX, first_wrong};
use crate::job::Job;
use crate::store::{Seen, Text};
use vault::BeginFault;

/// A journal of 9 bytes and a setup of 42, then the record of an upgrade of 3, and those of two puts: a start
/// of 12, and an end of 15, which has the profile. A profile that no put names is the setup's.
const UPGRADED: &[Deed] = &[
    Begins(Job::Upgrade, Ok(1)),
    Runs(1, 5, Seen::Upgraded),
    DiskHas(9 + 42 + 3),
    Begins(Job::PutIn(b"a", b"old", 1), Ok(2)),
    Runs(2, 13, Seen::Put),
    DiskHas(9 + 42 + 3 + 12 + 15),
    Sized(1, 16),
    Begins(Job::Put(b"b", b"new"), Ok(3)),
    Runs(3, 13, Seen::Put),
    DiskHas(9 + 42 + 3 + 2 * (12 + 15)),
    Sized(2, 6),
    Reopens(&[]),
    Begins(Job::Get(b"a"), Ok(1)),
    Runs(1, 6, Seen::Got(Text::Old)),
    Begins(Job::Get(b"b"), Ok(2)),
    Runs(2, 6, Seen::Got(Text::New)),
    Begins(Job::Upgrade, Err(BeginFault::NewVersion)),
];

#[test]
fn an_upgraded_journal_has_ends_with_profiles(rt: HostRuntime) {
    assert_eq!(rt; first_wrong(rt.alloc(), &FOUR, UPGRADED), None);
}

/// A file is put before an upgrade and two after it, at other profiles. All are read and audited, and a
/// repair rebuilds the provider that lost a block in each of them.
const MIXED: &[Deed] = &[
    Begins(Job::Put(b"a", b"old"), Ok(1)),
    Runs(1, 15, Seen::Put),
    Keeps,
    Begins(Job::Upgrade, Ok(2)),
    Runs(2, 5, Seen::Upgraded),
    Begins(Job::PutIn(b"b", b"new", 0), Ok(3)),
    Runs(3, 15, Seen::Put),
    Begins(Job::PutIn(b"c", b"old", 4), Ok(4)),
    Runs(4, 15, Seen::Put),
    Sized(1, 16),
    Sized(2, 6),
    Sized(3, 128),
    Begins(Job::Get(b"a"), Ok(5)),
    Runs(5, 8, Seen::Got(Text::Old)),
    Begins(Job::Get(b"b"), Ok(6)),
    Runs(6, 8, Seen::Got(Text::New)),
    Begins(Job::Get(b"c"), Ok(7)),
    Runs(7, 8, Seen::Got(Text::Old)),
    Begins(Job::Audit, Ok(8)),
    Runs(8, 81, Seen::Audited(1)),
    Begins(Job::Repair, Err(BeginFault::NothingDue)),
    Loses,
    Begins(Job::Audit, Ok(9)),
    Runs(9, 81, Seen::Audited(2)),
    Begins(Job::Repair, Ok(10)),
    Runs(10, 29, Seen::Repaired(2)),
    Mended,
    Sized(2, 6),
    Sized(3, 128),
    Begins(Job::Get(b"c"), Ok(11)),
    Runs(11, 8, Seen::Got(Text::Old)),
    Begins(Job::Audit, Ok(12)),
    Runs(12, 81, Seen::Audited(3)),
    Begins(Job::Repair, Err(BeginFault::NothingDue)),
];

#[test]
fn files_of_three_profiles_are_read_audited_and_repaired(rt: HostRuntime) {
    assert_eq!(rt; first_wrong(rt.alloc(), &SIX, MIXED), None);
}

/// A profile is refused before the second version, and one that there is not always; an upgrade runs alone.
const REFUSED: &[Deed] = &[
    Begins(Job::PutIn(b"a", b"old", 0), Err(BeginFault::OldVersion)),
    Begins(Job::PutIn(b"a", b"old", 5), Err(BeginFault::BadProfile)),
    Begins(Job::PutIn(b"a", b"old", 255), Err(BeginFault::BadProfile)),
    Begins(Job::PutIn(b"", b"old", 5), Err(BeginFault::BadName)),
    Begins(Job::Put(b"a", b"old"), Ok(1)),
    Begins(Job::Upgrade, Err(BeginFault::Busy)),
    Runs(1, 13, Seen::Put),
    Begins(Job::Upgrade, Ok(2)),
    Begins(Job::Put(b"b", b"old"), Err(BeginFault::Busy)),
    Begins(Job::Get(b"a"), Err(BeginFault::Busy)),
    Begins(Job::Drop(b"a"), Err(BeginFault::Busy)),
    Begins(Job::Audit, Err(BeginFault::Busy)),
    Begins(Job::Repair, Err(BeginFault::Busy)),
    Begins(Job::Upgrade, Err(BeginFault::Busy)),
    Runs(2, 5, Seen::Upgraded),
    Begins(Job::Upgrade, Err(BeginFault::NewVersion)),
    Begins(Job::PutIn(b"b", b"old", 5), Err(BeginFault::BadProfile)),
    Begins(Job::PutIn(b"b", b"old", 4), Ok(3)),
    Runs(3, 13, Seen::Put),
];

#[test]
fn an_upgrade_runs_alone(rt: HostRuntime) {
    assert_eq!(rt; first_wrong(rt.alloc(), &FOUR, REFUSED), None);
}
