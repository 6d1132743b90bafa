use crate::deeds::Deed::{self, Bars, Begins, Holds, Releases, Reopens, Runs, ScrubHas, Steps};
use crate::deeds::{FOUR, SIX, first_wrong};
use crate::job::Job;
use crate::store::{Seen, Text};
use vault::BeginFault;

/// A vault is held, but not beside a job nor twice. Until it is released nothing begins, and its number is
/// that of no job; a vault that is opened anew is not held.
const HELD: &[Deed] = &[
    Begins(Job::Put(b"a", b"old"), Ok(1)),
    Holds(Err(BeginFault::Busy)),
    Runs(1, 13, Seen::Put),
    Holds(Ok(2)),
    Holds(Err(BeginFault::Busy)),
    Begins(Job::Put(b"b", b"new"), Err(BeginFault::Busy)),
    Begins(Job::Put(b"", b"new"), Err(BeginFault::Busy)),
    Begins(Job::Get(b"a"), Err(BeginFault::Busy)),
    Begins(Job::Drop(b"a"), Err(BeginFault::Busy)),
    Begins(Job::Audit, Err(BeginFault::Busy)),
    Begins(Job::Repair, Err(BeginFault::Busy)),
    Begins(Job::Upgrade, Err(BeginFault::Busy)),
    Steps(2, 1, Seen::NoSuchJob),
    Releases,
    Steps(2, 1, Seen::NoSuchJob),
    Releases,
    Begins(Job::Get(b"a"), Ok(3)),
    Holds(Err(BeginFault::Busy)),
    Runs(3, 6, Seen::Got(Text::Old)),
    Holds(Ok(4)),
    Reopens(&[]),
    Begins(Job::Get(b"a"), Ok(1)),
    Runs(1, 6, Seen::Got(Text::Old)),
];

#[test]
fn a_held_vault_takes_no_job(rt: HostRuntime) {
    assert_eq!(rt; first_wrong(rt.alloc(), &FOUR, HELD), None);
}

/// Where a disk call of a job failed, a hold is refused as a begin is.
const BARRED: &[Deed] = &[Bars(BeginFault::MustReopen)];

#[test]
fn a_vault_whose_disk_failed_is_not_held(rt: HostRuntime) {
    assert_eq!(rt; first_wrong(rt.alloc(), &FOUR, BARRED), None);
}

/// A file of three stripes of 96 bytes, the last of them not full, at profile 0.
const SHORT: &[u8] = &[7; 200];

/// A scrub fetches each stripe from six providers, opens it, and may store it on each: 13 steps a stripe, and
/// the end. A file of three bytes has one stripe, and an empty one has none.
const SCRUBBED: &[Deed] = &[
    ScrubHas(1),
    Begins(Job::Put(b"a", b"old"), Ok(1)),
    ScrubHas(1),
    Runs(1, 15, Seen::Put),
    ScrubHas(1 + 13),
    Begins(Job::Upgrade, Ok(2)),
    Runs(2, 5, Seen::Upgraded),
    Begins(Job::PutIn(b"b", SHORT, 0), Ok(3)),
    Runs(3, 27, Seen::Put),
    ScrubHas(1 + 13 + 3 * 13),
    Holds(Ok(4)),
    ScrubHas(1 + 13 + 3 * 13),
    Releases,
    Begins(Job::Put(b"c", b""), Ok(5)),
    Runs(5, 9, Seen::Put),
    ScrubHas(1 + 13 + 3 * 13),
    Begins(Job::Drop(b"a"), Ok(6)),
    Runs(6, 11, Seen::Dropped),
    ScrubHas(1 + 3 * 13),
];

#[test]
fn a_scrub_of_all_files_goes_by_their_profiles(rt: HostRuntime) {
    assert_eq!(rt; first_wrong(rt.alloc(), &SIX, SCRUBBED), None);
}
