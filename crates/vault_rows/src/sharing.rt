use crate::deeds::Deed::{self, Begins, DiskHas, Held, Runs, Steps};
use crate::deeds::{FOUR, first_wrong};
use crate::job::Job;
use crate::store::{Seen, Text};
use vault::BeginFault;

/// Eight puts run, and nothing else begins until one has ended.
const NINTH: &[Deed] = &[
    Begins(Job::Put(b"a", b"old"), Ok(1)),
    Begins(Job::Put(b"b", b"old"), Ok(2)),
    Begins(Job::Put(b"c", b"old"), Ok(3)),
    Begins(Job::Put(b"d", b"old"), Ok(4)),
    Begins(Job::Put(b"e", b"old"), Ok(5)),
    Begins(Job::Put(b"f", b"old"), Ok(6)),
    Begins(Job::Put(b"g", b"old"), Ok(7)),
    Begins(Job::Put(b"h", b"old"), Ok(8)),
    Begins(Job::Put(b"i", b"old"), Err(BeginFault::Busy)),
    Begins(Job::Get(b"a"), Err(BeginFault::Busy)),
    Begins(Job::Drop(b"a"), Err(BeginFault::Busy)),
    Runs(3, 13, Seen::Put),
    Begins(Job::Get(b"c"), Ok(9)),
    Begins(Job::Get(b"c"), Err(BeginFault::Busy)),
    Runs(9, 6, Seen::Got(Text::Old)),
];

#[test]
fn a_ninth_job_is_refused(rt: HostRuntime) {
    assert_eq!(rt; first_wrong(rt.alloc(), &FOUR, NINTH), None);
}

/// Eight puts run, and a job that would begin an append waits while another's is in flight.
const APPENDS: &[Deed] = &[
    Begins(Job::Put(b"a", b"old"), Ok(1)),
    Begins(Job::Put(b"b", b"old"), Ok(2)),
    Begins(Job::Put(b"c", b"old"), Ok(3)),
    Begins(Job::Put(b"d", b"old"), Ok(4)),
    Begins(Job::Put(b"e", b"old"), Ok(5)),
    Begins(Job::Put(b"f", b"old"), Ok(6)),
    Begins(Job::Put(b"g", b"old"), Ok(7)),
    Begins(Job::Put(b"h", b"old"), Ok(8)),
    Steps(1, 1, Seen::More),
    Steps(2, 1, Seen::Waiting(1)),
    Steps(8, 1, Seen::Waiting(1)),
    Steps(1, 1, Seen::More),
    Steps(2, 1, Seen::Waiting(1)),
    Steps(8, 1, Seen::Waiting(1)),
    Steps(1, 1, Seen::More),
    Steps(2, 1, Seen::Waiting(1)),
    Steps(8, 1, Seen::Waiting(1)),
    Steps(1, 1, Seen::More),
    Steps(2, 1, Seen::More),
    Steps(1, 4, Seen::More),
    Steps(1, 1, Seen::Waiting(2)),
    Runs(2, 12, Seen::Put),
    Runs(1, 5, Seen::Put),
    Held(1, 4),
    Held(2, 4),
    Held(3, 0),
];

#[test]
fn an_append_keeps_the_others_waiting(rt: HostRuntime) {
    assert_eq!(rt; first_wrong(rt.alloc(), &FOUR, APPENDS), None);
}

/// A get has begun when its file is replaced.
const PINNED: &[Deed] = &[
    Begins(Job::Put(b"a", b"old"), Ok(1)),
    Runs(1, 13, Seen::Put),
    Begins(Job::Get(b"a"), Ok(2)),
    Begins(Job::Put(b"a", b"new"), Ok(3)),
    Runs(3, 13, Seen::Put),
    Held(1, 4),
    Runs(2, 6, Seen::Got(Text::Old)),
    Begins(Job::Get(b"a"), Ok(4)),
    Runs(4, 6, Seen::Got(Text::New)),
    Held(1, 4),
];

#[test]
fn a_pinned_object_is_left(rt: HostRuntime) {
    assert_eq!(rt; first_wrong(rt.alloc(), &FOUR, PINNED), None);
}

/// A file is replaced, and nothing gets the older one.
const REPLACED: &[Deed] = &[
    Begins(Job::Put(b"a", b"old"), Ok(1)),
    Runs(1, 13, Seen::Put),
    Begins(Job::Put(b"a", b"new"), Ok(2)),
    Runs(2, 17, Seen::Put),
    Held(1, 0),
    Begins(Job::Get(b"a"), Ok(3)),
    Runs(3, 6, Seen::Got(Text::New)),
];

#[test]
fn an_older_object_is_removed(rt: HostRuntime) {
    assert_eq!(rt; first_wrong(rt.alloc(), &FOUR, REPLACED), None);
}

/// Two drops of a file run: a journal of 9 bytes, a setup of 42, the records of a put of 12 and 14, and one
/// drop of 4.
const TWO_DROPS: &[Deed] = &[
    Begins(Job::Put(b"a", b"old"), Ok(1)),
    Runs(1, 13, Seen::Put),
    DiskHas(9 + 42 + 12 + 14),
    Begins(Job::Drop(b"a"), Ok(2)),
    Begins(Job::Drop(b"a"), Ok(3)),
    Steps(2, 1, Seen::More),
    Steps(3, 1, Seen::Waiting(2)),
    Runs(2, 8, Seen::Dropped),
    Runs(3, 1, Seen::Dropped),
    DiskHas(9 + 42 + 12 + 14 + 4),
    Held(1, 0),
    Begins(Job::Drop(b"a"), Err(BeginFault::NoSuchName)),
];

#[test]
fn two_drops_of_a_name_write_one_record(rt: HostRuntime) {
    assert_eq!(rt; first_wrong(rt.alloc(), &FOUR, TWO_DROPS), None);
}
