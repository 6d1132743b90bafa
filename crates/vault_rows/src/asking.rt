use crate::deeds::Deed::{self, Asks, Begins, Called, Runs, Steps};
use crate::deeds::{SIX, first_wrong};
use crate::job::Job;
use crate::store::Seen;

/// A file of three stripes of 384 bytes, the last of them not full.
const LONG: &[u8] = &[7; 1000];

/// A put of three stripes stores on six providers. An audit of four rounds appends the record of its start in
/// four steps, asks in twenty-four, appends that of its end in four, and ends.
const AUDITED: &[Deed] = &[
    Begins(Job::Put(b"long", LONG), Ok(1)),
    Runs(1, 27, Seen::Put),
    Begins(Job::Audit, Ok(2)),
    Called(0, 18),
    Steps(2, 4, Seen::More),
    Called(0, 18),
    Asks(2, 24),
    Called(24, 18),
    Steps(2, 4, Seen::More),
    Runs(2, 1, Seen::Audited(1)),
    Called(24, 18),
];

#[test]
fn an_audit_asks_once_a_round_and_provider(rt: HostRuntime) {
    assert_eq!(rt; first_wrong(rt.alloc(), &SIX, AUDITED), None);
}
