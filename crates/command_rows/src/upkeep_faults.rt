use crate::check::check;
use crate::setups::{FOUR, THREE};
use command_fixtures::Deed::{Done, Loses, Refused};
use command_fixtures::{Case, Rows};

/// What an audit of four providers tells that counts none, the first and the second time.
const ALL_OK: &[u8] =
    b"audit 1 undecided 0\nprovider 0 count 0 ok\nprovider 1 count 0 ok\nprovider 2 count 0 ok\nprovider 3 count 0 ok\n";

const STILL_OK: &[u8] =
    b"audit 2 undecided 0\nprovider 0 count 0 ok\nprovider 1 count 0 ok\nprovider 2 count 0 ok\nprovider 3 count 0 ok\n";

/// What the first audit of four providers tells that flags the one at 2.
pub const FLAGGED: &[u8] =
    b"audit 1 undecided 0\nprovider 0 count 0 ok\nprovider 1 count 0 ok\nprovider 2 count 1 flagged\nprovider 3 count 0 ok\n";

/// The record that an audit begins is there from the call 6 on, and the number of the audit is not given
/// again.
const AUDIT: &[Rows] = &[Rows::Cut(Case {
    before: &[FOUR, THREE],
    line: "audit",
    input: b"",
    text: ALL_OK,
    calls: 11,
    stands: 6,
    without: &[Refused("repair", b"", 7, 0), Done("audit", b"", ALL_OK)],
    with: &[Refused("repair", b"", 7, 0), Done("audit", b"", STILL_OK)],
})];

#[test]
fn an_audit_cut_off_uses_its_number_once_it_is_begun(rt: HostRuntime) {
    check(&rt, AUDIT);
}

/// An audit that finds a lost block.
const FOUND: &[Rows] = &[Rows::Cut(Case {
    before: &[FOUR, THREE, Loses(2)],
    line: "audit",
    input: b"",
    text: FLAGGED,
    calls: 11,
    stands: 10,
    without: &[Refused("repair", b"", 7, 0)],
    with: &[
        Refused("audit", b"", 6, 0),
        Done("repair", b"", b"repaired 1\n"),
    ],
})];

#[test]
fn a_repair_is_due_from_the_last_sync_of_an_audit_on(rt: HostRuntime) {
    check(&rt, FOUND);
}

/// The repair of it.
const REPAIR: &[Rows] = &[Rows::Cut(Case {
    before: &[FOUR, THREE, Loses(2), Done("audit", b"", FLAGGED)],
    line: "repair",
    input: b"",
    text: b"repaired 1\n",
    calls: 7,
    stands: 6,
    without: &[
        Refused("audit", b"", 6, 0),
        Done("repair", b"", b"repaired 1\n"),
        Done("audit", b"", STILL_OK),
    ],
    with: &[Refused("repair", b"", 7, 0), Done("audit", b"", STILL_OK)],
})];

#[test]
fn a_repair_stays_due_until_its_last_sync(rt: HostRuntime) {
    check(&rt, REPAIR);
}
