use crate::check::check;
use crate::setups::{FOUR, SIX, STORED, THREE};
use command_fixtures::Deed::{Done, Holders, Keeps, Loses, Mended, Refused};
use command_fixtures::Rows;

/// Of six blocks one is lost.
const LOST: &[Rows] = &[Rows::Deeds(&[
    SIX,
    STORED,
    Holders(6),
    Keeps,
    Loses(0),
    Done(
        "audit",
        b"",
        b"audit 1 undecided 0\nprovider 0 count 4 flagged\nprovider 1 count 0 ok\nprovider 2 count 0 ok\nprovider 3 count 0 ok\nprovider 4 count 0 ok\nprovider 5 count 0 ok\n",
    ),
    Refused("audit", b"new", 6, 0),
    Done("repair", b"", b"repaired 1\n"),
    Refused("repair", b"new", 7, 0),
    Mended,
])];

#[test]
fn a_lost_block_is_found_and_mended(rt: HostRuntime) {
    check(&rt, LOST);
}

/// Of four blocks two are lost.
const UNDECIDED: &[Rows] = &[Rows::Deeds(&[
    FOUR,
    THREE,
    Loses(0),
    Loses(1),
    Done(
        "audit",
        b"",
        b"audit 1 undecided 1\nprovider 0 count 0 ok\nprovider 1 count 0 ok\nprovider 2 count 0 ok\nprovider 3 count 0 ok\n",
    ),
    Done(
        "audit",
        b"",
        b"audit 2 undecided 1\nprovider 0 count 0 ok\nprovider 1 count 0 ok\nprovider 2 count 0 ok\nprovider 3 count 0 ok\n",
    ),
    Refused("repair", b"new", 7, 0),
])];

#[test]
fn a_round_with_two_lost_answers_is_undecided(rt: HostRuntime) {
    check(&rt, UNDECIDED);
}
