use crate::check::check;
use crate::setups::FOUR;
use command_fixtures::Deed::{Done, Heard, Known, Refused, WroteOther};
use command_fixtures::{Deed, Rows};
use forged_stores::Stored;

/// A file of 32 zero bytes is stored over four providers, of which the first has a file's own bytes.
const ZEROS: Deed = Done("put a", &[0; 32], b"stored a 32\n");

/// A row wants three of the four providers. Three that add the same symbol are two more than are borne, and
/// give two symbols 1.
const GETS: &[Rows] = &[
    Rows::Lied(
        [0, 0, 0, 0],
        &[
            FOUR,
            ZEROS,
            Known(Stored::FourZeros),
            Done("get a", b"", &[0; 32]),
        ],
    ),
    Rows::Lied(
        [0, 0, 0, 1],
        &[
            FOUR,
            ZEROS,
            Known(Stored::FourZeros),
            Done("get a", b"", &[0; 32]),
        ],
    ),
    Rows::Lied(
        [1, 0, 0, 0],
        &[
            FOUR,
            ZEROS,
            Known(Stored::FourZeros),
            Done("get a", b"", &[0; 32]),
        ],
    ),
    Rows::Lied(
        [0, 1, 1, 0],
        &[
            FOUR,
            ZEROS,
            Known(Stored::FourZeros),
            Refused("get a", b"", 4, 0),
        ],
    ),
];

/// All holds of which `other_bytes_are_a_forgery` speaks: what this get heard is a forgery against the file.
const FORGERY: &[Rows] = &[Rows::Lied(
    [0, 1, 1, 1],
    &[
        FOUR,
        ZEROS,
        Known(Stored::FourZeros),
        Done(
            "get a",
            b"",
            b"\x01\0\0\0\0\0\0\0\0\0\0\0\0\0\0\0\x01\0\0\0\0\0\0\0\0\0\0\0\0\0\0\0",
        ),
        WroteOther(Stored::FourZeros),
    ],
)];

#[test]
fn a_get_gives_what_three_of_four_agree_on(rt: HostRuntime) {
    check(&rt, GETS);
}

#[test]
fn three_that_lie_alike_make_a_forgery(rt: HostRuntime) {
    check(&rt, FORGERY);
}

/// The liar is flagged, its block is written anew, and it lies on.
const ONE: &[Rows] = &[Rows::Lied(
    [0, 0, 0, 1],
    &[
        FOUR,
        ZEROS,
        Done(
            "audit",
            b"",
            b"audit 1 undecided 0\nprovider 0 count 0 ok\nprovider 1 count 0 ok\nprovider 2 count 0 ok\nprovider 3 count 1 flagged\n",
        ),
        Done("repair", b"", b"repaired 1\n"),
        Done("get a", b"", &[0; 32]),
        Done(
            "audit",
            b"",
            b"audit 2 undecided 0\nprovider 0 count 0 ok\nprovider 1 count 0 ok\nprovider 2 count 0 ok\nprovider 3 count 1 flagged\n",
        ),
    ],
)];

#[test]
fn one_liar_is_flagged_each_time(rt: HostRuntime) {
    check(&rt, ONE);
}

/// Two answers of each kind: none of them is that of three.
const TWO: &[Rows] = &[Rows::Lied(
    [0, 1, 1, 0],
    &[
        FOUR,
        ZEROS,
        Done(
            "audit",
            b"",
            b"audit 1 undecided 1\nprovider 0 count 0 ok\nprovider 1 count 0 ok\nprovider 2 count 0 ok\nprovider 3 count 0 ok\n",
        ),
        Refused("repair", b"", 7, 0),
    ],
)];

#[test]
fn a_round_with_two_liars_is_undecided(rt: HostRuntime) {
    check(&rt, TWO);
}

/// Three of four answer 1, and it is the one honest provider that differs. The repair gives it a block of
/// symbols 1, whose answer is the weight of the pick and not 1.
const THREE: &[Rows] = &[Rows::Lied(
    [0, 1, 1, 1],
    &[
        FOUR,
        ZEROS,
        Done(
            "audit",
            b"",
            b"audit 1 undecided 0\nprovider 0 count 1 flagged\nprovider 1 count 0 ok\nprovider 2 count 0 ok\nprovider 3 count 0 ok\n",
        ),
        Done("repair", b"", b"repaired 1\n"),
        Done(
            "audit",
            b"",
            b"audit 2 undecided 0\nprovider 0 count 1 flagged\nprovider 1 count 0 ok\nprovider 2 count 0 ok\nprovider 3 count 0 ok\n",
        ),
    ],
)];

#[test]
fn three_that_lie_alike_are_believed(rt: HostRuntime) {
    check(&rt, THREE);
}

/// Schedules over liars: with one of four the get is right and the audit counts it; with two that differ from
/// two the get is lost and the round undecided; with three that lie alike the get gives other bytes, which are
/// a forgery, and the audit counts the honest one.
const REPLAYED: &[Rows] = &[
    Rows::Lied(
        [0, 0, 0, 1],
        &[
            FOUR,
            Done(
                "replay",
                LIED_TO,
                b"opened\njob 1\nput\njob 2\ngot 0000\njob 3\naudited 1 undecided 0 counts 0 0 0 1\njob 4\nrepaired 1\njob 5\ngot 0000\n",
            ),
            Heard(&[4, 4, 4]),
        ],
    ),
    Rows::Lied(
        [0, 1, 1, 0],
        &[
            FOUR,
            Done(
                "replay",
                LIED_TO,
                b"opened\njob 1\nput\njob 2\nlost 0 0\njob 3\naudited 1 undecided 1 counts 0 0 0 0\nrefused NothingDue\nrefused NoSuchJob\njob 4\nrefused NoSuchJob\n",
            ),
            Heard(&[4, 4]),
        ],
    ),
    Rows::Lied(
        [0, 1, 1, 1],
        &[
            FOUR,
            Done(
                "replay",
                LIED_TO,
                b"opened\njob 1\nput\njob 2\ngot 0100\njob 3\naudited 1 undecided 0 counts 1 0 0 0\njob 4\nrepaired 1\njob 5\ngot 0100\n",
            ),
            Heard(&[4, 4, 4]),
        ],
    ),
];

/// A put, a get, an audit, a repair and a get again, of two zero bytes.
const LIED_TO: &[u8] =
    b"reopen\nbegin put a 0000\nrun 1\nbegin get a\nrun 2\nbegin audit\nrun 3\nbegin repair\nrun 4\nbegin get a\nrun 5\n";

#[test]
fn a_schedule_over_liars_tells_what_they_make_of_it(rt: HostRuntime) {
    check(&rt, REPLAYED);
}
