use crate::check::check;
use crate::setups::{FOUR, NOTES, NOTES_JOURNAL, SIX, SIX_JOURNAL, STORED, THREE, UPGRADED};
use command_fixtures::Deed::{
    Alters, Blocks, DiskBecomes, DiskFails, DiskIs, Done, Heard, Holders, Holds, Keeps, Lacks,
    Loses, LosesOne, Mended, OverSink, Providers, Refused,
};
use command_fixtures::{Deed, Rows};

/// A scrub of one stripe at six providers that finds nothing.
const RIGHT: Deed = Done(
    "scrub",
    b"",
    b"scrub stripes 1\nprovider 0 symbols 0 blocks 0\nprovider 1 symbols 0 blocks 0\nprovider 2 symbols 0 blocks 0\nprovider 3 symbols 0 blocks 0\nprovider 4 symbols 0 blocks 0\nprovider 5 symbols 0 blocks 0\n",
);

/// The audit behind it.
const ALL_OK: Deed = Done(
    "audit",
    b"",
    b"audit 1 undecided 0\nprovider 0 count 0 ok\nprovider 1 count 0 ok\nprovider 2 count 0 ok\nprovider 3 count 0 ok\nprovider 4 count 0 ok\nprovider 5 count 0 ok\n",
);

/// A block is lost, and four places of another are altered.
const FOUND: &[Rows] = &[Rows::Deeds(&[
    SIX,
    STORED,
    Keeps,
    Alters(5, 0, 1 << 127),
    Alters(5, 1, 1 << 127),
    Alters(5, 2, 1 << 127),
    Alters(5, 3, 1 << 127),
    Loses(0),
    Done(
        "scrub",
        b"",
        b"scrub stripes 1\nprovider 0 symbols 16 blocks 1\nprovider 1 symbols 0 blocks 0\nprovider 2 symbols 0 blocks 0\nprovider 3 symbols 0 blocks 0\nprovider 4 symbols 0 blocks 0\nprovider 5 symbols 4 blocks 1\n",
    ),
    Heard(&[]),
    Mended,
    DiskIs(NOTES_JOURNAL),
    RIGHT,
    ALL_OK,
    Done("get notes.txt", b"", NOTES),
])];

#[test]
fn what_differs_is_counted_and_mended(rt: HostRuntime) {
    check(&rt, FOUND);
}

/// No file is in effect; nor is one behind its drop.
const NONE: Deed = Done(
    "scrub",
    b"",
    b"scrub stripes 0\nprovider 0 symbols 0 blocks 0\nprovider 1 symbols 0 blocks 0\nprovider 2 symbols 0 blocks 0\nprovider 3 symbols 0 blocks 0\nprovider 4 symbols 0 blocks 0\nprovider 5 symbols 0 blocks 0\n",
);

/// A scrub over no file, and over one that has no bytes.
const EMPTY: &[Rows] = &[Rows::Deeds(&[
    SIX,
    NONE,
    DiskIs(SIX_JOURNAL),
    Done("put none", b"", b"stored none 0\n"),
    NONE,
    STORED,
    RIGHT,
    Done("drop notes.txt", b"", b"dropped notes.txt\n"),
    NONE,
])];

#[test]
fn a_scrub_over_no_bytes_finds_nothing(rt: HostRuntime) {
    check(&rt, EMPTY);
}

/// Two blocks are lost: nothing is stored.
const LOST: &[Rows] = &[Rows::Deeds(&[
    SIX,
    STORED,
    Loses(0),
    Loses(1),
    Refused("scrub", b"new", 4, 0),
    Heard(&[]),
    Lacks(0, 1),
    Lacks(1, 1),
    Holders(4),
    DiskIs(NOTES_JOURNAL),
])];

#[test]
fn a_lost_row_ends_a_scrub(rt: HostRuntime) {
    check(&rt, LOST);
}

/// What a scrub writes that found the lost block of the provider 2 of four.
const SECOND_FOUND: &[u8] =
    b"scrub stripes 1\nprovider 0 symbols 0 blocks 0\nprovider 1 symbols 0 blocks 0\nprovider 2 symbols 6 blocks 1\nprovider 3 symbols 0 blocks 0\n";

/// The calls of the provider are the store of the put, and the fetch and the store of the scrub. A failed
/// fetch is an absent block.
const FAILING: &[Rows] = &[
    Rows::Failing(
        2,
        &[
            FOUR,
            THREE,
            Keeps,
            Loses(2),
            Refused("scrub", b"", 13, 2),
            Lacks(2, 1),
            Done("scrub", b"", SECOND_FOUND),
            Mended,
        ],
    ),
    Rows::Failing(
        1,
        &[FOUR, THREE, Keeps, Done("scrub", b"", SECOND_FOUND), Mended],
    ),
];

#[test]
fn a_scrub_whose_store_fails_is_made_again(rt: HostRuntime) {
    check(&rt, FAILING);
}

/// The sink fails; the block is mended all the same.
const SINK: &[Rows] = &[Rows::Deeds(&[
    FOUR,
    THREE,
    Keeps,
    Loses(2),
    OverSink("scrub", b"new", 0, 15, b""),
    Mended,
    Loses(2),
    Done("scrub", b"", SECOND_FOUND),
    Mended,
])];

#[test]
fn a_sink_that_fails_leaves_what_a_scrub_mended(rt: HostRuntime) {
    check(&rt, SINK);
}

/// A file with the profile of the setup, and one with a profile of its own.
const PROFILES: &[Rows] = &[Rows::Deeds(&[
    SIX,
    STORED,
    UPGRADED,
    Done("put other 2", b"hail", b"stored other 4\n"),
    Keeps,
    LosesOne(0),
    LosesOne(0),
    Alters(5, 7, 1),
    Lacks(0, 2),
    Done(
        "scrub",
        b"",
        b"scrub stripes 2\nprovider 0 symbols 48 blocks 2\nprovider 1 symbols 0 blocks 0\nprovider 2 symbols 0 blocks 0\nprovider 3 symbols 0 blocks 0\nprovider 4 symbols 0 blocks 0\nprovider 5 symbols 1 blocks 1\n",
    ),
    Mended,
    Holds(0, 2),
    Blocks(6, 1, 1, 16),
    Blocks(6, 2, 1, 32),
    ALL_OK,
    Done("get notes.txt", b"", NOTES),
    Done("get other", b"", b"hail"),
])];

#[test]
fn each_file_is_scrubbed_by_its_own_profile(rt: HostRuntime) {
    check(&rt, PROFILES);
}

/// Why a scrub is refused, in order; it reads no source.
const REFUSED: &[Rows] = &[
    Rows::Deeds(&[
        Refused("scrub", b"new", 9, 0),
        SIX,
        STORED,
        Refused("scrub all", b"new", 2, 0),
        DiskFails(&[0]),
        Refused("scrub", b"new", 12, 0),
        RIGHT,
        Providers(5),
        Refused("scrub", b"new", 22, 0),
        DiskIs(NOTES_JOURNAL),
    ]),
    Rows::Deeds(&[
        DiskBecomes(b"HAILJRN1\x01\x07\0"),
        Refused("scrub", b"new", 8, 9),
    ]),
];

#[test]
fn a_scrub_is_refused_as_a_list_is(rt: HostRuntime) {
    check(&rt, REFUSED);
}

/// Providers that do not tell what they hold.
const UNTOLD: &[Rows] = &[Rows::Untold(&[
    SIX,
    STORED,
    Keeps,
    Loses(0),
    Done(
        "scrub",
        b"",
        b"scrub stripes 1\nprovider 0 symbols 16 blocks 1\nprovider 1 symbols 0 blocks 0\nprovider 2 symbols 0 blocks 0\nprovider 3 symbols 0 blocks 0\nprovider 4 symbols 0 blocks 0\nprovider 5 symbols 0 blocks 0\n",
    ),
    Mended,
    RIGHT,
])];

#[test]
fn untold_providers_are_scrubbed_alike(rt: HostRuntime) {
    check(&rt, UNTOLD);
}

/// A schedule with a scrub beside which nothing begins.
const REPLAYED: &[Rows] = &[Rows::Deeds(&[
    SIX,
    Done(
        "replay",
        b"reopen\nbegin put a 6861696c\nrun 1\nlose 2 1 0\nbegin scrub\nbegin get a\nrun 2\nbegin get a\nrun 3\n",
        b"opened\njob 1\nput\nreplaced\njob 2\nrefused Busy\nscrubbed 1 symbols 0 0 16 0 0 0\njob 3\ngot 6861696c\n",
    ),
    Heard(&[6]),
    RIGHT,
])];

#[test]
fn a_scrub_of_a_schedule_runs_alone(rt: HostRuntime) {
    check(&rt, REPLAYED);
}
