use crate::check::check;
use crate::setups::{FOUR, THREE, UPGRADED};
use command_fixtures::Deed::{Done, Holds, Lacks, Refused};
use command_fixtures::{Case, KEY, Rows};

/// Setting up syncs, asks the length, writes the empty journal and syncs, and appends one record in four
/// calls.
const SET_UP: &[Rows] = &[Rows::Cut(Case {
    before: &[],
    line: "init 4 1 1 0 1 1 0",
    input: KEY,
    text: b"ready\n",
    calls: 8,
    stands: 7,
    without: &[Refused("list", b"", 9, 0), FOUR],
    with: &[
        Refused("init 4 1 1 0 1 1 0", KEY, 10, 0),
        Done("list", b"", b""),
    ],
})];

#[test]
fn a_set_up_stands_from_its_last_sync_on(rt: HostRuntime) {
    check(&rt, SET_UP);
}

/// Opening makes the calls 0 to 2, and each of the two records four; the last one opens the gate of the
/// second record at 9.
const PUT: &[Rows] = &[Rows::Cut(Case {
    before: &[FOUR],
    line: "put a",
    input: b"abc",
    text: b"stored a 3\n",
    calls: 11,
    stands: 10,
    without: &[Refused("get a", b"", 3, 0), Done("list", b"", b"")],
    with: &[Done("get a", b"", b"abc"), Done("list", b"", b"a 3\n")],
})];

#[test]
fn a_put_stands_from_its_last_sync_on(rt: HostRuntime) {
    check(&rt, PUT);
}

/// The first record of a put, which draws its number, stands from the call 6 on; the next put then takes the
/// number 2.
const NUMBER: &[Rows] = &[Rows::Cut(Case {
    before: &[FOUR],
    line: "put a",
    input: b"abc",
    text: b"stored a 3\n",
    calls: 11,
    stands: 6,
    without: &[THREE, Lacks(0, 2), Lacks(0, 3)],
    with: &[THREE, Holds(0, 2), Lacks(0, 3)],
})];

#[test]
fn a_put_cut_off_uses_its_number_once_it_is_begun(rt: HostRuntime) {
    check(&rt, NUMBER);
}

/// A put over a name.
const REPLACED: &[Rows] = &[Rows::Cut(Case {
    before: &[FOUR, THREE],
    line: "put a",
    input: b"other",
    text: b"stored a 5\n",
    calls: 11,
    stands: 10,
    without: &[Done("get a", b"", b"abc")],
    with: &[Done("get a", b"", b"other")],
})];

#[test]
fn a_file_stands_until_the_put_of_another_does(rt: HostRuntime) {
    check(&rt, REPLACED);
}

/// A drop.
const DROPPED: &[Rows] = &[Rows::Cut(Case {
    before: &[FOUR, THREE],
    line: "drop a",
    input: b"",
    text: b"dropped a\n",
    calls: 7,
    stands: 6,
    without: &[Done("get a", b"", b"abc")],
    with: &[Refused("get a", b"", 3, 0)],
})];

#[test]
fn a_drop_stands_from_its_last_sync_on(rt: HostRuntime) {
    check(&rt, DROPPED);
}

/// An upgrade, and a put behind it that names a profile.
const UPGRADES: &[Rows] = &[
    Rows::Cut(Case {
        before: &[FOUR, THREE],
        line: "upgrade",
        input: b"",
        text: b"upgraded\n",
        calls: 7,
        stands: 6,
        without: &[
            Refused("put b 0", b"abc", 23, 0),
            UPGRADED,
            Done("get a", b"", b"abc"),
        ],
        with: &[
            Refused("upgrade", b"", 24, 0),
            Done("put b 0", b"abc", b"stored b 3\n"),
            Done("get a", b"", b"abc"),
        ],
    }),
    Rows::Cut(Case {
        before: &[FOUR, UPGRADED],
        line: "put a 3",
        input: b"abc",
        text: b"stored a 3\n",
        calls: 11,
        stands: 10,
        without: &[Refused("get a", b"", 3, 0), Done("list", b"", b"")],
        with: &[Done("get a", b"", b"abc"), Done("list", b"", b"a 3\n")],
    }),
];

#[test]
fn an_upgrade_stands_from_its_last_sync_on(rt: HostRuntime) {
    check(&rt, UPGRADES);
}

/// A get.
const GOT: &[Rows] = &[Rows::Cut(Case {
    before: &[FOUR, THREE],
    line: "get a",
    input: b"",
    text: b"abc",
    calls: 3,
    stands: 0,
    without: &[],
    with: &[Done("get a", b"", b"abc"), Done("list", b"", b"a 3\n")],
})];

/// A list.
const LISTED: &[Rows] = &[Rows::Cut(Case {
    before: &[FOUR, THREE],
    line: "list",
    input: b"",
    text: b"a 3\n",
    calls: 3,
    stands: 0,
    without: &[],
    with: &[Done("get a", b"", b"abc"), Done("list", b"", b"a 3\n")],
})];

#[test]
fn a_get_and_a_list_call_the_disk_to_open_alone(rt: HostRuntime) {
    check(&rt, GOT);
    check(&rt, LISTED);
}
