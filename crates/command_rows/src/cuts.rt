use command_fixtures::KEY;
use folder_fixtures::{Case, Form, Row, Shown, first_wrong_cut};
use std::alloc::AllocGlobal;
use std::process::Abort;

/// Four providers are set up, of which one has a file's own bytes, in blocks of six symbols.
const INIT: Row = Row {
    line: "init 4 1 1 0 1 1 0",
    input: KEY,
    status: 0,
    text: b"ready\n",
};

/// The first file is stored, as the object 1.
const PUT: Row = Row {
    line: "put a",
    input: b"abc",
    status: 0,
    text: b"stored a 3\n",
};

/// It is listed alone.
const LISTED: Row = Row {
    line: "list",
    input: b"",
    status: 0,
    text: b"a 3\n",
};

/// It is given.
const GOT: Row = Row {
    line: "get a",
    input: b"",
    status: 0,
    text: b"abc",
};

/// No file is listed.
const EMPTY: Row = Row {
    line: "list",
    input: b"",
    status: 0,
    text: b"",
};

/// A second file is stored, as the object 2.
const PUT_OTHER: Row = Row {
    line: "put b",
    input: b"other",
    status: 0,
    text: b"stored b 5\n",
};

/// A repair that is due is done.
const REPAIRED: Row = Row {
    line: "repair",
    input: b"",
    status: 0,
    text: b"repaired 1\n",
};

/// No repair is due.
const NOTHING_DUE: Row = Row {
    line: "repair",
    input: b"",
    status: 7,
    text: b"",
};

/// No store is set up.
const NOT_SET_UP: Row = Row {
    line: "list",
    input: b"",
    status: 9,
    text: b"",
};

/// The journal's second version is brought into effect.
const UPGRADE: Row = Row {
    line: "upgrade",
    input: b"",
    status: 0,
    text: b"upgraded\n",
};

/// It is in effect.
const NEW_VERSION: Row = Row {
    line: "upgrade",
    input: b"",
    status: 24,
    text: b"",
};

/// The blocks of the first file.
const FIRST_BLOCKS: &[&str] = &[
    "home/provider-0/1-0",
    "home/provider-1/1-0",
    "home/provider-2/1-0",
    "home/provider-3/1-0",
];

/// What a home shows that holds the first file alone.
const FIRST: Shown = Shown {
    rows: &[LISTED, GOT],
    blocks: FIRST_BLOCKS,
};

/// Ends the test where a case goes otherwise over folders of either form: it tells behind how many calls the
/// power was cut, and which of the cuts that was.
fn check(rt: &(impl Abort + AllocGlobal), case: &Case) {
    assert_eq!(rt; first_wrong_cut(rt.alloc(), case, Form::Plain), None);
    assert_eq!(rt; first_wrong_cut(rt.alloc(), case, Form::Stacked), None);
}

/// A set up.
const SET_UP: &Case = &Case {
    before: &[],
    lost: None,
    row: INIT,
    without: Shown {
        rows: &[NOT_SET_UP, INIT],
        blocks: &[],
    },
    with: Shown {
        rows: &[EMPTY],
        blocks: &[],
    },
};

#[test]
fn a_set_up_is_whole_or_not_there(rt: HostRuntime) {
    check(&rt, SET_UP);
}

/// A first put.
const FIRST_PUT: &Case = &Case {
    before: &[INIT],
    lost: None,
    row: PUT,
    without: Shown {
        rows: &[EMPTY],
        blocks: &[],
    },
    with: FIRST,
};

#[test]
fn a_put_is_whole_or_not_there(rt: HostRuntime) {
    check(&rt, FIRST_PUT);
}

/// A put over a name.
const PUT_OVER: &Case = &Case {
    before: &[INIT, PUT],
    lost: None,
    row: Row {
        line: "put a",
        input: b"other",
        status: 0,
        text: b"stored a 5\n",
    },
    without: FIRST,
    with: Shown {
        rows: &[
            Row {
                line: "list",
                input: b"",
                status: 0,
                text: b"a 5\n",
            },
            Row {
                line: "get a",
                input: b"",
                status: 0,
                text: b"other",
            },
        ],
        blocks: &[
            "home/provider-0/2-0",
            "home/provider-1/2-0",
            "home/provider-2/2-0",
            "home/provider-3/2-0",
        ],
    },
};

#[test]
fn a_put_over_a_name_leaves_one_of_two_files(rt: HostRuntime) {
    check(&rt, PUT_OVER);
}

/// A drop.
const DROP: &Case = &Case {
    before: &[INIT, PUT, PUT_OTHER],
    lost: None,
    row: Row {
        line: "drop b",
        input: b"",
        status: 0,
        text: b"dropped b\n",
    },
    without: Shown {
        rows: &[
            Row {
                line: "list",
                input: b"",
                status: 0,
                text: b"a 3\nb 5\n",
            },
            Row {
                line: "get b",
                input: b"",
                status: 0,
                text: b"other",
            },
        ],
        blocks: FIRST_BLOCKS,
    },
    with: FIRST,
};

#[test]
fn a_drop_takes_its_file_alone(rt: HostRuntime) {
    check(&rt, DROP);
}

/// The repair of a block that an audit found lost.
const REPAIR: &Case = &Case {
    before: &[INIT, PUT],
    lost: Some((
        "home/provider-2/1-0",
        Row {
            line: "audit",
            input: b"",
            status: 0,
            text: b"audit 1 undecided 0\nprovider 0 count 0 ok\nprovider 1 count 0 ok\nprovider 2 count 1 flagged\nprovider 3 count 0 ok\n",
        },
    )),
    row: REPAIRED,
    without: Shown {
        rows: &[LISTED, GOT, REPAIRED],
        blocks: FIRST_BLOCKS,
    },
    with: Shown {
        rows: &[LISTED, GOT, NOTHING_DUE],
        blocks: FIRST_BLOCKS,
    },
};

#[test]
fn a_repair_is_done_or_still_due(rt: HostRuntime) {
    check(&rt, REPAIR);
}

/// A scrub that finds the block of the provider 2 lost.
const SCRUBBED: Row = Row {
    line: "scrub",
    input: b"",
    status: 0,
    text: b"scrub stripes 1\nprovider 0 symbols 0 blocks 0\nprovider 1 symbols 0 blocks 0\nprovider 2 symbols 6 blocks 1\nprovider 3 symbols 0 blocks 0\n",
};

/// A scrub behind it.
const FOUND_RIGHT: Row = Row {
    line: "scrub",
    input: b"",
    status: 0,
    text: b"scrub stripes 1\nprovider 0 symbols 0 blocks 0\nprovider 1 symbols 0 blocks 0\nprovider 2 symbols 0 blocks 0\nprovider 3 symbols 0 blocks 0\n",
};

/// The scrub of a store of which a block is lost, as an audit says.
const SCRUB: &Case = &Case {
    before: &[INIT, PUT],
    lost: Some((
        "home/provider-2/1-0",
        Row {
            line: "audit",
            input: b"",
            status: 0,
            text: b"audit 1 undecided 0\nprovider 0 count 0 ok\nprovider 1 count 0 ok\nprovider 2 count 1 flagged\nprovider 3 count 0 ok\n",
        },
    )),
    row: SCRUBBED,
    without: Shown {
        rows: &[LISTED, GOT, SCRUBBED, FOUND_RIGHT],
        blocks: FIRST_BLOCKS,
    },
    with: Shown {
        rows: &[LISTED, GOT, FOUND_RIGHT],
        blocks: FIRST_BLOCKS,
    },
};

#[test]
fn a_block_that_a_scrub_tells_of_is_firm(rt: HostRuntime) {
    check(&rt, SCRUB);
}

/// An upgrade.
const UPGRADED: &Case = &Case {
    before: &[INIT, PUT],
    lost: None,
    row: UPGRADE,
    without: Shown {
        rows: &[LISTED, GOT, UPGRADE],
        blocks: FIRST_BLOCKS,
    },
    with: Shown {
        rows: &[LISTED, GOT, NEW_VERSION],
        blocks: FIRST_BLOCKS,
    },
};

#[test]
fn an_upgrade_is_done_or_not(rt: HostRuntime) {
    check(&rt, UPGRADED);
}

/// A pack of the upgraded store, from the first area of the journal into the second, and the next, from there
/// back.
const PACK: Row = Row {
    line: "pack",
    input: b"",
    status: 0,
    text: b"packed 80 81\n",
};

const PACK_BACK: Row = Row {
    line: "pack",
    input: b"",
    status: 0,
    text: b"packed 81 89\n",
};

/// A pack.
const PACKED: &Case = &Case {
    before: &[INIT, PUT, UPGRADE],
    lost: None,
    row: PACK,
    without: Shown {
        rows: &[GOT, PACK],
        blocks: FIRST_BLOCKS,
    },
    with: Shown {
        rows: &[GOT, PACK_BACK],
        blocks: FIRST_BLOCKS,
    },
};

#[test]
fn a_pack_is_done_or_not(rt: HostRuntime) {
    check(&rt, PACKED);
}

/// A put behind it that names a profile.
const OWN_PROFILE: &Case = &Case {
    before: &[INIT, UPGRADE],
    lost: None,
    row: Row {
        line: "put a 2",
        input: b"abc",
        status: 0,
        text: b"stored a 3\n",
    },
    without: Shown {
        rows: &[EMPTY, NEW_VERSION],
        blocks: &[],
    },
    with: FIRST,
};

#[test]
fn a_put_with_a_profile_is_whole_or_not_there(rt: HostRuntime) {
    check(&rt, OWN_PROFILE);
}
