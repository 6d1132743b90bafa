use crate::check::check;
use crate::setups::FOUR;
use command_fixtures::Deed::{DiskFails, DiskHas, Done, Heard, OverSink, Providers, Refused};
use command_fixtures::{Rows, Schedules};

/// A file is put, and then put anew: so many steps of the second put, a stop, and a get.
const STOPPED_PUTS: &[Rows] = &[Rows::Replayed(Schedules {
    before: &[FOUR],
    front: "reopen\nbegin put a 6f6c64\nrun 1\nbegin put a 6e6577\n",
    told_front: "opened\njob 1\nput\njob 2\n",
    step: "step 2\n",
    rests: &[
        (
            10,
            "stop -\nreopen\nbegin get a\nrun 3\n",
            "stopped\nopened\njob 3\ngot 6f6c64\n",
        ),
        (
            11,
            "stop 07\nreopen\nbegin get a\nrun 3\n",
            "stopped\nopened\njob 3\ngot 6f6c64\n",
        ),
        (
            11,
            "stop 01\nreopen\nbegin get a\nrun 3\n",
            "stopped\nopened\njob 3\ngot 6e6577\n",
        ),
        (
            11,
            "stop -\nreopen\nbegin get a\nrun 3",
            "stopped\nopened\njob 3\ngot 6e6577\n",
        ),
    ],
})];

#[test]
fn a_stopped_put_leaves_the_old_file_or_the_new(rt: HostRuntime) {
    check(&rt, STOPPED_PUTS);
}

/// Schedules with each event.
const LINES: &[Rows] = &[
    Rows::Deeds(&[FOUR, Done("replay", b"", b"")]),
    Rows::Deeds(&[
        FOUR,
        Done(
            "replay",
            b"reopen\nbegin put a 00\nbegin get a\nrun 1\nstep 1\nlist\nbegin drop a\nrun 2\nlist\n",
            b"opened\njob 1\nrefused NoSuchName\nput\nrefused NoSuchJob\nnames 1\na 1\njob 2\ndropped\nnames 0\n",
        ),
    ]),
    Rows::Deeds(&[
        FOUR,
        Done(
            "replay",
            b"list\nstep 1\nrun 1\nbegin audit\n# nothing\n\nreopen\nalter 0 1 0 0 5\nlose 99 1 0\nstep 1\nbegin repair\nstop -\nlist\n",
            b"closed\nclosed\nclosed\nclosed\nopened\nnothing held\nnothing held\nrefused NoSuchJob\nrefused NothingDue\nstopped\nclosed\n",
        ),
    ]),
    Rows::Deeds(&[
        FOUR,
        Done(
            "replay",
            b"reopen\nbegin put a 6f6c64\nbegin put b 00\nstep 1\nstep 2\nstep 1\nstep 1\nstep 1\nrun 2\nrun 1\nlist\nlose 0 1 0\n",
            b"opened\njob 1\njob 2\nmore\nwaiting 1\nmore\nmore\nmore\nput\nput\nnames 2\na 3\nb 1\nreplaced\n",
        ),
    ]),
    Rows::Deeds(&[
        FOUR,
        Done(
            "replay",
            b"reopen\nbegin put a 6f6c64\nrun 1\nbegin get a\nbegin put a 6e6577\nrun 3\nrun 2\nbegin get a\nrun 4\nlose 0 1 0\nlose 1 1 0\nlose 2 1 0\nlose 3 1 0\n",
            b"opened\njob 1\nput\njob 2\njob 3\nput\ngot 6f6c64\njob 4\ngot 6e6577\nreplaced\nreplaced\nreplaced\nreplaced\n",
        ),
    ]),
    Rows::Deeds(&[
        FOUR,
        Done(
            "replay",
            b"reopen\nbegin put a 00\nbegin audit\n",
            b"opened\njob 1\nrefused Busy\n",
        ),
    ]),
    Rows::Deeds(&[
        FOUR,
        Done(
            "replay",
            b"reopen\nbegin put a -\nrun 1\nbegin get a\nrun 2\nbegin audit\nrun 3\n",
            b"opened\njob 1\nput\njob 2\ngot -\njob 3\naudited 1 undecided 0 counts 0 0 0 0\n",
        ),
    ]),
];

#[test]
fn lines_are_those_of_the_events(rt: HostRuntime) {
    check(&rt, LINES);
}

/// Nine gets beside one another.
const CROWDED: &[Rows] = &[Rows::Deeds(&[
    FOUR,
    Done(
        "replay",
        b"reopen\nbegin put a 00\nrun 1\nbegin get a\nbegin get a\nbegin get a\nbegin get a\nbegin get a\nbegin get a\nbegin get a\nbegin get a\nbegin get a\nrun 9\nbegin get a\nrun 2\n",
        b"opened\njob 1\nput\njob 2\njob 3\njob 4\njob 5\njob 6\njob 7\njob 8\njob 9\nrefused Busy\ngot 00\njob 10\ngot 00\n",
    ),
])];

#[test]
fn eight_jobs_run_and_a_ninth_is_busy(rt: HostRuntime) {
    check(&rt, CROWDED);
}

/// Two drops beside one another.
const TWO_DROPS: &[Rows] = &[Rows::Deeds(&[
    FOUR,
    Done(
        "replay",
        b"reopen\nbegin put a 00\nrun 1\nbegin drop a\nbegin drop a\nrun 2\nrun 3\n",
        b"opened\njob 1\nput\njob 2\njob 3\ndropped\ndropped\n",
    ),
    DiskHas(81),
])];

#[test]
fn two_drops_of_a_name_write_one_record(rt: HostRuntime) {
    check(&rt, TWO_DROPS);
}

/// Nothing is in effect; the object that is lost first is the one that the next put makes.
const NOT_KEPT: &str = "stopped\nopened\nnames 0\njob 2\nput\nreplaced\nnothing held\n";

/// The file is in effect; the object that is lost first is the one that the next put makes.
const KEPT: &str = "stopped\nopened\nnames 1\na 3\njob 2\nput\nreplaced\nnothing held\n";

/// A put is stopped after so many steps; what is listed then, and which object the next put makes.
const STOPS: &[Rows] = &[Rows::Replayed(Schedules {
    before: &[FOUR],
    front: "reopen\nbegin put a 6f6c64\n",
    told_front: "opened\njob 1\n",
    step: "step 1\n",
    rests: &[
        (
            1,
            "stop 010101010101010101010101\nreopen\nlist\nbegin put c 00\nrun 2\nlose 0 1 0\nlose 0 2 0\n",
            NOT_KEPT,
        ),
        (
            3,
            "stop 00\nreopen\nlist\nbegin put c 00\nrun 2\nlose 0 1 0\nlose 0 2 0\n",
            NOT_KEPT,
        ),
        (
            3,
            "stop 01\nreopen\nlist\nbegin put c 00\nrun 2\nlose 0 2 0\nlose 0 1 0\n",
            NOT_KEPT,
        ),
        (
            3,
            "stop -\nreopen\nlist\nbegin put c 00\nrun 2\nlose 0 2 0\nlose 0 1 0\n",
            NOT_KEPT,
        ),
        (
            9,
            "stop ffffffffffffffffffffffffffff\nreopen\nlist\nbegin put c 00\nrun 2\nlose 0 2 0\nlose 0 3 0\n",
            NOT_KEPT,
        ),
        (
            11,
            "stop 00\nreopen\nlist\nbegin put c 00\nrun 2\nlose 0 2 0\nlose 0 3 0\n",
            NOT_KEPT,
        ),
        (
            11,
            "stop 01\nreopen\nlist\nbegin put c 00\nrun 2\nlose 0 2 0\nlose 0 3 0\n",
            KEPT,
        ),
        (
            11,
            "stop -\nreopen\nlist\nbegin put c 00\nrun 2\nlose 0 2 0\nlose 0 3 0\n",
            KEPT,
        ),
        (
            12,
            "stop 00\nreopen\nlist\nbegin put c 00\nrun 2\nlose 0 2 0\nlose 0 3 0\n",
            KEPT,
        ),
    ],
})];

#[test]
fn stops_leave_what_the_loose_bytes_say(rt: HostRuntime) {
    check(&rt, STOPS);
}

/// Schedules with a bad line, of which nothing is done.
const BAD_LINES: &[Rows] = &[
    Rows::Deeds(&[
        FOUR,
        Refused("replay", b"reopen\nlist\nfly", 19, 3),
        Done("list", b"", b""),
    ]),
    Rows::Deeds(&[
        FOUR,
        Refused("replay", b"fly", 19, 1),
        Done("list", b"", b""),
    ]),
    Rows::Deeds(&[
        FOUR,
        Refused("replay", b"init 4 1 1 0 1 1 0 00\n", 19, 1),
        Done("list", b"", b""),
    ]),
    Rows::Deeds(&[
        FOUR,
        Refused("replay", b"reopen\n\n#\nstep -1\nlist\n", 19, 4),
        Done("list", b"", b""),
    ]),
];

#[test]
fn bad_lines_are_told_by_their_number(rt: HostRuntime) {
    check(&rt, BAD_LINES);
}

/// The front of schedules that set a store up, with two rounds of two picks.
const ANEW: &str =
    "begin get a\nreopen\ninit 4 1 1 0 2 2 0 000102030405060708090a0b0c0d0e0f101112131415161718191a1b1c1d1e1f\n";

/// Schedules that set a store up over four providers.
const FROM_NEW: &[Rows] = &[Rows::Replayed(Schedules {
    before: &[Providers(4)],
    front: ANEW,
    told_front: "closed\nrefused NotSetUp\nready\n",
    step: "",
    rests: &[
        (
            0,
            "init 4 1 1 0 2 2 0 000102030405060708090a0b0c0d0e0f101112131415161718191a1b1c1d1e1f\nreopen\nlist\ninit 4 1 1 0 2 2 0 000102030405060708090a0b0c0d0e0f101112131415161718191a1b1c1d1e1f\n",
            "refused Already\nopened\nnames 0\nrefused Already\n",
        ),
        (
            0,
            "reopen\nbegin put a 6861696c\nstep 1\nbegin put b 73746f6e65\nstep 2\nrun 1\nrun 2\nstep 2\nbegin audit\nstop -\nstep 3\nreopen\nstep 3\nbegin get a\nrun 4\nbegin drop a\nrun 5\nlist\n",
            "opened\njob 1\nmore\njob 2\nwaiting 1\nput\nput\nrefused NoSuchJob\njob 3\nstopped\nclosed\nopened\nrefused NoSuchJob\njob 4\ngot 6861696c\njob 5\ndropped\nnames 1\nb 5\n",
        ),
        (
            0,
            "reopen\nbegin put a 6861696c\nrun 1\nalter 2 1 0 0 5\nlose 2 1 0\nlose 2 1 0\nalter 2 1 0 0 5\nalter 4 1 0 0 5\nbegin repair\nbegin audit\nrun 2\nbegin repair\nrun 3\nlose 2 1 0\nbegin get a\nrun 4\n",
            "opened\njob 1\nput\nreplaced\nreplaced\nnothing held\nnothing held\nnothing held\nrefused NothingDue\njob 2\naudited 1 undecided 0 counts 0 0 2 0\njob 3\nrepaired 1\nreplaced\njob 4\ngot 6861696c\n",
        ),
    ],
})];

/// One that does so over three.
const TOO_FEW: &[Rows] = &[Rows::Replayed(Schedules {
    before: &[Providers(3)],
    front: ANEW,
    told_front: "closed\nrefused NotSetUp\nready\n",
    step: "",
    rests: &[(0, "reopen\nlist\n", "refused TooFewProviders\nclosed\n")],
})];

#[test]
fn a_store_is_set_up_and_opened_by_a_schedule(rt: HostRuntime) {
    check(&rt, FROM_NEW);
    check(&rt, TOO_FEW);
}

/// A schedule of nine events.
const NINE: &[u8] =
    b"reopen\nbegin put a 00\nbegin get a\nrun 1\nstep 1\nlist\nbegin drop a\nrun 2\nlist\n";

/// Each write of the sink fails in turn; the event whose line it was is done, and none behind it.
const CUT: &[Rows] = &[
    Rows::Deeds(&[
        FOUR,
        OverSink("replay", NINE, 0, 15, b""),
        Done("list", b"", b""),
    ]),
    Rows::Deeds(&[
        FOUR,
        OverSink("replay", NINE, 1, 15, b"opened\n"),
        Done("list", b"", b""),
    ]),
    Rows::Deeds(&[
        FOUR,
        OverSink("replay", NINE, 2, 15, b"opened\njob 1\n"),
        Done("list", b"", b""),
    ]),
    Rows::Deeds(&[
        FOUR,
        OverSink(
            "replay",
            NINE,
            3,
            15,
            b"opened\njob 1\nrefused NoSuchName\n",
        ),
        Done("list", b"", b"a 1\n"),
    ]),
    Rows::Deeds(&[
        FOUR,
        OverSink(
            "replay",
            NINE,
            4,
            15,
            b"opened\njob 1\nrefused NoSuchName\nput\n",
        ),
        Done("list", b"", b"a 1\n"),
    ]),
    Rows::Deeds(&[
        FOUR,
        OverSink(
            "replay",
            NINE,
            5,
            15,
            b"opened\njob 1\nrefused NoSuchName\nput\nrefused NoSuchJob\n",
        ),
        Done("list", b"", b"a 1\n"),
    ]),
    Rows::Deeds(&[
        FOUR,
        OverSink(
            "replay",
            NINE,
            6,
            15,
            b"opened\njob 1\nrefused NoSuchName\nput\nrefused NoSuchJob\nnames 1\na 1\n",
        ),
        Done("list", b"", b"a 1\n"),
    ]),
    Rows::Deeds(&[
        FOUR,
        OverSink(
            "replay",
            NINE,
            7,
            15,
            b"opened\njob 1\nrefused NoSuchName\nput\nrefused NoSuchJob\nnames 1\na 1\njob 2\n",
        ),
        Done("list", b"", b""),
    ]),
    Rows::Deeds(&[
        FOUR,
        OverSink(
            "replay",
            NINE,
            8,
            15,
            b"opened\njob 1\nrefused NoSuchName\nput\nrefused NoSuchJob\nnames 1\na 1\njob 2\ndropped\n",
        ),
        Done("list", b"", b""),
    ]),
];

#[test]
fn a_fault_of_the_sink_ends_the_replay(rt: HostRuntime) {
    check(&rt, CUT);
}

/// A get, an audit and a get, which hear four providers each.
const THREE_HEAR: &[Rows] = &[Rows::Deeds(&[
    FOUR,
    Done(
        "replay",
        b"reopen\nbegin put a 00\nrun 1\nbegin get a\nrun 2\nbegin audit\nrun 3\nstop -\nreopen\nbegin get a\nrun 4\n",
        b"opened\njob 1\nput\njob 2\ngot 00\njob 3\naudited 1 undecided 0 counts 0 0 0 0\nstopped\nopened\njob 4\ngot 00\n",
    ),
    Heard(&[4, 4, 4]),
])];

#[test]
fn what_jobs_heard_is_told_in_the_order_of_their_ends(rt: HostRuntime) {
    check(&rt, THREE_HEAR);
}

/// The twelfth call of the disk fails.
const REOPENED: &[Rows] = &[Rows::Deeds(&[
    Providers(4),
    DiskFails(&[11]),
    Done(
        "replay",
        b"init 4 1 1 0 2 2 0 000102030405060708090a0b0c0d0e0f101112131415161718191a1b1c1d1e1f\nreopen\nbegin put a 6861696c\nrun 1\nstep 1\nbegin get a\nreopen\nbegin put a 6861696c\nrun 2\n",
        b"ready\nopened\njob 1\ndisk fault\nrefused MustReopen\nrefused MustReopen\nopened\njob 2\nput\n",
    ),
])];

#[test]
fn a_vault_is_reopened_after_a_fault_of_the_disk(rt: HostRuntime) {
    check(&rt, REOPENED);
}
