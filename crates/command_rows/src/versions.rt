use crate::check::check;
use crate::setups::{NOTES, SIX, SIX_JOURNAL, STORED, UPGRADED};
use command_fixtures::Deed::{
    Blocks, DiskHas, DiskIs, Done, Heard, Holders, Holds, Keeps, LosesOne, Mended, OverSource,
    Providers, Refused,
};
use command_fixtures::{Rows, Schedules};

/// The journal of the set-up of six behind an upgrade.
const UPGRADED_JOURNAL: &[u8] =
    b"HAILJRN1\x01\x01\x06\x03\x01\x01\x04\x08\0\0\0\x01\x02\x03\x04\x05\x06\x07\x08\x09\x0a\x0b\x0c\x0d\x0e\x0f\x10\x11\x12\x13\x14\x15\x16\x17\x18\x19\x1a\x1b\x1c\x1d\x1e\x1f\x01\x09\x02\0";

/// An upgrade appends a record of two bytes. Before it no put may name a profile; behind it there is no
/// other.
const APPENDED: &[Rows] = &[Rows::Deeds(&[
    SIX,
    Refused("put x 0", b"new", 23, 0),
    Refused("put x 5", b"new", 20, 0),
    DiskIs(SIX_JOURNAL),
    UPGRADED,
    DiskIs(UPGRADED_JOURNAL),
    DiskHas(54),
    Refused("upgrade", b"new", 24, 0),
    Refused("put x 5", b"new", 20, 0),
    DiskIs(UPGRADED_JOURNAL),
    Done("list", b"", b""),
])];

#[test]
fn an_upgrade_appends_one_record(rt: HostRuntime) {
    check(&rt, APPENDED);
}

/// The words of the two commands, and the order of what they are refused for. A profile that there is none of
/// is told before the source is read, and any other refusal behind it.
const REFUSED: &[Rows] = &[Rows::Deeds(&[
    Refused("upgrade", b"new", 9, 0),
    Refused("put x 5", b"new", 9, 0),
    SIX,
    Refused("put x 256", b"new", 2, 0),
    Refused("put x 00", b"new", 2, 0),
    Refused("put x -", b"new", 2, 0),
    Refused("put x 0 0", b"new", 2, 0),
    Refused("upgrade 2", b"new", 2, 0),
    Refused("put x 255", b"new", 20, 0),
    Refused("put a/b 5", b"new", 20, 0),
    Refused("put a/b 0", b"new", 17, 0),
    OverSource("put x 5", 0, 20),
    OverSource("put x 0", 0, 14),
    DiskIs(SIX_JOURNAL),
    Providers(5),
    Refused("put x 5", b"new", 22, 0),
    Refused("upgrade", b"new", 22, 0),
])];

#[test]
fn profiles_and_upgrades_are_refused_in_their_order(rt: HostRuntime) {
    check(&rt, REFUSED);
}

/// The journal of a put behind an upgrade, with the profile 0.
const OWN_JOURNAL: &[u8] =
    b"HAILJRN1\x01\x01\x06\x03\x01\x01\x04\x08\0\0\0\x01\x02\x03\x04\x05\x06\x07\x08\x09\x0a\x0b\x0c\x0d\x0e\x0f\x10\x11\x12\x13\x14\x15\x16\x17\x18\x19\x1a\x1b\x1c\x1d\x1e\x1f\x01\x09\x02\x01\x02\x01\0\0\0\0\0\0\0\x09notes.txt\x01\x08\x01\0\0\0\0\0\0\0\x64\0\0\0\0\0";

/// A stripe of the profile 0 has 96 bytes of a file, and a block six symbols.
const OWN: &[Rows] = &[Rows::Deeds(&[
    SIX,
    UPGRADED,
    Done("put notes.txt 0", NOTES, b"stored notes.txt 100\n"),
    DiskIs(OWN_JOURNAL),
    DiskHas(89),
    Blocks(6, 1, 2, 6),
    Done("list", b"", b"notes.txt 100\n"),
    Done("get notes.txt", b"", NOTES),
    Heard(&[12]),
    Done("drop notes.txt", b"", b"dropped notes.txt\n"),
    Blocks(0, 1, 0, 0),
])];

#[test]
fn a_put_has_the_profile_that_it_names(rt: HostRuntime) {
    check(&rt, OWN);
}

/// The same with the profile of the setup, which is 1.
const PLAIN_JOURNAL: &[u8] =
    b"HAILJRN1\x01\x01\x06\x03\x01\x01\x04\x08\0\0\0\x01\x02\x03\x04\x05\x06\x07\x08\x09\x0a\x0b\x0c\x0d\x0e\x0f\x10\x11\x12\x13\x14\x15\x16\x17\x18\x19\x1a\x1b\x1c\x1d\x1e\x1f\x01\x09\x02\x01\x02\x01\0\0\0\0\0\0\0\x09notes.txt\x01\x08\x01\0\0\0\0\0\0\0\x64\0\0\0\x01\0";

/// A put that names none, and one that names this one.
const PLAIN: &[Rows] = &[
    Rows::Deeds(&[
        SIX,
        UPGRADED,
        STORED,
        DiskIs(PLAIN_JOURNAL),
        Blocks(6, 1, 1, 16),
        Done("get notes.txt", b"", NOTES),
    ]),
    Rows::Deeds(&[
        SIX,
        UPGRADED,
        Done("put notes.txt 1", NOTES, b"stored notes.txt 100\n"),
        DiskIs(PLAIN_JOURNAL),
        Blocks(6, 1, 1, 16),
        Done("get notes.txt", b"", NOTES),
    ]),
];

#[test]
fn a_put_that_names_no_profile_has_that_of_the_setup(rt: HostRuntime) {
    check(&rt, PLAIN);
}

/// A file of each profile.
const EACH: &[Rows] = &[Rows::Deeds(&[
    SIX,
    UPGRADED,
    Done("put a 0", NOTES, b"stored a 100\n"),
    Done("put b 1", NOTES, b"stored b 100\n"),
    Done("put c 2", NOTES, b"stored c 100\n"),
    Done("put d 3", NOTES, b"stored d 100\n"),
    Done("put e 4", NOTES, b"stored e 100\n"),
    Blocks(6, 1, 2, 6),
    Blocks(6, 2, 1, 16),
    Blocks(6, 3, 1, 32),
    Blocks(6, 4, 1, 64),
    Blocks(6, 5, 1, 128),
    Done("get a", b"", NOTES),
    Done("get b", b"", NOTES),
    Done("get c", b"", NOTES),
    Done("get d", b"", NOTES),
    Done("get e", b"", NOTES),
])];

#[test]
fn each_profile_may_be_named(rt: HostRuntime) {
    check(&rt, EACH);
}

/// An audit of six providers of which the one at 0 is flagged, with its count of the rounds of two files.
const FLAGGED: &[u8] =
    b"audit 1 undecided 0\nprovider 0 count 8 flagged\nprovider 1 count 0 ok\nprovider 2 count 0 ok\nprovider 3 count 0 ok\nprovider 4 count 0 ok\nprovider 5 count 0 ok\n";

/// The next one, which counts none.
const ALL_OK: &[u8] =
    b"audit 2 undecided 0\nprovider 0 count 0 ok\nprovider 1 count 0 ok\nprovider 2 count 0 ok\nprovider 3 count 0 ok\nprovider 4 count 0 ok\nprovider 5 count 0 ok\n";

/// A file of before the upgrade, and one behind it with a profile of its own; a provider loses the block of
/// both.
const KEPT: &[Rows] = &[Rows::Deeds(&[
    SIX,
    STORED,
    UPGRADED,
    Done("get notes.txt", b"", NOTES),
    Done("put other 2", b"hail", b"stored other 4\n"),
    Done("list", b"", b"notes.txt 100\nother 4\n"),
    Keeps,
    LosesOne(0),
    LosesOne(0),
    Done("get notes.txt", b"", NOTES),
    Done("get other", b"", b"hail"),
    Done("audit", b"", FLAGGED),
    Refused("upgrade", b"new", 24, 0),
    Done("repair", b"", b"repaired 1\n"),
    Mended,
    Blocks(6, 1, 1, 16),
    Blocks(6, 2, 1, 32),
    Done("audit", b"", ALL_OK),
    Done("get notes.txt", b"", NOTES),
    Done("get other", b"", b"hail"),
    Done("drop notes.txt", b"", b"dropped notes.txt\n"),
    Holders(0),
    Holds(0, 2),
    Done("list", b"", b"other 4\n"),
])];

#[test]
fn files_of_before_an_upgrade_live_on(rt: HostRuntime) {
    check(&rt, KEPT);
}

/// An upgrade runs alone, and what a put may name hangs on the version.
const LINES: &[Rows] = &[Rows::Deeds(&[
    SIX,
    Done(
        "replay",
        b"reopen\nbegin put a 6f6c64 0\nbegin put a 6f6c64 5\nbegin upgrade\nbegin get a\nbegin upgrade\nrun 1\nbegin upgrade\nbegin put a 6f6c64 0\nbegin upgrade\nrun 2\nbegin get a\nrun 3\nlist\n",
        b"opened\nrefused OldVersion\nrefused BadProfile\njob 1\nrefused Busy\nrefused Busy\nupgraded\nrefused NewVersion\njob 2\nrefused Busy\nput\njob 3\ngot 6f6c64\nnames 1\na 3\n",
    ),
    Blocks(6, 1, 1, 6),
])];

#[test]
fn an_upgrade_runs_alone(rt: HostRuntime) {
    check(&rt, LINES);
}

/// An upgrade is stopped after so many steps.
const STOPS: &[Rows] = &[Rows::Replayed(Schedules {
    before: &[SIX],
    front: "reopen\nbegin put a 6f6c64\nrun 1\nbegin upgrade\n",
    told_front: "opened\njob 1\nput\njob 2\n",
    step: "step 2\n",
    rests: &[
        (
            2,
            "stop -\nreopen\nbegin put b 00 0\nbegin get a\nrun 3\n",
            "stopped\nopened\nrefused OldVersion\njob 3\ngot 6f6c64\n",
        ),
        (
            3,
            "stop 00\nreopen\nbegin put b 00 0\nbegin get a\nrun 3\n",
            "stopped\nopened\nrefused OldVersion\njob 3\ngot 6f6c64\n",
        ),
        (
            3,
            "stop 01\nreopen\nbegin upgrade\nbegin get a\nrun 3\n",
            "stopped\nopened\nrefused NewVersion\njob 3\ngot 6f6c64\n",
        ),
        (
            4,
            "stop -\nreopen\nbegin upgrade\nbegin get a\nrun 3\n",
            "stopped\nopened\nrefused NewVersion\njob 3\ngot 6f6c64\n",
        ),
    ],
})];

#[test]
fn a_stopped_upgrade_leaves_the_old_version_or_the_new(rt: HostRuntime) {
    check(&rt, STOPS);
}
