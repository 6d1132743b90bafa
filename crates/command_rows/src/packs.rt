use crate::check::check;
use crate::setups::{NOTES, NOTES_JOURNAL, SIX, SIX_JOURNAL, STORED, UPGRADED};
use command_fixtures::Deed::{
    DiskBecomes, DiskFails, DiskHas, DiskIs, DiskReads, Done, Heard, Holders, Holds, Keeps, Lacks,
    LongBecomes, Loses, Mended, OverSink, Pinched, Providers, Refused, Stops,
};
use command_fixtures::{Case, Deed, Rows, Schedules};

/// Where the second area begins.
const SECOND: usize = 8_388_608;

/// The text of a store of six of which a second `notes.txt` is in effect, as a pack writes it: records of 42
/// and 3 bytes, the next numbers in 18, the file in 25, and the closed gate.
const PACKED: &[u8] =
    b"\x01\x01\x06\x03\x01\x01\x04\x08\0\0\0\x01\x02\x03\x04\x05\x06\x07\x08\x09\x0a\x0b\x0c\x0d\x0e\x0f\x10\x11\x12\x13\x14\x15\x16\x17\x18\x19\x1a\x1b\x1c\x1d\x1e\x1f\x01\x09\x02\x01\x0a\x03\0\0\0\0\0\0\0\x01\0\0\0\0\0\0\0\x01\x0b\x02\0\0\0\0\0\0\0\x64\0\0\0\x01\x09notes.txt\0";

/// The first area behind that pack: the text of the two puts, and the byte that names the other area.
const LEFT: &[u8] =
    b"HAILJRN2\x01\x01\x06\x03\x01\x01\x04\x08\0\0\0\x01\x02\x03\x04\x05\x06\x07\x08\x09\x0a\x0b\x0c\x0d\x0e\x0f\x10\x11\x12\x13\x14\x15\x16\x17\x18\x19\x1a\x1b\x1c\x1d\x1e\x1f\x01\x09\x02\x01\x02\x01\0\0\0\0\0\0\0\x09notes.txt\x01\x08\x01\0\0\0\0\0\0\0\x64\0\0\0\x01\x01\x02\x02\0\0\0\0\0\0\0\x09notes.txt\x01\x08\x02\0\0\0\0\0\0\0\x64\0\0\0\x01\0";

/// The first pack, from the first area into the second, and the next, from there back.
const PACK: Deed = Done("pack", b"", b"packed 124 89\n");

const BACK: Deed = Done("pack", b"", b"packed 89 97\n");

const FORTH: Deed = Done("pack", b"", b"packed 97 89\n");

/// The one file, listed and given.
const LISTED: Deed = Done("list", b"", b"notes.txt 100\n");

const GOT: Deed = Done("get notes.txt", b"", NOTES);

/// A second file, to which the next put gives the number 3.
const OTHER: Deed = Done("put other", b"hail", b"stored other 4\n");

/// A file is put twice, and the journal is packed into the second area, and back into the first.
const PACKS: &[Rows] = &[Rows::Deeds(&[
    SIX,
    Refused("pack", b"new", 23, 0),
    DiskIs(SIX_JOURNAL),
    UPGRADED,
    STORED,
    STORED,
    DiskHas(124),
    PACK,
    Heard(&[]),
    DiskReads(0, LEFT),
    DiskReads(SECOND, PACKED),
    DiskHas(8_388_697),
    LISTED,
    GOT,
    BACK,
    DiskReads(0, b"HAILJRN1"),
    DiskReads(8, PACKED),
    DiskReads(SECOND, PACKED),
    DiskHas(8_388_697),
    LISTED,
    GOT,
    Lacks(0, 1),
    OTHER,
    Holds(0, 3),
    Lacks(0, 4),
])];

#[test]
fn a_pack_writes_what_is_in_effect_into_the_other_area(rt: HostRuntime) {
    check(&rt, PACKS);
}

/// The records of a put, behind the text of the pack in place of its closed gate.
const APPENDED: &[u8] =
    b"\x01\x02\x03\0\0\0\0\0\0\0\x05other\x01\x08\x03\0\0\0\0\0\0\0\x04\0\0\0\x01\0";

/// Behind a pack records go to its area, and the first stays as it was. Packed again, a text of 120 bytes has
/// the records of two files.
const APPENDS: &[Rows] = &[Rows::Deeds(&[
    SIX,
    UPGRADED,
    STORED,
    STORED,
    PACK,
    OTHER,
    Holds(0, 3),
    DiskReads(0, LEFT),
    DiskReads(8_388_696, APPENDED),
    DiskHas(8_388_728),
    Done("list", b"", b"notes.txt 100\nother 4\n"),
    Done("pack", b"", b"packed 120 118\n"),
    Done("list", b"", b"notes.txt 100\nother 4\n"),
    GOT,
    Done("get other", b"", b"hail"),
    Done("drop notes.txt", b"", b"dropped notes.txt\n"),
    Done("list", b"", b"other 4\n"),
    Holds(0, 3),
    Lacks(0, 2),
])];

#[test]
fn records_behind_a_pack_go_to_its_area(rt: HostRuntime) {
    check(&rt, APPENDS);
}

/// The next numbers, and two files in byte order of their names, each with its own profile.
const ORDERED: &[u8] =
    b"\x01\x0a\x05\0\0\0\0\0\0\0\x01\0\0\0\0\0\0\0\x01\x0b\x02\0\0\0\0\0\0\0\0\0\0\0\x02\x01a\x01\x0b\x01\0\0\0\0\0\0\0\x03\0\0\0\x01\x01b\0";

/// The text of no file.
const EMPTY: &[u8] =
    b"\x01\x01\x06\x03\x01\x01\x04\x08\0\0\0\x01\x02\x03\x04\x05\x06\x07\x08\x09\x0a\x0b\x0c\x0d\x0e\x0f\x10\x11\x12\x13\x14\x15\x16\x17\x18\x19\x1a\x1b\x1c\x1d\x1e\x1f\x01\x09\x02\x01\x0a\x01\0\0\0\0\0\0\0\x01\0\0\0\0\0\0\0\0";

/// Of the files those in effect are packed; of none the next numbers alone.
const IN_EFFECT: &[Rows] = &[
    Rows::Deeds(&[
        SIX,
        Done("put b", b"abc", b"stored b 3\n"),
        UPGRADED,
        Done("put a 2", b"", b"stored a 0\n"),
        Done("put c", b"", b"stored c 0\n"),
        Done("put c 0", b"", b"stored c 0\n"),
        Done("drop c", b"", b"dropped c\n"),
        Done("pack", b"", b"packed 165 98\n"),
        DiskReads(8_388_653, ORDERED),
        DiskHas(8_388_706),
        Done("list", b"", b"a 0\nb 3\n"),
        Done("get b", b"", b"abc"),
    ]),
    Rows::Deeds(&[
        SIX,
        UPGRADED,
        Done("pack", b"", b"packed 54 64\n"),
        DiskReads(SECOND, EMPTY),
        Done("list", b"", b""),
        Done("pack", b"", b"packed 64 72\n"),
        DiskReads(8, EMPTY),
        Refused("upgrade", b"new", 24, 0),
        STORED,
        Holders(6),
        GOT,
    ]),
];

#[test]
fn a_pack_keeps_what_is_in_effect_alone(rt: HostRuntime) {
    check(&rt, IN_EFFECT);
}

/// An audit flags a provider before a pack: the repair is due behind it, and the next audit has the next
/// number.
const DUE: &[Rows] = &[Rows::Deeds(&[
    SIX,
    UPGRADED,
    STORED,
    Keeps,
    Loses(0),
    Done(
        "audit",
        b"",
        b"audit 1 undecided 0\nprovider 0 count 4 flagged\nprovider 1 count 0 ok\nprovider 2 count 0 ok\nprovider 3 count 0 ok\nprovider 4 count 0 ok\nprovider 5 count 0 ok\n",
    ),
    Done("pack", b"", b"packed 138 124\n"),
    Refused("audit", b"new", 6, 0),
    Done("pack", b"", b"packed 124 132\n"),
    Refused("audit", b"new", 6, 0),
    Done("repair", b"", b"repaired 1\n"),
    Mended,
    Refused("repair", b"new", 7, 0),
    Done("pack", b"", b"packed 142 89\n"),
    Refused("repair", b"new", 7, 0),
    Done(
        "audit",
        b"",
        b"audit 2 undecided 0\nprovider 0 count 0 ok\nprovider 1 count 0 ok\nprovider 2 count 0 ok\nprovider 3 count 0 ok\nprovider 4 count 0 ok\nprovider 5 count 0 ok\n",
    ),
    GOT,
])];

#[test]
fn a_due_repair_outlives_a_pack(rt: HostRuntime) {
    check(&rt, DUE);
}

/// A text of the first area that ends where the second begins, and is packed, and one that is longer by a
/// byte, and is not. Both have one file, whose name has 64 letters.
const LONG: &[Rows] = &[
    Rows::Deeds(&[
        LongBecomes(3),
        DiskHas(SECOND),
        Done("pack", b"", b"packed 8388608 144\n"),
        DiskHas(8_388_752),
        Done(
            "list",
            b"",
            b"nnnnnnnnnnnnnnnnnnnnnnnnnnnnnnnnnnnnnnnnnnnnnnnnnnnnnnnnnnnnnnnn 0\n",
        ),
    ]),
    Rows::Deeds(&[
        LongBecomes(4),
        DiskHas(8_388_609),
        Refused("pack", b"new", 26, 0),
        DiskHas(8_388_609),
        Done(
            "replay",
            b"reopen\nbegin pack\nlist\n",
            b"opened\nrefused PackTooLong\nnames 1\nnnnnnnnnnnnnnnnnnnnnnnnnnnnnnnnnnnnnnnnnnnnnnnnnnnnnnnnnnnnnnnnn 0\n",
        ),
    ]),
];

#[test]
fn a_text_that_reaches_into_the_second_area_is_not_packed(rt: HostRuntime) {
    check(&rt, LONG);
}

/// Why a pack is refused, in order; it reads no source.
const REFUSED: &[Rows] = &[
    Rows::Deeds(&[
        Refused("pack", b"new", 9, 0),
        SIX,
        STORED,
        Refused("pack all", b"new", 2, 0),
        DiskFails(&[0]),
        Refused("pack", b"new", 12, 0),
        Refused("pack", b"new", 23, 0),
        Providers(5),
        Refused("pack", b"new", 22, 0),
        DiskIs(NOTES_JOURNAL),
    ]),
    Rows::Deeds(&[
        DiskBecomes(b"HAILJRN1\x01\x07\0"),
        Refused("pack", b"new", 8, 9),
    ]),
];

#[test]
fn a_pack_is_refused_in_its_order(rt: HostRuntime) {
    check(&rt, REFUSED);
}

/// Where a sink fails, the pack was made all the same. Of a write that finds no memory nothing is written,
/// and the old text is the journal.
const TOLD: &[Rows] = &[
    Rows::Deeds(&[
        SIX,
        UPGRADED,
        STORED,
        STORED,
        OverSink("pack", b"", 0, 15, b""),
        DiskReads(0, LEFT),
        DiskReads(SECOND, PACKED),
        BACK,
    ]),
    Rows::Deeds(&[
        SIX,
        UPGRADED,
        STORED,
        STORED,
        Pinched("pack", b"", 0),
        DiskHas(124),
        LISTED,
        GOT,
        Pinched("pack", b"", 1),
        DiskReads(0, b"HAILJRN1"),
        DiskReads(SECOND, PACKED),
        LISTED,
        GOT,
        PACK,
        LISTED,
        GOT,
        Pinched("pack", b"", 0),
        LISTED,
        GOT,
        Pinched("pack", b"", 1),
        DiskReads(0, b"HAILJRN2"),
        LISTED,
        GOT,
        BACK,
        GOT,
    ]),
];

#[test]
fn a_pack_is_made_or_not_whatever_is_told(rt: HostRuntime) {
    check(&rt, TOLD);
}

/// Opening makes the calls 0 to 2. A pack writes the text at 3, syncs it at 4, writes the switch byte at 5,
/// which a failure leaves as it was, and syncs it at 6.
const CUT: &[Rows] = &[Rows::Cut(Case {
    before: &[SIX, UPGRADED, STORED, STORED],
    line: "pack",
    input: b"",
    text: b"packed 124 89\n",
    calls: 7,
    stands: 6,
    without: &[DiskReads(0, b"HAILJRN1"), LISTED, GOT],
    with: &[DiskReads(0, b"HAILJRN2"), LISTED, GOT],
})];

#[test]
fn a_pack_whose_disk_fails_leaves_the_files(rt: HostRuntime) {
    check(&rt, CUT);
}

/// A pack whose disk fails.
const FAULT: Deed = Refused("pack", b"", 12, 0);

/// Where the write of the switch byte fails, or the sync behind it, that byte is loose, and a stop sets it: the
/// digit 2 names the second area, and each other byte the first.
const LOOSE: &[Rows] = &[Rows::Deeds(&[
    SIX,
    UPGRADED,
    STORED,
    STORED,
    DiskFails(&[5]),
    FAULT,
    Stops(b"\0"),
    GOT,
    DiskFails(&[6]),
    FAULT,
    Stops(b"1"),
    GOT,
    DiskFails(&[5]),
    FAULT,
    Stops(b"\xff"),
    GOT,
    DiskFails(&[5]),
    FAULT,
    Stops(b"2"),
    GOT,
    LISTED,
    BACK,
])];

#[test]
fn a_loose_switch_byte_names_one_of_two_areas(rt: HostRuntime) {
    check(&rt, LOOSE);
}

/// The same once it names the second area.
const LOOSE_BACK: &[Rows] = &[Rows::Deeds(&[
    SIX,
    UPGRADED,
    STORED,
    STORED,
    DiskFails(&[6]),
    FAULT,
    Stops(b"2"),
    GOT,
    DiskFails(&[5]),
    FAULT,
    Stops(b"2"),
    GOT,
    DiskFails(&[5]),
    FAULT,
    Stops(b"1"),
    GOT,
    DiskFails(&[6]),
    FAULT,
    Stops(b"\xff"),
    GOT,
    LISTED,
    FORTH,
])];

#[test]
fn a_loose_switch_byte_behind_a_pack_names_one_of_two_areas(rt: HostRuntime) {
    check(&rt, LOOSE_BACK);
}

/// A pack runs alone. Where a call of the disk fails in it, the vault is to be opened anew.
const LINES: &[Rows] = &[
    Rows::Deeds(&[
        SIX,
        Done(
            "replay",
            b"reopen\nbegin pack\nbegin upgrade\nbegin pack\nrun 1\nbegin put a 6f6c64\nbegin pack\nrun 2\nbegin scrub\nbegin pack\nrun 3\nbegin pack\nrun 4\nlist\nbegin get a\nrun 5\n",
            b"opened\nrefused OldVersion\njob 1\nrefused Busy\nupgraded\njob 2\nrefused Busy\nput\njob 3\nrefused Busy\nscrubbed 1 symbols 0 0 0 0 0 0\njob 4\npacked 81 81\nnames 1\na 3\njob 5\ngot 6f6c64\n",
        ),
    ]),
    Rows::Deeds(&[
        SIX,
        UPGRADED,
        STORED,
        DiskFails(&[5]),
        Done(
            "replay",
            b"reopen\nbegin pack\nrun 1\nbegin pack\nbegin get notes.txt\nreopen\nbegin pack\nrun 2\nlist\n",
            b"opened\njob 1\ndisk fault\nrefused MustReopen\nrefused MustReopen\nopened\njob 2\npacked 89 89\nnames 1\nnotes.txt 100\n",
        ),
    ]),
];

#[test]
fn a_pack_of_a_schedule_runs_alone(rt: HostRuntime) {
    check(&rt, LINES);
}

/// A pack is stopped after so many of its steps, and the journal packed again: from the first area into the
/// second, or from there back.
const STOPS: &[Rows] = &[Rows::Replayed(Schedules {
    before: &[SIX],
    front: "reopen\nbegin upgrade\nrun 1\nbegin put a 6f6c64\nrun 2\nbegin pack\n",
    told_front: "opened\njob 1\nupgraded\njob 2\nput\njob 3\n",
    step: "step 3\n",
    rests: &[
        (
            0,
            "begin pack\nbegin scrub\nbegin upgrade\nbegin get a\nbegin put b 00\nstep 2\nlist\nrun 3\nstep 3\nbegin get a\nrun 4\n",
            "refused Busy\nrefused Busy\nrefused Busy\nrefused Busy\nrefused Busy\nrefused NoSuchJob\nnames 1\na 3\npacked 81 81\nrefused NoSuchJob\njob 4\ngot 6f6c64\n",
        ),
        (
            4,
            "step 3\nstep 3\nbegin pack\nrun 4\n",
            "packed 81 81\nrefused NoSuchJob\njob 4\npacked 81 89\n",
        ),
        (
            1,
            "stop -\nreopen\nbegin get a\nrun 4\nbegin pack\nrun 5\nlist\n",
            "stopped\nopened\njob 4\ngot 6f6c64\njob 5\npacked 81 81\nnames 1\na 3\n",
        ),
        (
            1,
            "stop ff\nreopen\nbegin get a\nrun 4\nbegin pack\nrun 5\nlist\n",
            "stopped\nopened\njob 4\ngot 6f6c64\njob 5\npacked 81 81\nnames 1\na 3\n",
        ),
        (
            2,
            "stop 32\nreopen\nbegin get a\nrun 4\nbegin pack\nrun 5\nlist\n",
            "stopped\nopened\njob 4\ngot 6f6c64\njob 5\npacked 81 81\nnames 1\na 3\n",
        ),
        (
            3,
            "stop 00\nreopen\nbegin get a\nrun 4\nbegin pack\nrun 5\nlist\n",
            "stopped\nopened\njob 4\ngot 6f6c64\njob 5\npacked 81 81\nnames 1\na 3\n",
        ),
        (
            3,
            "stop 32\nreopen\nbegin get a\nrun 4\nbegin pack\nrun 5\nlist\n",
            "stopped\nopened\njob 4\ngot 6f6c64\njob 5\npacked 81 89\nnames 1\na 3\n",
        ),
        (
            3,
            "stop -\nreopen\nbegin get a\nrun 4\nbegin pack\nrun 5\nlist\n",
            "stopped\nopened\njob 4\ngot 6f6c64\njob 5\npacked 81 89\nnames 1\na 3\n",
        ),
        (
            4,
            "stop 00\nreopen\nbegin get a\nrun 4\nbegin pack\nrun 5\nlist\n",
            "stopped\nopened\njob 4\ngot 6f6c64\njob 5\npacked 81 89\nnames 1\na 3\n",
        ),
    ],
})];

#[test]
fn a_stopped_pack_leaves_one_of_two_areas(rt: HostRuntime) {
    check(&rt, STOPS);
}
