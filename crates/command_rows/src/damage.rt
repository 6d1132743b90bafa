use crate::check::check;
use crate::setups::{NOTES, NOTES_JOURNAL, SIX, STORED};
use command_fixtures::Deed::{Alters, DiskBecomes, DiskIs, Done, Heard, HeardHeld, Loses, Refused};
use command_fixtures::Rows;

/// A block is lost, and four places of another are altered.
const BORNE: &[Rows] = &[Rows::Deeds(&[
    SIX,
    STORED,
    Alters(5, 0, 1 << 127),
    Alters(5, 1, 1 << 127),
    Alters(5, 2, 1 << 127),
    Alters(5, 3, 1 << 127),
    Loses(0),
    Done("get notes.txt", b"", NOTES),
])];

#[test]
fn a_lost_block_and_four_altered_places_do_no_harm(rt: HostRuntime) {
    check(&rt, BORNE);
}

/// Two blocks are lost.
const LOST: &[Rows] = &[Rows::Deeds(&[
    SIX,
    STORED,
    Loses(0),
    Loses(1),
    Refused("get notes.txt", b"new", 4, 0),
    Refused("get nope", b"new", 3, 0),
])];

#[test]
fn two_lost_blocks_are_a_lost_row(rt: HostRuntime) {
    check(&rt, LOST);
}

/// Another text of 100 bytes.
const OTHER: &[u8] = &[b'o'; 100];

/// The providers hold the columns of another text, and the disk is that of a store of the first one, whose
/// journal reads the same.
const OTHER_COLUMNS: &[Rows] = &[
    Rows::Deeds(&[SIX, STORED, DiskIs(NOTES_JOURNAL)]),
    Rows::Deeds(&[
        SIX,
        Done("put notes.txt", OTHER, b"stored notes.txt 100\n"),
        DiskBecomes(NOTES_JOURNAL),
        Done("get notes.txt", b"", OTHER),
        Heard(&[6]),
        HeardHeld(6),
    ]),
];

// Only who has the key can make such columns.
#[test]
fn columns_of_another_file_under_the_same_number_are_given(rt: HostRuntime) {
    check(&rt, OTHER_COLUMNS);
}
