use crate::check::check;
use crate::setups::{NOTES, SIX, STORED, UPGRADED};
use command_fixtures::Deed::{
    DiskBecomes, DiskFails, DiskHas, DiskIs, DiskReads, Done, Refused, SecondBecomes, Stops,
};
use command_fixtures::{KEY, Rows};

/// Where the second area begins.
const SECOND: usize = 8_388_608;

/// The set-up of six in the second area: its record behind an open gate, and the closed one.
const SET_UP: &[u8] =
    b"\x01\x01\x06\x03\x01\x01\x04\x08\0\0\0\x01\x02\x03\x04\x05\x06\x07\x08\x09\x0a\x0b\x0c\x0d\x0e\x0f\x10\x11\x12\x13\x14\x15\x16\x17\x18\x19\x1a\x1b\x1c\x1d\x1e\x1f\0";

/// A journal in the second area that has no record. A set-up goes there, and so do the records behind it, 80
/// bytes with the closed gate, up to the pack that leaves them.
const NO_RECORD: &[Rows] = &[
    Rows::Deeds(&[
        SecondBecomes(b"\0"),
        Refused("list", b"new", 9, 0),
        Refused("pack", b"new", 9, 0),
        SIX,
        DiskReads(0, b"HAILJRN2\0\0"),
        DiskReads(SECOND, SET_UP),
        DiskHas(8_388_651),
        Done("list", b"", b""),
        Refused("init 6 3 1 1 4 8 0", KEY, 10, 0),
        Refused("pack", b"new", 23, 0),
        STORED,
        UPGRADED,
        DiskHas(8_388_688),
        DiskReads(0, b"HAILJRN2\0\0"),
        Done("pack", b"", b"packed 80 97\n"),
        DiskReads(0, b"HAILJRN1\x01\x01"),
        Done("list", b"", b"notes.txt 100\n"),
        Done("get notes.txt", b"", NOTES),
    ]),
    Rows::Deeds(&[
        SecondBecomes(b"\xff\x01\x01"),
        Refused("list", b"new", 9, 0),
        SIX,
        DiskReads(SECOND, SET_UP),
        Done("list", b"", b""),
    ]),
];

#[test]
fn a_store_is_set_up_in_the_area_of_its_journal(rt: HostRuntime) {
    check(&rt, NO_RECORD);
}

/// A set-up there makes seven calls. The last two write the open gate of its record, which a failure leaves
/// as it was, and sync it.
const CUT: &[Rows] = &[Rows::Deeds(&[
    SecondBecomes(b"\0"),
    DiskFails(&[5]),
    Refused("init 4 1 1 0 1 1 0", KEY, 12, 0),
    Refused("list", b"", 9, 0),
    DiskFails(&[6]),
    Refused("init 4 1 1 0 1 1 0", KEY, 12, 0),
    Stops(b"\0"),
    Refused("list", b"", 9, 0),
    DiskFails(&[6]),
    Refused("init 4 1 1 0 1 1 0", KEY, 12, 0),
    Stops(b"\x01"),
    Done("list", b"", b""),
])];

#[test]
fn a_set_up_in_the_second_area_stands_from_its_last_sync_on(rt: HostRuntime) {
    check(&rt, CUT);
}

/// Disks whose second area is the active one and is bad from a byte on: it has none; a record that ends
/// nowhere; next numbers before an upgrade; a file in effect whose number was not drawn; and the same file
/// twice.
const BAD: &[Rows] = &[
    Rows::Deeds(&[
        SecondBecomes(b""),
        Refused("list", b"new", 8, 8_388_608),
        Refused("init 4 1 1 0 1 1 0", KEY, 8, 8_388_608),
        DiskHas(SECOND),
    ]),
    Rows::Deeds(&[
        SecondBecomes(b"\x01\x01\x06"),
        Refused("list", b"new", 8, 8_388_609),
        Refused("pack", b"new", 8, 8_388_609),
    ]),
    Rows::Deeds(&[
        SecondBecomes(
            b"\x01\x01\x06\x03\x01\x01\x04\x08\0\0\0\x01\x02\x03\x04\x05\x06\x07\x08\x09\x0a\x0b\x0c\x0d\x0e\x0f\x10\x11\x12\x13\x14\x15\x16\x17\x18\x19\x1a\x1b\x1c\x1d\x1e\x1f\x01\x0a\x01\0\0\0\0\0\0\0\x01\0\0\0\0\0\0\0\0",
        ),
        Refused("list", b"new", 8, 8_388_651),
    ]),
    Rows::Deeds(&[
        SecondBecomes(
            b"\x01\x01\x06\x03\x01\x01\x04\x08\0\0\0\x01\x02\x03\x04\x05\x06\x07\x08\x09\x0a\x0b\x0c\x0d\x0e\x0f\x10\x11\x12\x13\x14\x15\x16\x17\x18\x19\x1a\x1b\x1c\x1d\x1e\x1f\x01\x09\x02\x01\x0b\x01\0\0\0\0\0\0\0\0\0\0\0\x01\x01a\0",
        ),
        Refused("list", b"new", 8, 8_388_654),
    ]),
    Rows::Deeds(&[
        SecondBecomes(
            b"\x01\x01\x06\x03\x01\x01\x04\x08\0\0\0\x01\x02\x03\x04\x05\x06\x07\x08\x09\x0a\x0b\x0c\x0d\x0e\x0f\x10\x11\x12\x13\x14\x15\x16\x17\x18\x19\x1a\x1b\x1c\x1d\x1e\x1f\x01\x09\x02\x01\x0a\x03\0\0\0\0\0\0\0\x01\0\0\0\0\0\0\0\x01\x0b\x01\0\0\0\0\0\0\0\0\0\0\0\x01\x01a\x01\x0b\x02\0\0\0\0\0\0\0\0\0\0\0\x01\x01a\0",
        ),
        Refused("list", b"new", 8, 8_388_689),
    ]),
];

#[test]
fn a_bad_second_area_is_told_with_its_place(rt: HostRuntime) {
    check(&rt, BAD);
}

/// What a pack writes, read in either area: the next numbers and a file of no byte. Bytes of the other area
/// are no part of it.
const READ: &[Rows] = &[
    Rows::Deeds(&[
        SecondBecomes(
            b"\x01\x01\x06\x03\x01\x01\x04\x08\0\0\0\x01\x02\x03\x04\x05\x06\x07\x08\x09\x0a\x0b\x0c\x0d\x0e\x0f\x10\x11\x12\x13\x14\x15\x16\x17\x18\x19\x1a\x1b\x1c\x1d\x1e\x1f\x01\x09\x02\x01\x0a\x03\0\0\0\0\0\0\0\x01\0\0\0\0\0\0\0\x01\x0b\x02\0\0\0\0\0\0\0\0\0\0\0\x01\x01a\0\xff",
        ),
        Done("list", b"", b"a 0\n"),
        Done("get a", b"", b""),
        Done("pack", b"", b"packed 81 89\n"),
        Done("list", b"", b"a 0\n"),
    ]),
    Rows::Deeds(&[
        DiskBecomes(
            b"HAILJRN1\x01\x01\x06\x03\x01\x01\x04\x08\0\0\0\x01\x02\x03\x04\x05\x06\x07\x08\x09\x0a\x0b\x0c\x0d\x0e\x0f\x10\x11\x12\x13\x14\x15\x16\x17\x18\x19\x1a\x1b\x1c\x1d\x1e\x1f\x01\x09\x02\x01\x0a\x03\0\0\0\0\0\0\0\x01\0\0\0\0\0\0\0\x01\x0b\x02\0\0\0\0\0\0\0\0\0\0\0\x01\x01a\0\xff",
        ),
        Done("list", b"", b"a 0\n"),
        Done("get a", b"", b""),
        Done("pack", b"", b"packed 89 81\n"),
        Done("list", b"", b"a 0\n"),
    ]),
    Rows::Deeds(&[
        DiskBecomes(b"HAILJRN\0\x01\x09\x02"),
        Refused("list", b"new", 8, 9),
        DiskIs(b"HAILJRN\0\x01\x09\x02"),
    ]),
];

#[test]
fn packed_records_are_read_in_either_area(rt: HostRuntime) {
    check(&rt, READ);
}
