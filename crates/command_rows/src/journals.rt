use crate::check::check;
use crate::setups::{FOUR, SIX, SIX_JOURNAL};
use command_fixtures::Deed::{DiskBecomes, DiskIs, Done, Refused};
use command_fixtures::{KEY, Rows};

/// Disks that have no record.
const NOT_SET_UP: &[Rows] = &[
    Rows::Deeds(&[
        DiskBecomes(b""),
        Refused("list", b"new", 9, 0),
        FOUR,
        Done("list", b"", b""),
    ]),
    Rows::Deeds(&[
        DiskBecomes(b"HAILJRN1"),
        Refused("list", b"new", 9, 0),
        FOUR,
        Done("list", b"", b""),
    ]),
    Rows::Deeds(&[
        DiskBecomes(b"HAILJRN1\x01"),
        Refused("list", b"new", 9, 0),
        FOUR,
        Done("list", b"", b""),
    ]),
    Rows::Deeds(&[
        DiskBecomes(b"HAILJRN1\0\xff\xff"),
        Refused("list", b"new", 9, 0),
        FOUR,
        Done("list", b"", b""),
    ]),
];

#[test]
fn a_disk_without_a_record_is_not_set_up(rt: HostRuntime) {
    check(&rt, NOT_SET_UP);
}

/// Disks whose journal is bad from a byte on. They stay as they are.
const BAD: &[Rows] = &[
    Rows::Deeds(&[
        DiskBecomes(b"HAILJRN1\x01\x01\x06"),
        Refused("list", b"new", 8, 9),
        Refused("init 4 1 1 0 1 1 0", KEY, 8, 9),
        Refused("audit", b"new", 8, 9),
        DiskIs(b"HAILJRN1\x01\x01\x06"),
    ]),
    Rows::Deeds(&[
        DiskBecomes(b"HAILJRN2\0\0\0\0"),
        Refused("list", b"new", 8, 8_388_608),
        Refused("init 4 1 1 0 1 1 0", KEY, 8, 8_388_608),
        Refused("audit", b"new", 8, 8_388_608),
        DiskIs(b"HAILJRN2\0\0\0\0"),
    ]),
    Rows::Deeds(&[
        DiskBecomes(b"HAILJRN1\x01\x05\x01\0\0\0\0\0\0\0\0"),
        Refused("list", b"new", 8, 9),
        Refused("init 4 1 1 0 1 1 0", KEY, 8, 9),
        Refused("audit", b"new", 8, 9),
        DiskIs(b"HAILJRN1\x01\x05\x01\0\0\0\0\0\0\0\0"),
    ]),
];

#[test]
fn a_bad_journal_is_told_with_its_place(rt: HostRuntime) {
    check(&rt, BAD);
}

/// The journal of a set-up, and two bytes behind it.
const LONGER: &[Rows] = &[
    Rows::Deeds(&[SIX, DiskIs(SIX_JOURNAL)]),
    Rows::Deeds(&[
        DiskBecomes(
            b"HAILJRN1\x01\x01\x06\x03\x01\x01\x04\x08\0\0\0\x01\x02\x03\x04\x05\x06\x07\x08\x09\x0a\x0b\x0c\x0d\x0e\x0f\x10\x11\x12\x13\x14\x15\x16\x17\x18\x19\x1a\x1b\x1c\x1d\x1e\x1f\0\xff\xff",
        ),
        Done("list", b"", b""),
    ]),
];

#[test]
fn bytes_behind_the_text_are_passed_over(rt: HostRuntime) {
    check(&rt, LONGER);
}
