use crate::check::check;
use crate::setups::{SIX, SIX_JOURNAL};
use command_fixtures::Deed::{DiskHas, DiskIs, Done, Refused};
use command_fixtures::{Deed, KEY, Rows};

/// A set-up alone.
const SET_UP: &[Rows] = &[Rows::Deeds(&[SIX, DiskIs(SIX_JOURNAL), DiskHas(51)])];

#[test]
fn the_journal_has_the_setup_and_the_key(rt: HostRuntime) {
    check(&rt, SET_UP);
}

/// A set-up whose key has 63 digits.
const BAD_KEY: Deed = Refused(
    "init 6 3 1 1 4 8 0",
    b"000102030405060708090a0b0c0d0e0f101112131415161718191a1b1c1d1e1",
    18,
    0,
);

/// Before a set-up, and behind it.
const REFUSED: &[Rows] = &[Rows::Deeds(&[
    Refused("init 6 3 1 1 4 8", b"new", 2, 0),
    Refused("init 6 3 2 1 4 8 0", b"new", 20, 0),
    Refused("init 256 3 1 1 4 8 0", b"new", 20, 0),
    BAD_KEY,
    Refused("list", b"new", 9, 0),
    Refused("put a", b"new", 9, 0),
    Refused("get a", b"new", 9, 0),
    Refused("drop a", b"new", 9, 0),
    Refused("audit", b"new", 9, 0),
    Refused("repair", b"new", 9, 0),
    SIX,
    Refused("init 6 3 1 1 4 8 0", KEY, 10, 0),
    BAD_KEY,
    DiskIs(SIX_JOURNAL),
])];

#[test]
fn a_set_up_is_refused_in_its_order(rt: HostRuntime) {
    check(&rt, REFUSED);
}

/// A key without a line's end, and one with capital digits and a line's end of two bytes.
const KEYS: &[Rows] = &[
    Rows::Deeds(&[
        Done(
            "init 6 3 1 1 4 8 0",
            b"000102030405060708090a0b0c0d0e0f101112131415161718191a1b1c1d1e1f",
            b"ready\n",
        ),
        DiskIs(SIX_JOURNAL),
    ]),
    Rows::Deeds(&[
        Done(
            "init 6 3 1 1 4 8 0",
            b"000102030405060708090A0B0C0D0E0F101112131415161718191a1b1c1d1e1f\r\n",
            b"ready\n",
        ),
        DiskIs(SIX_JOURNAL),
    ]),
];

#[test]
fn a_key_may_end_with_a_line(rt: HostRuntime) {
    check(&rt, KEYS);
}
