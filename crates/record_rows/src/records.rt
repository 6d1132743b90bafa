use crate::given::*;
use record_codec::*;

/// The setup of four providers, one of them primary and one of them bad, in the first profile: one round of
/// one pick, and a tolerance of 4,096. The bytes of the key are 0.
const SETUP: [u8; 41] = [
    1, 4, 1, 1, 0, 1, 1, 0, 16, 0, 0, 0, 0, 0, 0, 0, 0, 0, 0, 0, 0, 0, 0, 0, 0, 0, 0, 0, 0, 0, 0,
    0, 0, 0, 0, 0, 0, 0, 0, 0, 0,
];

const PUT_START: [u8; 19] = [
    2, 1, 0, 0, 0, 0, 0, 0, 0, 9, 110, 111, 116, 101, 115, 46, 116, 120, 116,
];

/// Whether one record is read from all of these bytes, and written as these bytes again.
fn is_record(bytes: &[u8]) -> bool {
    match Record::read(bytes) {
        Some((record, size)) => {
            let mut out = [0u8; 80];
            let n = record.write(&mut out);
            n == size && n == record.size() && out[..n] == bytes[..]
        }
        None => false,
    }
}

/// Five providers, two of them primary and two of them bad.
const TWO_OF_FIVE: [u8; 41] = [
    1, 5, 2, 2, 0, 1, 1, 0, 16, 0, 0, 0, 0, 0, 0, 0, 0, 0, 0, 0, 0, 0, 0, 0, 0, 0, 0, 0, 0, 0, 0,
    0, 0, 0, 0, 0, 0, 0, 0, 0, 0,
];

/// The end of an audit with a count for three providers.
const THREE_COUNTS: [u8; 30] = [
    6, 1, 0, 0, 0, 0, 0, 0, 0, 0, 0, 0, 0, 3, 0, 0, 0, 0, 0, 0, 0, 0, 1, 0, 0, 0, 0, 0, 0, 0,
];

/// A drop of a name of 65 bytes.
const LONG_NAME: [u8; 67] = [
    4, 65, 97, 97, 97, 97, 97, 97, 97, 97, 97, 97, 97, 97, 97, 97, 97, 97, 97, 97, 97, 97, 97, 97,
    97, 97, 97, 97, 97, 97, 97, 97, 97, 97, 97, 97, 97, 97, 97, 97, 97, 97, 97, 97, 97, 97, 97, 97,
    97, 97, 97, 97, 97, 97, 97, 97, 97, 97, 97, 97, 97, 97, 97, 97, 97, 97, 97,
];

/// The end of a put of 100 bytes, with a byte after it.
const PUT_DONE: [u8; 14] = [3, 1, 0, 0, 0, 0, 0, 0, 0, 100, 0, 0, 0, 255];

const REPAIR_DONE: [u8; 9] = [7, 0, 1, 0, 0, 0, 0, 0, 0];

/// Six providers, as many of them primary as may be where one is bad, with the most rounds and picks and the
/// largest tolerance.
const AT_LIMITS: Setup = Setup {
    n: 6,
    l: 3,
    b: 1,
    profile: 4,
    rounds: 64,
    picks: 64,
    tolerance: 4096,
};

/// A record of each kind.
static READ: [&[u8]; 13] = [
    &SETUP,
    &PUT_START,
    &[3, 1, 0, 0, 0, 0, 0, 0, 0, 100, 0, 0, 0],
    &[3, 1, 0, 0, 0, 0, 0, 0, 0, 0, 0, 64, 0],
    &[4, 1, 97],
    &[5, 1, 0, 0, 0, 0, 0, 0, 0],
    &AUDIT_DONE,
    &[7, 1, 0, 0, 0, 0, 0, 0, 0],
    &[8, 1, 0, 0, 0, 0, 0, 0, 0, 100, 0, 0, 0, 4],
    &[9, 2],
    &[10, 3, 0, 0, 0, 0, 0, 0, 0, 2, 0, 0, 0, 0, 0, 0, 0],
    &[11, 1, 0, 0, 0, 0, 0, 0, 0, 100, 0, 0, 0, 0, 1, 97],
    &DUE,
];

/// Bytes that spell no record.
static NONE: [&[u8]; 13] = [
    &[],
    &[0],
    &[8],
    &[8, 1, 0, 0, 0, 0, 0, 0, 0, 100, 0, 0, 0, 5],
    &[9, 1],
    &[13],
    &[3, 1, 0, 0, 0, 0, 0, 0, 0, 100, 0, 0],
    &[4, 0],
    &[4, 1, 47],
    &[3, 1, 0, 0, 0, 0, 0, 0, 0, 1, 0, 64, 0],
    &TWO_OF_FIVE,
    &THREE_COUNTS,
    &LONG_NAME,
];

/// The place of the first of these rows that is not read, or not written as it was.
fn first_not_read() -> Option<usize> {
    for (place, bytes) in READ.iter().enumerate() {
        if !is_record(bytes) {
            return Some(place);
        }
    }
    None
}

#[test]
fn each_record_is_read_and_written(rt: HostRuntime) {
    no_other(&rt, first_not_read());
}

/// The place of the first of these rows that is read.
fn first_read() -> Option<usize> {
    for (place, bytes) in NONE.iter().enumerate() {
        if Record::read(bytes).is_some() {
            return Some(place);
        }
    }
    None
}

#[test]
fn no_record_is_read(rt: HostRuntime) {
    no_other(&rt, first_read());
}

/// Whether these records have their fields at their places.
fn fields_are_read() -> bool {
    matches!(
        Record::read(&PUT_START),
        Some((Record::PutStart { id: 1, .. }, 19))
    ) && matches!(
        Record::read(&PUT_DONE),
        Some((Record::PutDone { id: 1, length: 100 }, 13))
    ) && matches!(
        Record::read(&REPAIR_DONE),
        Some((Record::RepairDone { number: 256 }, 9))
    )
}

#[test]
fn fields_stand_at_their_places(rt: HostRuntime) {
    assert!(rt; fields_are_read());
}

/// Whether these bytes are a name, and the name's bytes are these.
fn is_name(bytes: &[u8]) -> bool {
    match Name::new(bytes) {
        Some(name) => name.as_bytes() == bytes,
        None => false,
    }
}

#[test]
fn names_have_no_slash(rt: HostRuntime) {
    assert!(rt; is_name(b"notes.txt") && !is_name(b"a/b"));
}

#[test]
fn setups_at_their_limits_are_checked(rt: HostRuntime) {
    assert!(rt; AT_LIMITS.check() && !Setup { l: 4, ..AT_LIMITS }.check());
}
