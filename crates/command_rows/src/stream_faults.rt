use crate::check::check;
use crate::setups::{FOUR, THREE};
use command_fixtures::Deed::{
    Blocks, DiskHas, Done, Holds, Long, OverSink, OverSource, Providers, Refused, StopsAt,
};
use command_fixtures::{KEY, Rows};

/// The first read gives the bytes and the second their end; a source that failed is told before a bad name.
const SOURCES: &[Rows] = &[Rows::Deeds(&[
    FOUR,
    OverSource("put a", 0, 14),
    DiskHas(51),
    OverSource("put a", 1, 14),
    DiskHas(51),
    OverSource("put a/b", 0, 14),
    DiskHas(51),
    OverSource("put a", 2, 0),
    Done("get a", b"", b"abc"),
])];

#[test]
fn a_source_that_fails_leaves_the_journal_alone(rt: HostRuntime) {
    check(&rt, SOURCES);
}

/// A stripe has 32 bytes. The first read gives the first stripe, and the next one fails once it is stored: the
/// start stays in effect, under a number that is not used again.
const FORTY: &[u8] = &[b'f'; 40];

const LATER: &[Rows] = &[Rows::Deeds(&[
    FOUR,
    StopsAt("put a", FORTY, 1, 14),
    DiskHas(63),
    Done("list", b"", b""),
    Holds(0, 1),
    Blocks(4, 1, 1, 6),
    Done("put a", b"abc", b"stored a 3\n"),
    Blocks(4, 2, 1, 6),
    Done("put b", &[b'b'; 32], b"stored b 32\n"),
    Blocks(4, 3, 1, 6),
    Done("get a", b"", b"abc"),
    Done("get b", b"", &[b'b'; 32]),
    Done("put c", FORTY, b"stored c 40\n"),
    Blocks(4, 4, 2, 6),
    Done("get c", b"", FORTY),
])];

#[test]
fn a_source_that_fails_later_leaves_the_stripes_before(rt: HostRuntime) {
    check(&rt, LATER);
}

/// A stripe has 1152 bytes: 3,640 of them are stored before the byte is read that no file has room for. Behind
/// the setup the journal has the start of the put alone.
const TOO_LONG: &[Rows] = &[Rows::Deeds(&[
    Done("init 6 3 1 2 4 8 0", KEY, b"ready\n"),
    Long("put big", 4_194_305, 16, b""),
    DiskHas(65),
    Done("list", b"", b""),
    Blocks(6, 1, 3640, 32),
])];

#[test]
fn a_source_that_is_too_long_leaves_the_stripes_before(rt: HostRuntime) {
    check(&rt, TOO_LONG);
}

/// The longest file has 3,641 stripes at the profile 2, and 911 at the profile 4.
const LONGEST: &[Rows] = &[
    Rows::Deeds(&[
        Done("init 6 3 1 2 4 8 0", KEY, b"ready\n"),
        Long("put big", 4_194_304, 0, b"stored big 4194304\n"),
        Done("list", b"", b"big 4194304\n"),
        Blocks(6, 1, 3641, 32),
    ]),
    Rows::Deeds(&[
        Done("init 6 3 1 4 1 1 0", KEY, b"ready\n"),
        Long("put a", 4_194_304, 0, b"stored a 4194304\n"),
        Blocks(6, 1, 911, 128),
    ]),
];

#[test]
fn the_longest_source_is_stored(rt: HostRuntime) {
    check(&rt, LONGEST);
}

/// A set-up.
const KEY_SOURCE: &[Rows] = &[Rows::Deeds(&[OverSource("init 4 1 1 0 1 1 0", 0, 14), DiskHas(0)])];

#[test]
fn a_source_that_fails_sets_nothing_up(rt: HostRuntime) {
    check(&rt, KEY_SOURCE);
}

/// With no file in effect a list writes nothing.
const SINKS: &[Rows] = &[Rows::Deeds(&[
    FOUR,
    OverSink("list", b"abc", 0, 0, b""),
    OverSink("put a", b"abc", 0, 15, b""),
    OverSink("list", b"abc", 0, 15, b""),
    OverSink("get a", b"abc", 0, 15, b""),
    OverSink("audit", b"abc", 0, 15, b""),
    OverSink("drop a", b"abc", 0, 15, b""),
    Refused("get a", b"", 3, 0),
    OverSink("upgrade", b"abc", 0, 15, b""),
    Refused("upgrade", b"", 24, 0),
])];

#[test]
fn a_sink_that_fails_leaves_the_effect_of_a_command(rt: HostRuntime) {
    check(&rt, SINKS);
}

/// Three providers are left of four.
const FEW: &[Rows] = &[Rows::Deeds(&[
    FOUR,
    THREE,
    Providers(3),
    Refused("list", b"", 22, 0),
    Refused("get a", b"", 22, 0),
    Refused("put a/b", b"", 22, 0),
    Refused("audit", b"", 22, 0),
    Refused("init 4 1 1 0 1 1 0", b"", 22, 0),
])];

#[test]
fn fewer_providers_than_were_set_up_are_refused(rt: HostRuntime) {
    check(&rt, FEW);
}

/// What is refused leaves the journal.
const WORDS: &[Rows] = &[Rows::Deeds(&[
    FOUR,
    Refused("put a/b", b"abc", 17, 0),
    Refused("fly", b"", 2, 0),
    Refused("put", b"abc", 2, 0),
    DiskHas(51),
])];

#[test]
fn a_bad_name_and_an_unknown_word_are_refused(rt: HostRuntime) {
    check(&rt, WORDS);
}
