use crate::check::check;
use crate::setups::{NOTES, NOTES_JOURNAL, SIX, STORED};
use command_fixtures::Deed::{Block, DiskIs, Done, Heard, Holders, Providers, Refused};
use command_fixtures::{KEY, Rows};

/// An empty file: nothing is stored, and a get of it hears nothing.
const EMPTY: &[Rows] = &[Rows::Deeds(&[
    SIX,
    Done("put empty", b"", b"stored empty 0\n"),
    Done("get empty", b"", b""),
    Done("list", b"", b"empty 0\n"),
    Done(
        "audit",
        b"",
        b"audit 1 undecided 0\nprovider 0 count 0 ok\nprovider 1 count 0 ok\nprovider 2 count 0 ok\nprovider 3 count 0 ok\nprovider 4 count 0 ok\nprovider 5 count 0 ok\n",
    ),
    Holders(0),
    Done("get empty", b"", b""),
    Heard(&[]),
])];

#[test]
fn an_empty_file_has_no_block(rt: HostRuntime) {
    check(&rt, EMPTY);
}

/// The text of 100 bytes fills seven symbols of the first column; the other two of the file's own columns are
/// zero.
const SHORT: &[Rows] = &[Rows::Deeds(&[
    SIX,
    STORED,
    DiskIs(NOTES_JOURNAL),
    Holders(6),
    Block(0, 16, false),
    Block(1, 16, true),
    Block(2, 16, true),
    Block(3, 16, false),
    Block(4, 16, false),
    Block(5, 16, false),
])];

#[test]
fn a_short_file_has_one_block_a_provider(rt: HostRuntime) {
    check(&rt, SHORT);
}

/// The life of two files.
const LISTED: &[Rows] = &[Rows::Deeds(&[
    SIX,
    STORED,
    Done("list", b"", b"notes.txt 100\n"),
    Done("get notes.txt", b"", NOTES),
    Refused("put a/b", b"new", 17, 0),
    Refused("get nope", b"new", 3, 0),
    Refused("drop nope", b"new", 3, 0),
    Refused("fly", b"new", 2, 0),
    Refused("get", b"new", 2, 0),
    Done("put a", b"first", b"stored a 5\n"),
    Done("put a", b"second", b"stored a 6\n"),
    Done("list", b"", b"a 6\nnotes.txt 100\n"),
    Done("get a", b"", b"second"),
    Done("drop notes.txt", b"", b"dropped notes.txt\n"),
    Refused("get notes.txt", b"new", 3, 0),
    Done("list", b"", b"a 6\n"),
    Holders(0),
])];

#[test]
fn a_file_is_listed_and_given_back_until_it_is_dropped(rt: HostRuntime) {
    check(&rt, LISTED);
}

/// Each job of four providers to its end, or refused; the store is not set up before, and too few providers
/// are left behind it.
const JOBS: &[Rows] = &[Rows::Deeds(&[
    Providers(4),
    Refused("audit", b"", 9, 0),
    Done("init 4 1 1 0 2 2 0", KEY, b"ready\n"),
    Done("put a", b"hail", b"stored a 4\n"),
    Done("get a", b"", b"hail"),
    Refused("get b", b"", 3, 0),
    Done(
        "audit",
        b"",
        b"audit 1 undecided 0\nprovider 0 count 0 ok\nprovider 1 count 0 ok\nprovider 2 count 0 ok\nprovider 3 count 0 ok\n",
    ),
    Refused("repair", b"", 7, 0),
    Done("drop a", b"", b"dropped a\n"),
    Refused("drop a", b"", 3, 0),
    Providers(3),
    Refused("audit", b"", 22, 0),
])];

#[test]
fn jobs_run_to_their_end(rt: HostRuntime) {
    check(&rt, JOBS);
}
