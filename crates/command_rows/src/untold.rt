use crate::check::check;
use crate::setups::SIX;
use command_fixtures::Deed::{DiskOf, Done, Heard, HeardHeld, Known, Providers, WroteOther};
use command_fixtures::Rows;
use forged_stores::Stored;

/// The file of the letter t leaves the journal of its store. Where each provider holds the columns of another
/// file of the same number and length, and the disk is that of the store of the letter t, the other file is
/// given.
const OTHER_COLUMNS: &[Rows] = &[
    Rows::Untold(&[
        SIX,
        Done("put a", &[b't'; 100], b"stored a 100\n"),
        Known(Stored::SixLetters),
    ]),
    Rows::Untold(&[
        SIX,
        Done("put a", &[b'o'; 100], b"stored a 100\n"),
        DiskOf(Stored::SixLetters),
        Done("get a", b"", &[b'o'; 100]),
        Heard(&[6]),
        HeardHeld(6),
    ]),
];

// Only who has the key can make such columns.
#[test]
fn columns_of_another_file_are_given_untold(rt: HostRuntime) {
    check(&rt, OTHER_COLUMNS);
}

/// All holds of which `other_bytes_are_a_forgery` speaks: what this get heard is a forgery against the file.
const FORGERY: &[Rows] = &[Rows::Untold(&[
    Providers(6),
    SIX,
    Done("put a", &[b'o'; 100], b"stored a 100\n"),
    DiskOf(Stored::SixLetters),
    Known(Stored::SixLetters),
    Done("get a", b"", &[b'o'; 100]),
    WroteOther(Stored::SixLetters),
])];

// Only who has the key can make such columns.
#[test]
fn columns_of_another_file_are_a_forgery(rt: HostRuntime) {
    check(&rt, FORGERY);
}

/// A schedule with a loss, an audit that finds it, a repair, a stop and gets, over providers that do not tell:
/// the lines are those over such as do.
const REPLAYED: &[Rows] = &[
    Rows::Untold(&[
        SIX,
        Done("replay", DAMAGED, DAMAGED_LINES),
        Heard(&[6, 24, 6]),
    ]),
    Rows::Deeds(&[
        SIX,
        Done("replay", DAMAGED, DAMAGED_LINES),
        Heard(&[6, 24, 6]),
    ]),
];

/// Six providers, of which one loses its block.
const DAMAGED: &[u8] =
    b"reopen\nbegin put a 6861696c\nrun 1\nlose 2 1 0\nbegin get a\nrun 2\nbegin audit\nrun 3\nbegin repair\nrun 4\nstop -\nreopen\nbegin get a\nrun 5\n";

/// What it writes.
const DAMAGED_LINES: &[u8] =
    b"opened\njob 1\nput\nreplaced\njob 2\ngot 6861696c\njob 3\naudited 1 undecided 0 counts 0 0 4 0 0 0\njob 4\nrepaired 1\nstopped\nopened\njob 5\ngot 6861696c\n";

#[test]
fn a_schedule_over_untold_providers_is_told_alike(rt: HostRuntime) {
    check(&rt, REPLAYED);
}
