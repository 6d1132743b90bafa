use crate::check::check;
use command_fixtures::Deed::{Done, OverSink, Refused};
use command_fixtures::Rows;

/// No call of the sink has this number.
const NEVER: u64 = u64::MAX;

/// Rows of five, of four and of seven providers. A row is given where all but b agree: an absent symbol counts
/// as one that does not.
const WORKED: &[Rows] = &[Rows::Deeds(&[
    Done("row 5 2 1 0 5 10 0 2", b"", b"0 5\n"),
    OverSink("row 5 2 1 0 5 10 0 0", b"", NEVER, 4, b"no row\n"),
    Refused("row 5 2 2 0 5 10 0 2", b"", 20, 0),
    Refused("row 5 2 1 0 5", b"", 2, 0),
    Done("row 4 1 1 7 7 7 9", b"", b"7\n"),
    Done("row 4 1 1 7 7 7 -", b"", b"7\n"),
    OverSink("row 4 1 1 7 7 9 9", b"", NEVER, 4, b"no row\n"),
    Done("row 7 3 1 1 1 1 1 1 1 2", b"", b"1 1 1\n"),
    OverSink("row 7 3 1 1 1 1 1 1 - 2", b"", NEVER, 4, b"no row\n"),
])];

#[test]
fn a_row_is_given_where_all_but_b_agree(rt: HostRuntime) {
    check(&rt, WORKED);
}

/// The largest symbol is a word of its form, and the number behind it none; nor is one that begins with 0.
const FORMS: &[Rows] = &[Rows::Deeds(&[
    Done(
        "row 4 1 1 7 7 7 340282366920938463463374607431768211455",
        b"",
        b"7\n",
    ),
    Refused(
        "row 4 1 1 7 7 7 340282366920938463463374607431768211456",
        b"",
        2,
        0,
    ),
    Refused("row 4 1 1 07 7 7 7", b"", 2, 0),
])];

#[test]
fn symbols_are_numbers_below_2_to_the_128(rt: HostRuntime) {
    check(&rt, FORMS);
}

/// The first write fails, of a row that is given and of one that is not.
const UNWRITTEN: &[Rows] = &[Rows::Deeds(&[
    OverSink("row 4 1 1 7 7 7 9", b"", 0, 15, b""),
    OverSink("row 4 1 1 7 7 9 9", b"", 0, 4, b""),
])];

#[test]
fn a_row_that_is_not_written_ends_with_15(rt: HostRuntime) {
    check(&rt, UNWRITTEN);
}
