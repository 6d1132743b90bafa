// What the rows of several files share.

use std::process::Abort;

/// Passes where no row goes otherwise. Else the test ends with the place of the first that does.
pub fn no_other(rt: &impl Abort, place: Option<usize>) {
    assert_eq!(rt; place, None);
}

/// The end of the first audit, which finds one wrong answer of the third of four providers.
pub const AUDIT_DONE: [u8; 30] = [
    6, 1, 0, 0, 0, 0, 0, 0, 0, 0, 0, 0, 0, 4, 0, 0, 0, 0, 0, 0, 0, 0, 1, 0, 0, 0, 0, 0, 0, 0,
];

/// The first audit, due from a packed journal, with one wrong round of the third of four providers.
pub const DUE: [u8; 26] = [
    12, 1, 0, 0, 0, 0, 0, 0, 0, 4, 0, 0, 0, 0, 0, 0, 0, 0, 1, 0, 0, 0, 0, 0, 0, 0,
];
