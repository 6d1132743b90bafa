use bench_works::{Failure, measured};
use std::alloc::Global;
use std::rt::Clock;

/// The words of a command line, and the count and checksum of the work that they name, if any.
type Row = (&'static [&'static str], Option<(u32, u128)>);

static ROWS: [Row; 27] = [
    (
        &["product", "7"],
        Some((7, 0xa74e77dc34e99f75f5dc39939cf0a241)),
    ),
    (&["inverse", "0"], Some((0, 0))),
    (&["square"], None),
    (&["square", "x"], None),
    (&["square", "1", "2"], None),
    (&["sum", "1"], None),
    (
        &["product", "60"],
        Some((60, 0xe7978f9a0a8b55eba3b120ca83c1579f)),
    ),
    (
        &["square", "60"],
        Some((60, 0xf24dc31f95ee265573f96b936b77cfc9)),
    ),
    (
        &["encode", "0", "3"],
        Some((3, 0x4fd96d88103b4ce6a4806f5e6c3cb66b)),
    ),
    (
        &["encode", "1", "2"],
        Some((2, 0x1228af07096c1da4fe966f39d46292fe)),
    ),
    (&["encode", "5", "1"], None),
    (&["encode", "1"], None),
    (
        &["decode", "0", "3", "2"],
        Some((3, 0x6f6b3d7b3a64bda483453943a9d07dae)),
    ),
    (
        &["decode", "1", "2", "0"],
        Some((2, 0xa921bc115b1fcb726bd00a665fb7a286)),
    ),
    (
        &["decode", "1", "2", "4"],
        Some((2, 0xb8cabd0bba42dc9a02364c6b0ad86616)),
    ),
    (&["decode", "1", "2", "5"], None),
    (&["decode", "256", "1", "0"], None),
    (&["put-stripes", "4", "1", "1", "0", "0"], Some((0, 0))),
    (
        &["get-stripes", "4", "1", "1", "0", "33"],
        Some((2, 0x6a592e90057a96de7bc4ce553c837602)),
    ),
    (&["put-stripes", "5", "2", "2", "0", "1"], None),
    (&["put-stripes", "4", "1", "1", "5", "1"], None),
    (&["get-stripes", "4", "1", "1", "0", "4194305"], None),
    (
        &["get-spoilt", "codewords", "1", "4", "1", "1", "0", "33"],
        Some((2, 0x6a592e90057a96de7bc4ce553c837602)),
    ),
    (
        &["get-spoilt", "errors", "4", "4", "1", "1", "0", "33"],
        Some((2, 0x6a592e90057a96de7bc4ce553c837602)),
    ),
    (
        &["get-spoilt", "garbage", "2", "4", "1", "1", "0", "33"],
        None,
    ),
    (
        &["audit", "4", "1", "1", "2", "3"],
        Some((2, 0x884a4135d531b39a05c9c968222a5b5e)),
    ),
    (&["audit", "4", "1", "1", "65", "3"], None),
];

/// These words, owned.
fn owned(alloc: Global, words: &[&str]) -> Result<Vec<String>, Failure> {
    let mut owned = Vec::new(alloc);
    for word in words {
        owned.push(String::from_str(alloc, word)?)?;
    }
    Ok(owned)
}

/// Whether a row goes as it says.
fn goes_so(rt: &(impl AllocGlobal + Clock), (words, wanted): &Row) -> Result<bool, Failure> {
    match measured(rt, &owned(rt.alloc(), words)?) {
        Ok((outcome, _)) => Ok(*wanted == Some((outcome.count, outcome.checksum))),
        Err(Failure::Usage) => Ok(wanted.is_none()),
        Err(Failure::Fault) => Ok(false),
    }
}

/// The place of the first row that goes otherwise.
fn first_other_row(rt: &(impl AllocGlobal + Clock)) -> Option<usize> {
    for (place, row) in ROWS.iter().enumerate() {
        if !matches!(goes_so(rt, row), Ok(true)) {
            return Some(place);
        }
    }
    None
}

// Python gave the checksums of products, other programs some of the others.
#[test]
fn works_are_done_that_words_name(rt: HostRuntime) {
    assert_eq!(rt; first_other_row(&rt), None);
}
