use crate::given::{CHALLENGE, SEED};
use challenge::Challenge;
use hail_field::Symbol;

/// The same picks among 2^32 rows.
const WIDE: Challenge = Challenge {
    seed: SEED,
    rows: 1 << 32,
    size: 6,
    picks: 4,
};

/// The picked rows, and the first two among 2^32.
const ROWS: [u64; 6] = [19, 70, 6, 24, 1_823_315_891, 1_879_516_262];

// A ChaCha20 written in Python from RFC 8439 computed these values.
#[test]
fn weight_and_rows_are_as_computed_elsewhere(rt: HostRuntime) {
    let rows = [
        CHALLENGE.row(0),
        CHALLENGE.row(1),
        CHALLENGE.row(2),
        CHALLENGE.row(3),
        WIDE.row(0),
        WIDE.row(1),
    ];
    let alpha = Symbol(65_912_960_681_525_404_807_291_868_634_059_098_642);
    assert!(rt; CHALLENGE.alpha() == alpha && rows == ROWS);
}
