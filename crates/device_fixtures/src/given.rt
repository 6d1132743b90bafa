use challenge::Challenge;

/// The place of the first of so many rows that goes otherwise; behind them where they go right, and what is
/// left by them does not.
pub fn or_behind(place: Option<usize>, rows: usize, is_right: bool) -> Option<usize> {
    if place.is_none() && !is_right {
        return Some(rows);
    }
    place
}

/// The seed of the challenges.
const SEED: [u8; 32] = [
    177, 74, 118, 122, 222, 48, 6, 117, 101, 126, 116, 193, 72, 36, 68, 4, 49, 129, 168, 69, 205,
    174, 1, 200, 246, 125, 22, 196, 8, 2, 145, 83,
];

/// Four of the 96 rows of 16 stripes of six, by the seed of the first round of the first audit to object 1
/// under the master key of the bytes 0 to 31. A ChaCha20 written in Python from RFC 8439 gives it the rows
/// 19, 70, 6 and 24, and the weight below.
pub const CHALLENGE: Challenge = Challenge {
    seed: SEED,
    rows: 96,
    size: 6,
    picks: 4,
};

/// The same numbers modulo the six rows of one block: the rows 1, 4, 0 and 0.
pub const OF_ONE_BLOCK: Challenge = Challenge {
    seed: SEED,
    rows: 6,
    size: 6,
    picks: 4,
};

/// The weight that the challenge gives its first picked row, as the number of a symbol (below 2^128); by the
/// same Python.
pub const WEIGHT: u128 = 65_912_960_681_525_404_807_291_868_634_059_098_642;
