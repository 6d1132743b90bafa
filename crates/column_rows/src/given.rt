// Keys, a seed and a challenge that several rows start from.

use challenge::Challenge;
use key_schedule::Master;

/// The master key of the bytes 0 to 31.
pub fn numbered_key() -> Master {
    let mut bytes = [0; 32];
    for (place, byte) in bytes.iter_mut().enumerate() {
        *byte = place as u8;
    }
    Master(bytes)
}

/// The seed of the first round of the first audit to object 1 under that master key.
pub const SEED: [u8; 32] = [
    177, 74, 118, 122, 222, 48, 6, 117, 101, 126, 116, 193, 72, 36, 68, 4, 49, 129, 168, 69, 205,
    174, 1, 200, 246, 125, 22, 196, 8, 2, 145, 83,
];

/// The key of the masks of provider 3 for object 1 under that master key.
pub const MASK_KEY: [u8; 32] = [
    167, 187, 129, 227, 41, 81, 35, 176, 235, 147, 63, 13, 2, 213, 109, 34, 52, 201, 92, 41, 237,
    226, 202, 15, 106, 128, 223, 167, 102, 253, 58, 44,
];

/// Four of the 96 rows of 16 stripes of six, by that seed.
pub const CHALLENGE: Challenge = Challenge {
    seed: SEED,
    rows: 96,
    size: 6,
    picks: 4,
};
