use crate::given::{MASK_KEY, SEED, numbered_key};
use hail_field::Symbol;
use key_schedule::*;

const KEY: &[u8] = b"000102030405060708090A0b0c0d0e0f101112131415161718191a1b1C1d1e1f";

const NO_KEY: &[u8] = b"00g102030405060708090a0b0c0d0e0f101112131415161718191a1b1c1d1e1f";

#[test]
fn only_sixty_four_digits_spell_a_key(rt: HostRuntime) {
    let read = [
        Master::from_hex(KEY),
        Master::from_hex(&KEY[1..]),
        Master::from_hex(&KEY[..62]),
        Master::from_hex(NO_KEY),
    ];
    assert_eq!(rt; read, [Some(numbered_key()), None, None, None]);
}

/// The point of a secondary provider, and that of a primary one.
const POINTS: [Symbol; 2] = [
    Symbol(188_778_904_649_298_566_531_513_295_554_068_795_139),
    Symbol(2),
];

/// Whether keys, a seed and points are the known ones.
fn are_known(master: &Master) -> bool {
    let points = [point(master, 3, 1, 3), point(master, 3, 1, 2)];
    points == POINTS && file_key(master, b'M', 1, 3) == MASK_KEY && seed(master, 1, 1, 0) == SEED
}

// Python's hashlib computed these values.
#[test]
fn keys_are_as_computed_elsewhere(rt: HostRuntime) {
    assert!(rt; are_known(&numbered_key()));
}
