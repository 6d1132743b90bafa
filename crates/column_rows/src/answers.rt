ghost use Rattle.std.specs.Prelude.{None, Some};

use crate::given::{CHALLENGE, MASK_KEY};
use aggregate::*;
use hail_field::Symbol;

/// The same block in each stripe.
#[derive(Drop)]
struct Same([Symbol; 6]);

impl Blocks for Same {
    ghost held = { λ blocks stripe. Some blocks.0 };

    fn at(&self, stripe: u32, place: u32, size: u32) -> Option<Symbol> {
        let _ = stripe;
        if size == 6 {
            Some(self.0[place as usize])
        } else {
            None
        }
    }
}

/// No block.
#[derive(Drop)]
struct Nothing;

impl Blocks for Nothing {
    ghost held = { λ blocks stripe. None };

    fn at(&self, stripe: u32, place: u32, size: u32) -> Option<Symbol> {
        let _ = (stripe, place, size);
        None
    }
}

/// The symbols of the block.
const BLOCK: [Symbol; 6] = [
    Symbol(5),
    Symbol((1 << 127) + 9),
    Symbol(1 << 64),
    Symbol(7),
    Symbol((1 << 100) + 3),
    Symbol(1),
];

/// The answer to the challenge, none of no block, and the sum of the masks.
const ANSWERS: [Option<Symbol>; 3] = [
    Some(Symbol(282_382_073_608_155_101_318_765_447_739_515_010_375)),
    None,
    Some(Symbol(186_073_828_432_353_188_380_391_439_944_653_270_136)),
];

// Keys, rows and products written in Python from the definitions gave these values.
#[test]
fn answers_are_as_computed_elsewhere(rt: HostRuntime) {
    let answers = [
        answer(&CHALLENGE, &Same(BLOCK)),
        answer(&CHALLENGE, &Nothing),
        Some(mask_sum(&MASK_KEY, &CHALLENGE)),
    ];
    laws::right_answers_are_a_row();
    assert_eq!(rt; answers, ANSWERS);
}
