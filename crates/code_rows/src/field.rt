use crate::given::no_other;
use hail_field::{Shape, Symbol};

/// The place of the first row whose third number is not the product of the others, from either side.
fn first_wrong_product(rows: &[(u128, u128, u128)]) -> Option<usize> {
    for place in 0..rows.len() {
        let (a, b, product) = rows[place];
        if Symbol(a).mul(Symbol(b)).0 != product || Symbol(b).mul(Symbol(a)).0 != product {
            return Some(place);
        }
    }
    None
}

/// Whether the products of a number with 0, 1 and so on are these.
fn are_multiples(a: u128, products: &[u128]) -> bool {
    for place in 0..products.len() {
        if Symbol(a).mul(Symbol(place as u128)).0 != products[place] {
            return false;
        }
    }
    true
}

/// The place of the first row with a wrong product.
fn first_wrong_multiples(rows: &[(u128, [u128; 16])]) -> Option<usize> {
    for (place, (a, products)) in rows.iter().enumerate() {
        if !are_multiples(*a, products) {
            return Some(place);
        }
    }
    None
}

/// The place of the first row whose third number is not the first to the power of the second.
fn first_wrong_power(rows: &[(u128, u32, u128)]) -> Option<usize> {
    for place in 0..rows.len() {
        let (a, exponent, power) = rows[place];
        if Symbol(a).pow(exponent).0 != power {
            return Some(place);
        }
    }
    None
}

/// The place of the first row whose symbol has another inverse, or none.
fn first_wrong_inverse(rows: &[(u128, u128)]) -> Option<usize> {
    for place in 0..rows.len() {
        let (a, inverse) = rows[place];
        if Symbol(a).inv() != Some(Symbol(inverse)) {
            return Some(place);
        }
    }
    None
}

/// The place of the first row whose number is spelled otherwise, or whose bytes spell another.
fn first_wrong_spelling(rows: &[(u128, [u8; 16])]) -> Option<usize> {
    for place in 0..rows.len() {
        let (number, bytes) = rows[place];
        if Symbol(number).to_bytes() != bytes || Symbol::from_bytes(bytes).0 != number {
            return Some(place);
        }
    }
    None
}

/// The place of the first row whose shape is made or refused wrongly.
fn first_wrong_shape(rows: &[(u8, u8, u8, bool)]) -> Option<usize> {
    for place in 0..rows.len() {
        let (n, l, b, is_made) = rows[place];
        if Shape::new(n, l, b).is_some() != is_made {
            return Some(place);
        }
    }
    None
}

static PRODUCTS: [(u128, u128, u128); 9] = [
    (2, 2, 3),
    (2, 3, 1),
    (3, 3, 2),
    (4, 4, 6),
    (8, 8, 13),
    (16, 16, 24),
    (256, 256, 384),
    (1 << 64, 1 << 64, 27_670_116_110_564_327_424),
    (
        170_141_183_460_469_231_731_687_303_715_884_118_073,
        85_070_591_730_234_615_865_843_651_858_929_707_185,
        300_811_656_294_689_809_880_988_711_510_307_766_638,
    ),
];

#[test]
fn multiplies_as_in_the_table(rt: HostRuntime) {
    no_other(&rt, first_wrong_product(&PRODUCTS));
}

/// The products with 0 to 15.
static MULTIPLES: [(u128, [u128; 16]); 3] = [
    (4, [0, 4, 8, 12, 6, 2, 14, 10, 11, 15, 3, 7, 13, 9, 5, 1]),
    (5, [0, 5, 10, 15, 2, 7, 8, 13, 3, 6, 9, 12, 1, 4, 11, 14]),
    (8, [0, 8, 12, 4, 11, 3, 7, 15, 13, 5, 1, 9, 6, 14, 10, 2]),
];

#[test]
fn small_multiples_are_those_of_the_table(rt: HostRuntime) {
    no_other(&rt, first_wrong_multiples(&MULTIPLES));
}

/// 0 has none.
static INVERSES: [(u128, u128); 4] = [(1, 1), (2, 3), (4, 15), (5, 12)];

#[test]
fn inverts_as_in_the_table(rt: HostRuntime) {
    no_other(&rt, first_wrong_inverse(&INVERSES));
}

#[test]
fn zero_has_no_inverse(rt: HostRuntime) {
    assert!(rt; Symbol(0).inv().is_none());
}

static POWERS: [(u128, u32, u128); 6] = [
    (0, 0, 1),
    (0, 1, 0),
    (7, 0, 1),
    (2, 2, 3),
    (4, 2, 6),
    (18, 255, 1),
];

#[test]
fn raises_as_in_the_table(rt: HostRuntime) {
    no_other(&rt, first_wrong_power(&POWERS));
}

#[test]
fn adds_and_knows_zero(rt: HostRuntime) {
    let sum = Symbol(6).add(Symbol(5)).0;
    assert!(rt; sum == 3 && Symbol::ZERO.is_zero() && !Symbol::ONE.is_zero());
}

static SPELLINGS: [(u128, [u8; 16]); 3] = [
    (5, [5, 0, 0, 0, 0, 0, 0, 0, 0, 0, 0, 0, 0, 0, 0, 0]),
    (1 << 64, [0, 0, 0, 0, 0, 0, 0, 0, 1, 0, 0, 0, 0, 0, 0, 0]),
    (u128::MAX, [255; 16]),
];

#[test]
fn spells_numbers_lowest_byte_first(rt: HostRuntime) {
    no_other(&rt, first_wrong_spelling(&SPELLINGS));
}

static SHAPES: [(u8, u8, u8, bool); 8] = [
    (4, 1, 1, true),
    (16, 13, 1, true),
    (7, 3, 1, true),
    (3, 0, 1, false),
    (17, 1, 1, false),
    (4, 2, 1, false),
    (5, 3, 0, false),
    (255, 255, 255, false),
];

#[test]
fn makes_the_shapes_within_the_limits(rt: HostRuntime) {
    no_other(&rt, first_wrong_shape(&SHAPES));
}
