//! The laws of the field.
ghost use Rattle.std.specs.Prelude.{◌≡◌, ◌≢◌, ◌≤◌, ◌<◌, ◌+◌, ◌*◌, ◌/◌, ◌^◌, ℕ, All, map, slice_index};
ghost use Rattle.std.specs.Int.{w128, from_le_bytes, to_le_bytes};
ghost use Rattle.algebra_laws.specs.Field.{IsField, IsEndless};
ghost use Rattle.hail_field.specs.Shape.{IsShape};
ghost use Rattle.hail_field.specs.Nim.{product, width, nim, nim_add, nim_mul, nim_pow, nim_inv, is_symbol};

use crate::tables::{BY_16, EXP, LOG, MULTIPLES, SCALE};
use crate::{Shape, Symbol};

/// All numbers are a field under the sum and the product.
pub fn numbers_are_field()
    ensures { IsField nim }
{}

/// There are infinitely many numbers, so polynomials over them that have the same values are the same.
pub fn numbers_are_endless()
    ensures { IsEndless ℕ }
{}

/// A symbol's number is below 2^128.
pub fn symbol_is_number(a: Symbol)
    ensures { is_symbol a }
{}

/// Each symbol of a slice is such a number. A check learns it of an element once it is read, so this reads
/// them all.
pub fn symbols_are_numbers(items: &[Symbol])
    ensures { All is_symbol items.now }
{
    for k in 0..items.len() {
        symbol_is_number(items[k]);
    }
}

/// The product of symbols is that of the textbook at level 7, where numbers have 128 bits.
pub fn product_is_at_level_7(a: Symbol, b: Symbol)
    ensures { nim_mul a b ≡ product 7 a b }
{}

/// The sum of symbols is one.
pub fn sum_is_symbol(a: Symbol, b: Symbol)
    ensures { is_symbol (nim_add a b) }
{}

/// The product of symbols is one.
pub fn product_is_symbol(a: Symbol, b: Symbol)
    ensures { is_symbol (nim_mul a b) }
{}

/// The inverse of a symbol is one.
pub fn inverse_is_symbol(a: Symbol)
    ensures { is_symbol (nim_inv a) }
{}

/// Zero changes no sum, and what is added twice is gone.
pub fn sum_cancels(a: Symbol)
    ensures zero { nim_add a 0 ≡ a }
    ensures twice { nim_add a a ≡ 0 }
{}

/// The sum commutes.
pub fn sum_commutes(a: Symbol, b: Symbol)
    ensures { nim_add a b ≡ nim_add b a }
{}

/// The sum associates.
pub fn sum_associates(a: Symbol, b: Symbol, c: Symbol)
    ensures { nim_add (nim_add a b) c ≡ nim_add a (nim_add b c) }
{}

/// The product commutes.
pub fn product_commutes(a: Symbol, b: Symbol)
    ensures { nim_mul a b ≡ nim_mul b a }
{}

/// The product associates.
pub fn product_associates(a: Symbol, b: Symbol, c: Symbol)
    ensures { nim_mul (nim_mul a b) c ≡ nim_mul a (nim_mul b c) }
{}

/// The product distributes over the sum.
pub fn product_distributes(a: Symbol, b: Symbol, c: Symbol)
    ensures { nim_mul a (nim_add b c) ≡ nim_add (nim_mul a b) (nim_mul a c) }
{}

/// One changes no product.
pub fn one_is_neutral(a: Symbol)
    ensures { nim_mul a 1 ≡ a }
{}

/// The power 0 is 1, also of zero, and each power is the one before, times the number.
pub fn powers_are_products(a: Symbol, exponent: u32)
    ensures none { nim_pow a 0 ≡ 1 }
    ensures next { nim_pow a (exponent + 1) ≡ nim_mul a (nim_pow a exponent) }
{}

/// A number times its inverse is 1.
pub fn inverse_gives_one(a: Symbol)
    requires { a ≢ 0 }
    ensures { nim_mul a (nim_inv a) ≡ 1 }
{}

/// What gives 1 is the inverse.
pub fn inverse_is_one(a: Symbol, b: Symbol)
    requires { nim_mul a b ≡ 1 }
    ensures { b ≡ nim_inv a }
{}

/// The product of two numbers of width `2 ^ level` is of that width, and the same at each greater width.
/// Levels 0 to 7 are the widths 1, 2, 4, 8, 16, 32, 64 and 128.
pub fn product_keeps_width(level: u8, above: u8, a: u128, b: u128)
    requires levels { level ≤ above }
    requires a_fits { a < 2 ^ width level }
    requires b_fits { b < 2 ^ width level }
    ensures within { nim_mul a b < 2 ^ width level }
    ensures same { product above a b ≡ nim_mul a b }
{}

/// Each number below 2^(2^level) that is not 0 has an inverse below that bound. Levels 0 to 7 are the widths
/// 1, 2, 4, 8, 16, 32, 64 and 128.
pub fn inverse_keeps_width()
    ensures within { (level a : ℕ) → a < 2 ^ width level → nim_inv a < 2 ^ width level }
    ensures inverse { (level a : ℕ) → a < 2 ^ width level → a ≢ 0 → nim_mul a (nim_inv a) ≡ 1 }
{}

/// `F = 2^(2^level)`, the first number past a level, times a smaller number is their product as numbers, and
/// F times F is F xor F / 2.
pub fn products_by_level_bound()
    ensures smaller { (level x : ℕ) → x < 2 ^ width level
        → nim_mul (2 ^ width level) x ≡ 2 ^ width level * x }
    ensures square { (level : ℕ) → nim_mul (2 ^ width level) (2 ^ width level) ≡ nim_add (2 ^ width level)
        (2 ^ width level / 2) }
{}

/// An instance: 2 is below 2^(2^1) and not 0, its inverse is 3; and 256 = 2^(2^3) times 200 is 51,200, 256
/// times 256 is 384.
pub fn two_and_256_are_multiplied()
    ensures premise { (2 < 2 ^ width 1) × (200 < 2 ^ width 3) }
    ensures inverse { nim_inv 2 ≡ 3 }
    ensures smaller { nim_mul 256 200 ≡ 51200 }
    ensures square { nim_mul 256 256 ≡ 384 }
{}

/// A symbol comes back from its bytes.
pub fn bytes_give_symbol_back(a: Symbol)
    ensures { from_le_bytes w128 (to_le_bytes w128 a) ≡ a }
{}

/// Bytes come back from their symbol.
pub fn symbol_gives_bytes_back(bytes: [u8; 16])
    ensures { to_le_bytes w128 (from_le_bytes w128 bytes) ≡ bytes }
{}

/// A shape keeps its limits.
pub fn shape_fits(shape: Shape)
    ensures { IsShape shape.n shape.l shape.b }
{
    let _ = shape;
}

/// The numbers below 256 act on each byte of a symbol by itself: the bytes of the product are the products of
/// the bytes.
pub fn bytes_of_product(a: Symbol, c: u8)
    ensures bytes { to_le_bytes w128 (nim_mul a c) ≡ map (λ byte. nim_mul byte c) (to_le_bytes w128 a) }
    ensures number { nim_mul a c ≡ from_le_bytes w128 (map (λ byte. nim_mul byte c) (to_le_bytes w128 a)) }
{}

/// Each entry of `EXP` is the power of 18 at its index.
pub fn exp_is_power(exponent: u16)
    requires { exponent < 512 }
    ensures { slice_index EXP exponent ≡ nim_pow 18 exponent }
{}

/// Each entry of `LOG` but the first is the exponent, below 255, at which the power of 18 is the entry's
/// index.
pub fn log_is_exponent(byte: u8)
    requires { byte ≢ 0 }
    ensures power { nim_pow 18 (slice_index LOG byte) ≡ byte }
    ensures below { slice_index LOG byte < 255 }
{}

/// Each entry of `SCALE` is 128 times its index.
pub fn scale_is_multiple(byte: u8)
    ensures { slice_index SCALE byte ≡ nim_mul 128 byte }
{}

/// Each entry of `BY_16` is 16 times its index.
pub fn by_16_is_multiple(byte: u8)
    ensures { slice_index BY_16 byte ≡ nim_mul 16 byte }
{}

/// Each byte of an entry of `MULTIPLES`, lowest first, is the product of its place and the index of the
/// entry.
pub fn multiples_are_products(byte: u8, place: u8)
    requires { place < 16 }
    ensures { slice_index (to_le_bytes w128 (slice_index MULTIPLES byte)) place ≡ nim_mul place byte }
{}
