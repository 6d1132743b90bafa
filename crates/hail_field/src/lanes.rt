//! The product of two numbers below 2^128 by products with bytes, each of which looks up all bytes of the
//! other number at once.
ghost use Rattle.std.specs.Prelude.{◌≡◌, ◌^◌, slice_index};
ghost use Rattle.std.specs.Int.{w128, to_le_bytes};
ghost use Rattle.hail_field.specs.Nim.{product, nim_add, nim_mul};
ghost use Rattle.hail_field.specs.declared.tables.TheConstants.{MULTIPLES};

use crate::tables::{BY_16, MULTIPLES};
use std::simd::prelude::*;

// The lower half of each lane of 16, 32, 64 and 128 bits.
const LOWER_8: u128 = 0x00ff_00ff_00ff_00ff_00ff_00ff_00ff_00ff;

const LOWER_16: u128 = 0x0000_ffff_0000_ffff_0000_ffff_0000_ffff;

const LOWER_32: u128 = 0x0000_0000_ffff_ffff_0000_0000_ffff_ffff;

const LOWER_64: u128 = 0x0000_0000_0000_0000_ffff_ffff_ffff_ffff;

/// The product with 2^bits, by that with 2^(bits - 1): 2^bits moves the lower half of a lane up, and its
/// square is the sum of both.
macro_rules! product_with_bound {
    ($a:expr, $bits:literal, $lower:ident, $with_half:path) => {{
        let down = $a >> $bits;
        let upper = down & $lower;
        let both = (down ^ $a) & $lower;
        let half = $with_half(upper);
        (both << $bits) ^ half
    }};
}

/// The bytes of a number, lowest first. The two halves go into a vector faster than the bytes would.
#[inline(always)]
fn bytes_of(a: u128) -> u8x16
    ensures { result ≡ to_le_bytes w128 a }
{
    let low = (a % 18_446_744_073_709_551_616) as u64;
    let high = (a >> 64) as u64;
    u64x2::from_array([low, high]).to_le_bytes()
}

/// The products of a byte with the numbers below 16.
#[inline(always)]
fn multiples(c: u8) -> u8x16
    ensures { result ≡ to_le_bytes w128 (slice_index MULTIPLES c) }
{
    bytes_of(MULTIPLES[c as usize])
}

/// The product with a byte, which acts on each byte by itself: the products of the low and of the high
/// halves of all bytes are looked
/// up at once.
#[inline(always)]
fn scaled(a: u128, c: u8) -> u128
    ensures { result ≡ nim_mul a c }
{
    let bytes = bytes_of(a);
    let of_low = multiples(c);
    let of_high = multiples(BY_16[c as usize]);
    let low = of_low.swizzle_dyn_within::<16>(bytes & u8x16::splat(15));
    let high = of_high.swizzle_dyn_within::<16>(bytes >> u8x16::splat(4));
    let out = low ^ high;
    u128::from_le_bytes(out.to_array())
}

/// The product with 2^7.
#[inline(always)]
fn with_half_8(a: u128) -> u128
    ensures { result ≡ nim_mul a (2 ^ 7) }
{
    scaled(a, 128)
}

/// The product with 2^8.
#[inline(always)]
fn with_8(a: u128) -> u128
    ensures { result ≡ nim_mul a (2 ^ 8) }
{
    product_with_bound!(a, 8, LOWER_8, with_half_8)
}

/// The product with 2^15.
#[inline(always)]
fn with_half_16(a: u128) -> u128
    ensures { result ≡ nim_mul a (2 ^ 15) }
{
    let half = with_half_8(a);
    with_8(half)
}

/// The product with 2^16.
#[inline(always)]
fn with_16(a: u128) -> u128
    ensures { result ≡ nim_mul a (2 ^ 16) }
{
    product_with_bound!(a, 16, LOWER_16, with_half_16)
}

/// The product with 2^31.
#[inline(always)]
fn with_half_32(a: u128) -> u128
    ensures { result ≡ nim_mul a (2 ^ 31) }
{
    let half = with_half_16(a);
    with_16(half)
}

/// The product with 2^32.
#[inline(always)]
fn with_32(a: u128) -> u128
    ensures { result ≡ nim_mul a (2 ^ 32) }
{
    product_with_bound!(a, 32, LOWER_32, with_half_32)
}

/// The product with 2^63.
#[inline(always)]
fn with_half_64(a: u128) -> u128
    ensures { result ≡ nim_mul a (2 ^ 63) }
{
    let half = with_half_32(a);
    with_32(half)
}

/// The product with 2^64.
#[inline(always)]
fn with_64(a: u128) -> u128
    ensures { result ≡ nim_mul a (2 ^ 64) }
{
    product_with_bound!(a, 64, LOWER_64, with_half_64)
}

/// A number and its product with 2^8.
#[derive(Clone, Copy)]
struct Factor {
    once: u128,
    shifted: u128,
    ghost is_shifted: { shifted ≡ nim_mul once (2 ^ 8) },
}

impl Factor {
    #[inline(always)]
    fn new(a: u128) -> Factor
        ensures { result.once ≡ a }
    {
        Factor {
            once: a,
            shifted: with_8(a),
        }
    }

    /// The product with a number of two bytes.
    #[inline(always)]
    fn scaled(self, c: u16) -> u128
        ensures { result ≡ nim_mul self.once c }
    {
        let high = scaled(self.shifted, (c >> 8) as u8);
        let low = scaled(self.once, (c % 256) as u8);
        high ^ low
    }
}

/// The sum of two products with numbers of two bytes.
#[inline(always)]
fn sum_16(a: Factor, b: u16, c: Factor, d: u16) -> u128
    ensures { result ≡ nim_add (nim_mul a.once b) (nim_mul c.once d) }
{
    let left = a.scaled(b);
    let right = c.scaled(d);
    left ^ right
}

/// The sum of two products with numbers of four bytes.
#[inline(always)]
fn sum_32(a: Factor, b: u32, c: Factor, d: u32) -> u128
    ensures { result ≡ nim_add (nim_mul a.once b) (nim_mul c.once d) }
{
    let high = sum_16(a, (b >> 16) as u16, c, (d >> 16) as u16);
    let low = sum_16(a, (b % 65_536) as u16, c, (d % 65_536) as u16);
    let shifted = with_16(high);
    shifted ^ low
}

/// The sum of two products with numbers of eight bytes.
#[inline(always)]
fn sum_64(a: Factor, b: u64, c: Factor, d: u64) -> u128
    ensures { result ≡ nim_add (nim_mul a.once b) (nim_mul c.once d) }
{
    let high = sum_32(a, (b >> 32) as u32, c, (d >> 32) as u32);
    let low = sum_32(a, (b % 4_294_967_296) as u32, c, (d % 4_294_967_296) as u32);
    let shifted = with_32(high);
    shifted ^ low
}

/// The product of two numbers below 2^128, whatever they are.
fn product_of_both(a: u128, b: u128) -> u128
    ensures { result ≡ nim_mul a b }
{
    let shifted = with_64(a);
    let low = (b % 18_446_744_073_709_551_616) as u64;
    let high = (b >> 64) as u64;
    sum_64(Factor::new(a), low, Factor::new(shifted), high)
}

/// The product of two numbers below 2^128 (Conway). One look-up does where one of them is a byte, as points
/// and their weights often are.
pub fn product_128(a: u128, b: u128) -> u128
    ensures { result ≡ product 7 a b }
{
    if a < 256 {
        scaled(b, a as u8)
    } else if b < 256 {
        scaled(a, b as u8)
    } else {
        product_of_both(a, b)
    }
}
