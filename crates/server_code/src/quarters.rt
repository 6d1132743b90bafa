//! Encoding and checking a block in four quarters, of which the first three are the kept symbols: it is a
//! codeword exactly where the coefficients of its quarters, by the additive transform, add up to 0.
ghost use Rattle.std.specs.Prelude.{◌≡◌, ◌≤◌, ◌+◌, ◌*◌, ◌++◌, ◌↔◌, IsTrue, length, replicate};
ghost use Rattle.code_defs.specs.Polynomials.{plus};
ghost use Rattle.server_code.specs.Products.{AreProducts};
ghost use Rattle.server_code.specs.Transform.{places, coefficient_sum, level_of, first_of, inverse as inverse_of, forward as forward_of};

use crate::products::Multiples;
use crate::transform::{forward, inverse};
use hail_field::Symbol;

/// The most symbols of a quarter.
const WIDEST: usize = 32;

/// The quarters of the blocks of a profile: each has `width` symbols, which are 2^level, and `first` is the
/// node over the first.
#[derive(Clone, Copy)]
pub struct Quarters {
    pub level: u32,
    pub width: usize,
    pub first: usize,
    pub ghost least: { 3 ≤ level },
    pub ghost most: { level ≤ 5 },
    pub ghost width_is: { width ≡ places level },
    pub ghost narrow: { width ≤ 32 },
    pub ghost few: { first ≤ 16 },
    pub ghost nodes: { (first + 4) * places level ≤ 256 },
}

/// The quarters of the blocks of the profiles 2 to 4.
pub fn find_quarters(number: u8) -> Quarters
    ensures level { result.level ≡ level_of number }
    ensures first { result.first ≡ first_of number }
{
    match number {
        0 | 1 | 2 => Quarters {
            level: 3,
            width: 8,
            first: 16,
        },
        3 => Quarters {
            level: 4,
            width: 16,
            first: 8,
        },
        _ => Quarters {
            level: 5,
            width: 32,
            first: 4,
        },
    }
}

/// Adds symbols to others.
fn add_all(sum: &mut [Symbol], more: &[Symbol])
    requires even { length more.now ≡ length sum.old }
    ensures { sum.new ≡ plus sum.old more.now }
{
    for k in 0..sum.len() {
        sum[k] = sum[k].add(more[k]);
    }
}

/// Adds the coefficients of quarter `q`, which are made in `room`.
fn add_quarter(
    products: &[Multiples],
    quarters: Quarters,
    q: usize,
    symbols: &[Symbol],
    room: &mut [Symbol],
    sum: &mut [Symbol],
)
    requires products { AreProducts products.now }
    requires q { q ≤ 3 }
    requires symbols { length symbols.now ≡ quarters.width }
    requires room { length room.old ≡ quarters.width }
    requires sum { length sum.old ≡ quarters.width }
    ensures { sum.new ≡ plus sum.old (inverse_of quarters.level (quarters.first + q) symbols.now) }
{
    room.copy_from_slice(symbols);
    inverse(products, quarters.level, quarters.first + q, room);
    add_all(sum, room);
}

/// Fills `sum` with the sum of the coefficients of the first `count` quarters of a block.
fn add_quarters(
    products: &[Multiples],
    quarters: Quarters,
    count: usize,
    block: &[Symbol],
    room: &mut [Symbol],
    sum: &mut [Symbol],
)
    requires products { AreProducts products.now }
    requires count { count ≤ 4 }
    requires block { count * quarters.width ≤ length block.now }
    requires room { quarters.width ≤ length room.old }
    requires sum { length sum.old ≡ quarters.width }
    ensures { sum.new ≡ coefficient_sum quarters.level quarters.first count block.now }
{
    let width = quarters.width;
    sum.fill(Symbol::ZERO);
    for q in 0..count {
        let start = q * width;
        let symbols = &block[start..start + width];
        add_quarter(products, quarters, q, symbols, &mut room[..width], sum);
    }
}

/// The same, with room.
fn sum_quarters(
    products: &[Multiples],
    quarters: Quarters,
    count: usize,
    block: &[Symbol],
    sum: &mut [Symbol],
)
    requires products { AreProducts products.now }
    requires count { count ≤ 4 }
    requires block { count * quarters.width ≤ length block.now }
    requires sum { length sum.old ≡ quarters.width }
    ensures { sum.new ≡ coefficient_sum quarters.level quarters.first count block.now }
{
    let mut room = [Symbol::ZERO; WIDEST];
    add_quarters(products, quarters, count, block, &mut room, sum);
}

/// Fills the last quarter of a block.
fn fill_last(products: &[Multiples], quarters: Quarters, kept: &[Symbol], out: &mut [Symbol])
    requires products { AreProducts products.now }
    requires kept { length kept.now ≡ 3 * quarters.width }
    requires out { length out.old ≡ quarters.width }
    ensures { out.new ≡ forward_of quarters.level (quarters.first + 3)
        (coefficient_sum quarters.level quarters.first 3 kept.now) }
{
    sum_quarters(products, quarters, 3, kept, out);
    forward(products, quarters.level, quarters.first + 3, out);
}

/// Copies the kept symbols to the front, and fills the last quarter.
pub fn extend(products: &[Multiples], quarters: Quarters, kept: &[Symbol], out: &mut [Symbol])
    requires products { AreProducts products.now }
    requires kept { length kept.now ≡ 3 * quarters.width }
    requires out { length out.old ≡ length kept.now + quarters.width }
    ensures { out.new ≡ kept.now ++ forward_of quarters.level (quarters.first + 3)
        (coefficient_sum quarters.level quarters.first 3 kept.now) }
{
    let keep = kept.len();
    out[..keep].copy_from_slice(kept);
    fill_last(products, quarters, kept, &mut out[keep..]);
}

/// Whether all symbols are 0.
fn are_zero(symbols: &[Symbol]) -> bool
    ensures { IsTrue result ↔ (symbols.now ≡ replicate (length symbols.now) 0) }
{
    for k in 0..symbols.len() {
        if !symbols[k].is_zero() {
            return false;
        }
    }
    true
}

/// Whether the coefficients of all quarters add up to 0; they are added in `sum`.
fn is_extended_within(
    products: &[Multiples],
    quarters: Quarters,
    block: &[Symbol],
    sum: &mut [Symbol],
) -> bool
    requires products { AreProducts products.now }
    requires block { length block.now ≡ 4 * quarters.width }
    requires sum { length sum.old ≡ quarters.width }
    ensures { IsTrue result ↔ (coefficient_sum quarters.level quarters.first 4 block.now
        ≡ replicate quarters.width 0) }
{
    sum_quarters(products, quarters, 4, block, sum);
    are_zero(sum)
}

/// The same, in the front of more room.
fn is_extended_in_front(
    products: &[Multiples],
    quarters: Quarters,
    block: &[Symbol],
    sum: &mut [Symbol],
) -> bool
    requires products { AreProducts products.now }
    requires block { length block.now ≡ 4 * quarters.width }
    requires sum { length sum.old ≡ WIDEST }
    ensures { IsTrue result ↔ (coefficient_sum quarters.level quarters.first 4 block.now
        ≡ replicate quarters.width 0) }
{
    is_extended_within(products, quarters, block, &mut sum[..quarters.width])
}

/// Whether the coefficients of all quarters of a block add up to 0.
pub fn is_extended(products: &[Multiples], quarters: Quarters, block: &[Symbol]) -> bool
    requires products { AreProducts products.now }
    requires block { length block.now ≡ 4 * quarters.width }
    ensures { IsTrue result ↔ (coefficient_sum quarters.level quarters.first 4 block.now
        ≡ replicate quarters.width 0) }
{
    let mut sum = [Symbol::ZERO; WIDEST];
    is_extended_in_front(products, quarters, block, &mut sum)
}
