ghost use Rattle.std.specs.Prelude.{◌≡◌, ◌<◌, ◌≤◌, ◌-◌, length, replicate, slice_set, slice_index, EachIndex};
ghost use Rattle.std.specs.List.{range_with_len};
ghost use Rattle.code_defs.specs.Polynomials.{value, vanish};
ghost use Rattle.code_defs.specs.Points.{upto, multiplier as multiplier_of};
ghost use Rattle.code_defs.specs.ServerCode.{IsGeneratorRow};
ghost use Rattle.code_points.specs.Profile.{plain_profile, AreKeptMultipliers};

use crate::bytes::{byte_inverse, byte_product, byte_sum};
use crate::profile::Profile;
use crate::table::byte_multiplier;
use hail_field::Symbol;

/// The most kept symbols of a block.
const MOST_KEPT: usize = 96;

/// The point at a place, which is a byte.
fn point(place: u32) -> u8
    requires { place < 256 }
    ensures { result ≡ place }
{
    place as u8
}

/// The product of x + point over the points from `start` to before `end`.
#[tactic(auto, using(crate::proofs::Steps::product_start, crate::proofs::Steps::product_step))]
fn product_of_sums(x: u8, start: u32, end: u32) -> u8
    requires order { start ≤ end }
    requires bytes { end ≤ 256 }
    ensures { result ≡ value (vanish (range_with_len start (end - start))) x }
{
    let mut product = 1;
    for place in (start..end).rev() {
        product = byte_product(byte_sum(point(place), x), product);
    }
    product
}

/// The multiplier of a kept point among the kept points.
fn kept_multiplier(profile: Profile, place: u32) -> u8
    requires { place < profile.keep }
    ensures { result ≡ multiplier_of place (upto profile.keep) }
{
    let rest = product_of_sums(point(place), profile.keep, profile.size);
    byte_product(byte_multiplier(profile, place), rest)
}

/// The coefficients of a kept place: 1 at the place itself.
fn kept_row(place: usize, out: &mut [Symbol])
    requires { place < length out.old }
    ensures { out.new ≡ slice_set (replicate (length out.old) 0) place 1 }
{
    out.fill(Symbol::ZERO);
    out[place] = Symbol::ONE;
}

/// Fills `out` with the multipliers of the kept points among these, in order: `parity_row` takes them for
/// each row.
pub fn kept_multipliers(profile: Profile, out: &mut [u8])
    requires { length out.old ≡ profile.keep }
    ensures { AreKeptMultipliers profile.keep out.new }
{
    for k in 0..profile.keep {
        out[k as usize] = kept_multiplier(profile, k);
    }
}

/// Fills `out` with the coefficients by which the codeword's symbol at a place behind the kept ones is a sum
/// over the kept symbols, by Lagrange's formula. They are bytes.
pub fn parity_row(profile: Profile, multipliers: &[u8], place: u32, out: &mut [Symbol])
    requires behind { profile.keep ≤ place }
    requires place { place < profile.size }
    requires multipliers { AreKeptMultipliers profile.keep multipliers.now }
    requires out { length out.old ≡ profile.keep }
    ensures row { IsGeneratorRow (plain_profile profile) place out.new }
    ensures bytes { EachIndex out.new (λ k. slice_index out.new k < 256) }
{
    let whole = product_of_sums(point(place), 0, profile.keep);
    for k in 0..profile.keep {
        let gap = byte_sum(point(place), point(k));
        let ratio = byte_product(whole, byte_inverse(gap));
        let coefficient = byte_product(ratio, multipliers[k as usize]);
        out[k as usize] = Symbol(u128::from(coefficient));
    }
}

/// The same, with room for the multipliers.
fn parity_row_within(profile: Profile, place: u32, multipliers: &mut [u8], out: &mut [Symbol])
    requires behind { profile.keep ≤ place }
    requires place { place < profile.size }
    requires room { length multipliers.old ≡ profile.keep }
    requires out { length out.old ≡ profile.keep }
    ensures row { IsGeneratorRow (plain_profile profile) place out.new }
    ensures bytes { EachIndex out.new (λ k. slice_index out.new k < 256) }
{
    kept_multipliers(profile, multipliers);
    parity_row(profile, multipliers, place, out);
}

/// The same, in the front of more room.
fn parity_row_in_front(profile: Profile, place: u32, room: &mut [u8], out: &mut [Symbol])
    requires behind { profile.keep ≤ place }
    requires place { place < profile.size }
    requires room { profile.keep ≤ length room.old }
    requires out { length out.old ≡ profile.keep }
    ensures row { IsGeneratorRow (plain_profile profile) place out.new }
    ensures bytes { EachIndex out.new (λ k. slice_index out.new k < 256) }
{
    parity_row_within(profile, place, &mut room[..profile.keep as usize], out);
}

/// Fills `out` with the coefficients by which the codeword's symbol at `place` is a sum over the kept
/// symbols. They are bytes, since the points are.
pub fn generator_row(profile: Profile, place: u32, out: &mut [Symbol])
    requires place { place < profile.size }
    requires out { length out.old ≡ profile.keep }
    ensures row { IsGeneratorRow (plain_profile profile) place out.new }
    ensures bytes { EachIndex out.new (λ k. slice_index out.new k < 256) }
{
    if place < profile.keep {
        kept_row(place as usize, out);
    } else {
        parity_row_in_front(profile, place, &mut [0; MOST_KEPT], out);
    }
}
