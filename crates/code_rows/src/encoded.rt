//! Codewords against the plain sums of the kept symbols by the coefficients of each place.
ghost use Rattle.std.specs.Prelude.{◌≡◌, length};
ghost use Rattle.server_code.specs.Any.{code_profile};

use crate::given::no_other;
use code_points::{find_profile, generator_row};
use hail_field::Symbol;
use server_code::AnyCode;
use std::alloc::Global;
use std::process::Abort;

/// Fills with symbols of which all bytes differ.
fn fill(kept: &mut [Symbol])
    ensures { length kept.new ≡ length kept.old }
{
    let mut x: u128 = 0x0123_4567_89ab_cdef_0fed_cba9_8765_4321;
    for k in 0..kept.len() {
        x = x.wrapping_mul(0x2360_ed05_1fc6_5da4_4385_df64_9fcc_f645);
        x ^= x >> 61;
        kept[k] = Symbol(x);
    }
}

/// The sum of each coefficient times the symbol at its place.
fn plain_sum(row: &[Symbol], kept: &[Symbol]) -> Symbol
    requires { length row.now ≡ length kept.now }
{
    let mut sum = Symbol::ZERO;
    for k in 0..row.len() {
        sum = sum.add(row[k].mul(kept[k]));
    }
    sum
}

/// Whether each symbol of a codeword is the plain sum, and the block is told from one with a changed symbol.
fn is_plain_within(
    code: &AnyCode,
    kept: &mut [Symbol],
    row: &mut [Symbol],
    block: &mut [Symbol],
) -> bool
    requires kept { length kept.old ≡ (code_profile code.now).keep }
    requires row { length row.old ≡ (code_profile code.now).keep }
    requires block { length block.old ≡ (code_profile code.now).size }
{
    let profile = code.profile();
    fill(kept);
    code.encode_into(kept, block);
    for place in 0..profile.size {
        generator_row(profile, place, row);
        if plain_sum(row, kept) != block[place as usize] {
            return false;
        }
    }
    let is_clean = code.is_codeword(block);
    for place in 0..block.len() {
        block[place] = block[place].add(Symbol::ONE);
        if code.is_codeword(block) {
            return false;
        }
        block[place] = block[place].add(Symbol::ONE);
    }
    is_clean && code.is_codeword(block)
}

/// Whether the code of a profile encodes and checks so.
fn is_plain(rt: &impl Abort, alloc: Global, number: u8) -> bool {
    let profile = find_profile(number).expect(rt, "a known number");
    let code = AnyCode::new(alloc, profile).expect(rt, "memory");
    let keep = code.profile().keep as usize;
    let size = code.profile().size as usize;
    let mut kept = [Symbol::ZERO; 96];
    let mut row = [Symbol::ZERO; 96];
    let mut block = [Symbol::ZERO; 128];
    keep <= 96
        && size <= 128
        && is_plain_within(
            &code,
            &mut kept[..keep],
            &mut row[..keep],
            &mut block[..size],
        )
}

/// The number of the first profile whose code does not.
fn first_other(rt: &impl Abort, alloc: Global) -> Option<usize> {
    for number in 0..5u8 {
        if !is_plain(rt, alloc, number) {
            return Some(usize::from(number));
        }
    }
    None
}

#[test]
fn codewords_are_the_plain_sums_and_a_changed_symbol_is_seen(rt: HostRuntime) {
    no_other(&rt, first_other(&rt, rt.alloc()));
}
