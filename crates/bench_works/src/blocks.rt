//! What the works on blocks have in common: the kept symbols that they begin with, and the checksum of
//! blocks.
ghost use Rattle.std.specs.Prelude.{◌≡◌, length};

use crate::failure::Failure;
use crate::numbers::after;
use code_points::{Profile, find_profile};
use hail_field::Symbol;

/// How many symbols the longest block has.
pub const LONGEST: usize = 128;

/// The profile of the number that a word writes; `Usage` where there is none.
pub(crate) fn profile_named(word: &str) -> Result<Profile, Failure> {
    find_profile(word.parse::<u8>()?).ok_or(Failure::Usage)
}

/// The kept symbol of a block at a place.
fn kept_symbol(block: u32, place: usize) -> Symbol {
    Symbol(after(u128::from(block) + place as u128))
}

/// Fills `out` with the kept symbols of a block.
pub(crate) fn fill(block: u32, out: &mut [Symbol])
    ensures { length out.new ≡ length out.old }
{
    for place in 0..out.len() {
        out[place] = kept_symbol(block, place);
    }
}

/// A checksum, after one more symbol.
pub(crate) fn mix(sum: u128, symbol: Symbol) -> u128 {
    after(Symbol(sum).add(symbol).0)
}

/// A checksum, after each symbol of a block, the last one first.
pub(crate) fn mix_all(start: u128, block: &[Symbol]) -> u128 {
    let mut sum = start;
    for k in (0..block.len()).rev() {
        sum = mix(sum, block[k]);
    }
    sum
}
