//! Correcting a block by a guess, whatever that is, that turns out to be right.
ghost use Rattle.std.specs.Prelude.{◌≡◌, ◌≤◌, ◌<◌, length, IfNone, IfSome, OnSome};
ghost use Rattle.code_defs.specs.ServerCode.{codeword, differences, Opens};
ghost use Rattle.code_points.specs.Profile.{plain_profile};

use crate::locator::guess;
use crate::rows::difference;
use crate::tables::Tables;
use hail_field::Symbol;

/// The most symbols of a block.
pub const MOST: usize = 128;

/// At how many places two blocks differ.
pub fn count_differences(a: &[Symbol], b: &[Symbol]) -> u32
    requires even { length a.now ≡ length b.now }
    requires few { length a.now ≤ 128 }
    ensures value { result ≡ differences a.now b.now }
    ensures few { result ≤ 128 }
{
    let mut count = 0;
    for k in 0..a.len() {
        count += difference(a[k], b[k]);
    }
    count
}

/// Makes a block another one that differs at `most` places or fewer, and tells at how many. None where it
/// differs at more.
fn take_over(other: &[Symbol], most: u32, block: &mut [Symbol]) -> Option<u32>
    requires even { length other.now ≡ length block.old }
    requires few { length other.now ≤ MOST }
    ensures unchanged { IfNone result (block.new ≡ block.old) }
    ensures taken { OnSome result (block.new ≡ other.now) }
    ensures changed { IfSome result (λ count. count ≡ differences block.old other.now) }
    ensures near { IfSome result (λ count. count ≤ most) }
    ensures far { IfNone result (most < differences block.old other.now) }
{
    let count = count_differences(block, other);
    if count > most {
        return None;
    }
    block.copy_from_slice(other);
    Some(count)
}

/// Makes a block the codeword of some kept symbols, where it differs from that at no more places than can be
/// corrected, and tells at how many. None where it differs at more. The codeword is made in `word`.
pub fn try_kept(
    tables: &Tables,
    kept: &[Symbol],
    word: &mut [Symbol],
    block: &mut [Symbol],
) -> Option<u32>
    requires kept { length kept.now ≡ tables.now.profile.keep }
    requires word { length word.old ≡ tables.now.profile.size }
    requires block { length block.old ≡ tables.now.profile.size }
    ensures unchanged { IfNone result (block.new ≡ block.old) }
    ensures opened { OnSome result (Opens (plain_profile tables.now.profile) block.old block.new) }
    ensures changed { IfSome result (λ count. count ≡ differences block.old block.new) }
    ensures far { IfNone result (tables.now.profile.fix < differences block.old
        (codeword (plain_profile tables.now.profile) kept.now)) }
{
    tables.encode(kept, word);
    take_over(word, tables.profile.fix, block)
}

/// Guesses the kept symbols of a block in `kept`, and tries them.
fn correct_within(
    tables: &Tables,
    kept: &mut [Symbol],
    word: &mut [Symbol],
    block: &mut [Symbol],
) -> Option<u32>
    requires kept { length kept.old ≡ tables.now.profile.keep }
    requires word { length word.old ≡ tables.now.profile.size }
    requires block { length block.old ≡ tables.now.profile.size }
    ensures unchanged { IfNone result (block.new ≡ block.old) }
    ensures opened { OnSome result (Opens (plain_profile tables.now.profile) block.old block.new) }
    ensures changed { IfSome result (λ count. count ≡ differences block.old block.new) }
{
    kept.copy_from_slice(&block[..kept.len()]);
    tables.encode(kept, word);
    if !guess(tables, word, block, kept) {
        return None;
    }
    try_kept(tables, kept, word, block)
}

/// The same in the front of longer slices.
fn correct_in_front(
    tables: &Tables,
    kept: &mut [Symbol],
    word: &mut [Symbol],
    block: &mut [Symbol],
) -> Option<u32>
    requires kept { length kept.old ≡ MOST }
    requires word { length word.old ≡ MOST }
    requires block { length block.old ≡ tables.now.profile.size }
    ensures unchanged { IfNone result (block.new ≡ block.old) }
    ensures opened { OnSome result (Opens (plain_profile tables.now.profile) block.old block.new) }
    ensures changed { IfSome result (λ count. count ≡ differences block.old block.new) }
{
    let keep = tables.profile.keep as usize;
    let size = tables.profile.size as usize;
    correct_within(tables, &mut kept[..keep], &mut word[..size], block)
}

/// Makes a block the codeword of kept symbols that are guessed from it, where that differs from it at no more
/// places than can be corrected, and tells at how many. None where the guess is wrong, and then nothing
/// changes.
pub fn correct(tables: &Tables, block: &mut [Symbol]) -> Option<u32>
    requires { length block.old ≡ tables.now.profile.size }
    ensures unchanged { IfNone result (block.new ≡ block.old) }
    ensures opened { OnSome result (Opens (plain_profile tables.now.profile) block.old block.new) }
    ensures changed { IfSome result (λ count. count ≡ differences block.old block.new) }
{
    let mut kept = [Symbol::ZERO; MOST];
    let mut word = [Symbol::ZERO; MOST];
    correct_in_front(tables, &mut kept, &mut word, block)
}
