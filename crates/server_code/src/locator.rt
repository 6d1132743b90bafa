//! A guess at which kept symbols of a block are wrong, and by how much. Nothing rests on it: who asks encodes
//! again and counts.
ghost use Rattle.std.specs.Prelude.{◌≡◌, ◌≤◌, ◌<◌, length};
ghost use Rattle.server_code.specs.Products.{AreProducts};

use crate::products::{Multiples, scaled};
use crate::tables::Tables;
use code_points::{Profile, byte_inverse, byte_product, multiplier};
use hail_field::Symbol;

/// How many coefficients there is room for: one more than a block has symbols behind the kept ones.
const ROOM: usize = 33;

/// Berlekamp and Massey's algorithm: the shortest register that makes the syndromes so far, the one before
/// its length last grew, by how many places that one is shifted against it, and the inverse of what it was
/// wrong by.
#[derive(Drop)]
struct Register {
    now: [Symbol; ROOM],
    before: [Symbol; ROOM],
    length: usize,
    shift: usize,
    inverse: Symbol,
}

impl Register {
    /// The register of length 0.
    fn new() -> Register {
        let mut one = [Symbol::ZERO; ROOM];
        one[0] = Symbol::ONE;
        Register {
            now: one,
            before: one,
            length: 0,
            shift: 1,
            inverse: Symbol::ONE,
        }
    }

    /// What the register is wrong by at a syndrome.
    fn gap(&self, syndromes: &[Symbol], t: usize) -> Symbol
        requires { t < length syndromes.now }
    {
        let mut sum = Symbol::ZERO;
        for k in 0..ROOM {
            if k <= self.length && k <= t {
                sum = sum.add(self.now[k].mul(syndromes[t - k]));
            }
        }
        sum
    }

    /// Adds a multiple of the earlier register, shifted.
    fn add_before(&mut self, c: Symbol) {
        let shift = self.shift;
        for k in shift..ROOM {
            let coefficient = self.before[k - shift];
            if !coefficient.is_zero() {
                self.now[k] = self.now[k].add(c.mul(coefficient));
            }
        }
    }

    /// Mends the register, which is wrong by `gap` at the syndrome t.
    fn mend(&mut self, gap: Symbol, t: usize) {
        let old = self.now;
        self.add_before(gap.mul(self.inverse));
        if self.length <= t / 2 {
            self.length = (t - self.length).saturating_add(1);
            self.before = old;
            self.shift = 1;
            self.inverse = gap.inv().unwrap_or(Symbol::ZERO);
        } else {
            self.shift = self.shift.saturating_add(1);
        }
    }
}

/// The register that makes all syndromes; none where it is longer than `most`.
fn register_of(syndromes: &[Symbol], most: usize) -> Option<Register> {
    let mut register = Register::new();
    for t in 0..syndromes.len() {
        let gap = register.gap(syndromes, t);
        if gap.is_zero() {
            register.shift = register.shift.saturating_add(1);
        } else {
            register.mend(gap, t);
        }
        if register.length > most {
            return None;
        }
    }
    Some(register)
}

/// The numbers of symbols, where each is a byte.
fn as_bytes(symbols: &[Symbol; ROOM]) -> Option<[u8; ROOM]> {
    let mut bytes = [0; ROOM];
    for k in 0..ROOM {
        let symbol = symbols[k];
        if symbol.0 >= 256 {
            return None;
        }
        bytes[k] = symbol.0 as u8;
    }
    Some(bytes)
}

/// What stands for a place: its point plus 128, so that none is 0.
fn position(place: usize) -> u8 {
    (place % 128) as u8 + 128
}

/// By what a place is multiplied in the syndromes.
fn weight(profile: Profile, place: usize) -> u8 {
    if place >= profile.size as usize {
        return 0;
    }
    let weight = multiplier(profile, place as u32);
    (weight.0 % 256) as u8
}

/// The sum of all symbols.
fn sum(symbols: &[Symbol]) -> Symbol {
    let mut sum = Symbol::ZERO;
    for k in 0..symbols.len() {
        sum = sum.add(symbols[k]);
    }
    sum
}

/// Multiplies each symbol by its position, that of the first being that of the place `keep`.
fn move_on(products: &[Multiples], keep: usize, symbols: &mut [Symbol])
    requires { AreProducts products.now }
{
    for k in 0..symbols.len() {
        symbols[k] = scaled(products, position(keep % 128 + k % 128), symbols[k]);
    }
}

/// The syndromes of symbols by which the places from `keep` on are wrong, each times its weight. These are
/// used up.
fn syndromes(products: &[Multiples], keep: usize, misfits: &mut [Symbol], out: &mut [Symbol])
    requires { AreProducts products.now }
{
    for t in 0..out.len() {
        out[t] = sum(misfits);
        move_on(products, keep, misfits);
    }
}

/// By what a block differs from a codeword behind the first `keep` places, times the weights.
fn misfits(
    products: &[Multiples],
    profile: Profile,
    word: &[Symbol],
    block: &[Symbol],
    out: &mut [Symbol],
)
    requires { AreProducts products.now }
{
    let keep = profile.keep as usize;
    for k in 0..out.len() {
        let place = keep % 128 + k % 128;
        if place < word.len() && place < block.len() {
            out[k] = scaled(
                products,
                weight(profile, place),
                word[place].add(block[place]),
            );
        }
    }
}

/// Whether x is a root of the polynomial of these coefficients, highest first.
fn is_root(locator: &[u8], x: u8) -> bool {
    let mut value = 0;
    for k in 0..locator.len() {
        value = byte_product(x, value) ^ locator[k];
    }
    value == 0
}

/// By what the symbol is wrong whose position x is a root of the locator: by Lagrange's formula over the
/// roots. The partial sums of Horner's scheme are the coefficients, highest first, of the locator divided by
/// y + x.
fn error(products: &[Multiples], locator: &[u8], syndromes: &[Symbol], x: u8, weight: u8) -> Symbol
    requires products { AreProducts products.now }
    requires enough { length locator.now ≤ length syndromes.now }
{
    let mut partial = 0;
    let mut slope = 0;
    let mut sum = Symbol::ZERO;
    for k in 1..locator.len() {
        partial = byte_product(x, partial) ^ locator[k - 1];
        slope = byte_product(x, slope) ^ partial;
        sum = sum.add(scaled(products, partial, syndromes[locator.len() - 1 - k]));
    }
    let divisor = byte_product(slope, weight);
    if divisor == 0 {
        return Symbol::ZERO;
    }
    scaled(products, byte_inverse(divisor), sum)
}

/// Corrects the symbols at the places that the locator names.
fn mend_places(
    products: &[Multiples],
    profile: Profile,
    locator: &[u8],
    syndromes: &[Symbol],
    kept: &mut [Symbol],
)
    requires products { AreProducts products.now }
    requires enough { length locator.now ≤ length syndromes.now }
    ensures { length kept.new ≡ length kept.old }
{
    for place in 0..kept.len() {
        let x = position(place);
        if is_root(locator, x) {
            let wrong = error(products, locator, syndromes, x, weight(profile, place));
            kept[place] = kept[place].add(wrong);
        }
    }
}

/// What the syndromes of a block say of its kept symbols, with room for the misfits and for as many
/// syndromes.
fn guess_within(
    tables: &Tables,
    word: &[Symbol],
    block: &[Symbol],
    wrong: &mut [Symbol],
    all: &mut [Symbol],
    kept: &mut [Symbol],
) -> bool
    ensures { length kept.new ≡ length kept.old }
{
    let profile = tables.profile;
    misfits(&tables.products, profile, word, block, wrong);
    syndromes(&tables.products, profile.keep as usize, wrong, all);
    let Some(register) = register_of(all, profile.fix as usize) else {
        return false;
    };
    let Some(locator) = as_bytes(&register.now) else {
        return false;
    };
    if register.length >= all.len() || register.length >= ROOM {
        return false;
    }
    mend_places(
        &tables.products,
        profile,
        &locator[..register.length + 1],
        all,
        kept,
    );
    true
}

/// The same in the front of longer slices.
fn guess_in_front(
    tables: &Tables,
    word: &[Symbol],
    block: &[Symbol],
    wrong: &mut [Symbol],
    all: &mut [Symbol],
    kept: &mut [Symbol],
) -> bool
    ensures { length kept.new ≡ length kept.old }
{
    let count = (tables.profile.fix as usize).saturating_mul(2);
    if count > wrong.len() || count > all.len() {
        return false;
    }
    guess_within(
        tables,
        word,
        block,
        &mut wrong[..count],
        &mut all[..count],
        kept,
    )
}

/// Corrects the kept symbols of a block as far as it can guess, `word` being the codeword of these symbols as
/// they are. False where it has no guess.
pub fn guess(tables: &Tables, word: &[Symbol], block: &[Symbol], kept: &mut [Symbol]) -> bool
    ensures { length kept.new ≡ length kept.old }
{
    let mut wrong = [Symbol::ZERO; ROOM - 1];
    let mut all = [Symbol::ZERO; ROOM - 1];
    guess_in_front(tables, word, block, &mut wrong, &mut all, kept)
}
