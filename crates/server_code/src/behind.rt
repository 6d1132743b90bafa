//! Gao's decoder at the points behind the kept ones alone (re-encoding, as R. Koetter, J. Ma and A. Vardy do
//! it in The re-encoding transformation in algebraic list-decoding of Reed-Solomon codes, 2011). The sums of
//! a block and the codeword of its first symbols are 0 at the kept places. So a polynomial that is near these
//! sums has nearly all kept points as roots, and only the symbols behind them need be interpolated: 32 in
//! place of 128.
ghost use Rattle.std.specs.Prelude.{◌≡◌, ◌≤◌, ◌<◌, ◌+◌, ◌++◌, ◌∷◌, [], ℕ, length, take, drop, slice_index, IfNone, IfSome, OnSome};
ghost use Rattle.std.specs.Bool.{OnTrue, OnFalse};
ghost use Rattle.hail_field.specs.Nim.{nim_add, nim_mul};
ghost use Rattle.code_defs.specs.Polynomials.{value, vanish, plus, root_times};
ghost use Rattle.code_defs.specs.Points.{upto};
ghost use Rattle.code_defs.specs.ServerCode.{Opens, OpensToNone, differences};
ghost use Rattle.code_points.specs.Profile.{plain_profile};
ghost use Rattle.server_code.specs.Behind.{IsLoadedBehind, TakesNear};
ghost use Rattle.server_code.specs.Products.{AreProducts};

use crate::correct::{MOST, try_kept};
use crate::products::{Multiples, scaled};
use crate::tables::Tables;
use code_points::byte_sum;
use hail_field::Symbol;
use hail_poly::Work;

/// The product of x + point over the first `keep` points.
#[tactic(auto, using(code_points::proofs::Steps::product_start, code_points::proofs::Steps::product_step))]
fn product_of_gaps(products: &[Multiples], keep: usize, x: u8) -> Symbol
    requires products { AreProducts products.now }
    requires few { keep ≤ 256 }
    ensures { result ≡ value (vanish (upto keep)) x }
{
    let mut product = Symbol::ONE;
    for place in (0..keep).rev() {
        product = scaled(products, byte_sum(place as u8, x), product);
    }
    product
}

/// What gives `difference` when it is multiplied by the product of x + point over the first `keep` points, of
/// which x is none.
fn share(products: &[Multiples], keep: usize, x: u8, difference: Symbol) -> Symbol
    requires products { AreProducts products.now }
    requires behind { keep ≤ x }
    ensures { nim_mul result (value (vanish (upto keep)) x) ≡ difference }
{
    let product = product_of_gaps(products, keep, x);
    difference.mul(product.inv().unwrap())
}

/// The shares of the differences behind the first `keep` places.
fn fill_shares(
    products: &[Multiples],
    keep: usize,
    word: &[Symbol],
    block: &[Symbol],
    out: &mut [Symbol],
)
    requires products { AreProducts products.now }
    requires few { length block.now ≤ 128 }
    requires even { length word.now ≡ length block.now }
    requires out { keep + length out.old ≡ length block.now }
    ensures shares { (k : ℕ) → k < length out.new →
        nim_mul (slice_index out.new k) (value (vanish (upto keep)) (keep + k)) ≡
        nim_add (slice_index block.now (keep + k)) (slice_index word.now (keep + k)) }
    ensures length { length out.new ≡ length out.old }
{
    for k in 0..out.len() {
        let place = keep + k;
        let difference = block[place].add(word[place]);
        out[k] = share(products, keep, place as u8, difference);
    }
}

/// Multiplies a polynomial by x + r, and gives the coefficient that has no place.
#[tactic(auto, using(hail_poly::proofs::Steps::root_times_step, hail_poly::proofs::Steps::root_times_end))]
fn multiply_root(products: &[Multiples], r: u8, items: &mut [Symbol]) -> Symbol
    requires { AreProducts products.now }
    ensures { items.new ++ result ∷ [] ≡ root_times r 0 items.old }
{
    let mut carry = Symbol::ZERO;
    for k in 0..items.len() {
        let a = items[k];
        items[k] = scaled(products, r, a).add(carry);
        carry = a;
    }
    carry
}

/// Copies symbols to the front.
fn put_front(into: &mut [Symbol], from: &[Symbol])
    requires { length from.now ≤ length into.old }
    ensures { into.new ≡ from.now ++ drop (length from.now) into.old }
{
    into[..from.len()].copy_from_slice(from);
}

/// Multiplies the polynomial of the first `count` coefficients by x + r. It is then one longer.
fn grow(products: &[Multiples], r: u8, count: usize, items: &mut [Symbol])
    requires products { AreProducts products.now }
    requires room { count < length items.old }
    ensures length { length items.new ≡ length items.old }
    ensures product { take (count + 1) items.new ≡ root_times r 0 (take count items.old) }
{
    let last = multiply_root(products, r, &mut items[..count]);
    items[count] = last;
}

/// Multiplies the polynomial of the first `count` coefficients by the product of x + point over the first
/// `keep` points.
fn multiply_points(products: &[Multiples], keep: usize, count: usize, items: &mut [Symbol])
    requires products { AreProducts products.now }
    requires few { keep ≤ 256 }
    requires room { count + keep ≤ length items.old }
    ensures length { length items.new ≡ length items.old }
    ensures product { (x : ℕ) → value (take (count + keep) items.new) x ≡ nim_mul
        (value (take count items.old) x) (value (vanish (upto keep)) x) }
{
    for place in (0..keep).rev() {
        grow(products, place as u8, count + (keep - 1 - place), items);
    }
}

/// Loads the interpolation of the shares at the points behind the kept ones; they are made in `shares`.
fn load_within(
    tables: &Tables,
    word: &[Symbol],
    block: &[Symbol],
    shares: &mut [Symbol],
    work: &mut Work,
)
    requires block { length block.now ≡ tables.now.profile.size }
    requires word { length word.now ≡ tables.now.profile.size }
    requires shares { tables.now.profile.keep + length shares.old ≡ tables.now.profile.size }
    requires room { tables.now.profile.size ≤ work.old.size }
    ensures { IsLoadedBehind tables.now.profile.keep block.now word.now work.old.size work.new }
{
    let keep = tables.profile.keep as usize;
    fill_shares(&tables.products, keep, word, block, shares);
    work.load(tables.points_behind(), shares);
}

/// The same in the front of a longer slice.
fn load_in_front(
    tables: &Tables,
    word: &[Symbol],
    block: &[Symbol],
    shares: &mut [Symbol],
    work: &mut Work,
)
    requires block { length block.now ≡ tables.now.profile.size }
    requires word { length word.now ≡ tables.now.profile.size }
    requires shares { length shares.old ≡ MOST }
    requires room { tables.now.profile.size ≤ work.old.size }
    ensures { IsLoadedBehind tables.now.profile.keep block.now word.now work.old.size work.new }
{
    let count = (tables.profile.size - tables.profile.keep) as usize;
    load_within(tables, word, block, &mut shares[..count], work);
}

/// Loads the interpolation of the shares at the points behind the kept ones.
fn load_behind(tables: &Tables, word: &[Symbol], block: &[Symbol], work: &mut Work)
    requires block { length block.now ≡ tables.now.profile.size }
    requires word { length word.now ≡ tables.now.profile.size }
    requires room { tables.now.profile.size ≤ work.old.size }
    ensures { IsLoadedBehind tables.now.profile.keep block.now word.now work.old.size work.new }
{
    let mut shares = [Symbol::ZERO; MOST];
    load_in_front(tables, word, block, &mut shares, work);
}

/// Multiplies the rest by the product of x + point over the first `keep` points; the product is made in
/// `items`.
fn multiply_rest_within(products: &[Multiples], keep: usize, items: &mut [Symbol], work: &mut Work)
    requires products { AreProducts products.now }
    requires few { keep ≤ 256 }
    requires items { length work.old.rest + keep ≤ length items.old }
    requires room { length work.old.rest + keep ≤ work.old.size }
    ensures size { work.new.size ≡ work.old.size }
    ensures factor { work.new.factor ≡ work.old.factor }
    ensures short { length work.new.rest ≤ length work.old.rest + keep }
    ensures product { (x : ℕ) → value work.new.rest x ≡ nim_mul (value work.old.rest x)
        (value (vanish (upto keep)) x) }
{
    let count = work.rest().len();
    put_front(items, work.rest());
    multiply_points(products, keep, count, items);
    work.set_rest(&items[..count + keep]);
}

/// Multiplies the rest by the product of x + point over the first `keep` points.
fn multiply_rest(products: &[Multiples], keep: usize, work: &mut Work)
    requires products { AreProducts products.now }
    requires few { length work.old.rest + keep ≤ MOST }
    requires room { length work.old.rest + keep ≤ work.old.size }
    ensures size { work.new.size ≡ work.old.size }
    ensures factor { work.new.factor ≡ work.old.factor }
    ensures short { length work.new.rest ≤ length work.old.rest + keep }
    ensures product { (x : ℕ) → value work.new.rest x ≡ nim_mul (value work.old.rest x)
        (value (vanish (upto keep)) x) }
{
    let mut items = [Symbol::ZERO; MOST];
    multiply_rest_within(products, keep, &mut items, work);
}

/// Looks for the polynomial of degree below `keep` that takes all but `fix` of the sums of a block and a
/// word, which are 0 at the kept places; it is then the rest. False only where there is none.
fn find_quotient(tables: &Tables, word: &[Symbol], block: &[Symbol], work: &mut Work) -> bool
    requires block { length block.now ≡ tables.now.profile.size }
    requires word { length word.now ≡ tables.now.profile.size }
    requires same { take tables.now.profile.keep block.now ≡ take tables.now.profile.keep word.now }
    requires room { tables.now.profile.size ≤ work.old.size }
    ensures size { work.new.size ≡ work.old.size }
    ensures found { OnTrue result (TakesNear (plain_profile tables.now.profile) (plus block.now word.now)
        work.new.rest) }
    ensures none { OnFalse result (OpensToNone (plain_profile tables.now.profile) (plus block.now word.now)) }
{
    let keep = tables.profile.keep as usize;
    load_behind(tables, word, block, work);
    work.euclid(tables.profile.fix as usize);
    multiply_rest(&tables.products, keep, work);
    work.divide()
}

/// Adds to each symbol the value of the rest at its place.
fn add_values(work: &Work, kept: &mut [Symbol])
    ensures length { length kept.new ≡ length kept.old }
    ensures values { (k : ℕ) → k < length kept.old
        → slice_index kept.new k ≡ nim_add (slice_index kept.old k) (value work.now.rest k) }
{
    for k in 0..kept.len() {
        kept[k] = kept[k].add(work.value(Symbol(k as u128)));
    }
}

/// Corrects a block, with room for its kept symbols and for its codeword.
fn decode_within(
    tables: &Tables,
    kept: &mut [Symbol],
    word: &mut [Symbol],
    block: &mut [Symbol],
    work: &mut Work,
) -> Option<u32>
    requires kept { length kept.old ≡ tables.now.profile.keep }
    requires word { length word.old ≡ tables.now.profile.size }
    requires block { length block.old ≡ tables.now.profile.size }
    requires room { tables.now.profile.size ≤ work.old.size }
    ensures none { IfNone result (OpensToNone (plain_profile tables.now.profile) block.old) }
    ensures unchanged { IfNone result (block.new ≡ block.old) }
    ensures opened { OnSome result (Opens (plain_profile tables.now.profile) block.old block.new) }
    ensures changed { IfSome result (λ count. count ≡ differences block.old block.new) }
    ensures work { work.new.size ≡ work.old.size }
{
    kept.copy_from_slice(&block[..kept.len()]);
    tables.encode(kept, word);
    if !find_quotient(tables, word, block, work) {
        return None;
    }
    add_values(work, kept);
    try_kept(tables, kept, word, block)
}

/// The same in the front of longer slices.
fn decode_in_front(
    tables: &Tables,
    kept: &mut [Symbol],
    word: &mut [Symbol],
    block: &mut [Symbol],
    work: &mut Work,
) -> Option<u32>
    requires kept { length kept.old ≡ MOST }
    requires word { length word.old ≡ MOST }
    requires block { length block.old ≡ tables.now.profile.size }
    requires room { tables.now.profile.size ≤ work.old.size }
    ensures none { IfNone result (OpensToNone (plain_profile tables.now.profile) block.old) }
    ensures unchanged { IfNone result (block.new ≡ block.old) }
    ensures opened { OnSome result (Opens (plain_profile tables.now.profile) block.old block.new) }
    ensures changed { IfSome result (λ count. count ≡ differences block.old block.new) }
    ensures work { work.new.size ≡ work.old.size }
{
    let keep = tables.profile.keep as usize;
    let size = tables.profile.size as usize;
    decode_within(tables, &mut kept[..keep], &mut word[..size], block, work)
}

/// Corrects a block by Gao's decoder at the points behind the kept ones. None exactly where it opens to
/// nothing.
pub fn decode(tables: &Tables, block: &mut [Symbol], work: &mut Work) -> Option<u32>
    requires block { length block.old ≡ tables.now.profile.size }
    requires room { tables.now.profile.size ≤ work.old.size }
    ensures none { IfNone result (OpensToNone (plain_profile tables.now.profile) block.old) }
    ensures unchanged { IfNone result (block.new ≡ block.old) }
    ensures opened { OnSome result (Opens (plain_profile tables.now.profile) block.old block.new) }
    ensures changed { IfSome result (λ count. count ≡ differences block.old block.new) }
    ensures work { work.new.size ≡ work.old.size }
{
    let mut kept = [Symbol::ZERO; MOST];
    let mut word = [Symbol::ZERO; MOST];
    decode_in_front(tables, &mut kept, &mut word, block, work)
}
