ghost use Rattle.std.specs.Prelude.{◌≡◌, ◌≤◌, ◌+◌, ◌-◌, ◌*◌, ◌++◌, ◌↔◌, ◌==◌, if◌then◌else◌, IsTrue, length, take, drop};
ghost use Rattle.code_defs.specs.Sums.{dot as dot_of};
ghost use Rattle.server_code.specs.Generator.{row_at, sums};
ghost use Rattle.server_code.specs.Products.{AreProducts};

use crate::products::{Multiples, scaled};
use hail_field::Symbol;

/// The sum of each coefficient times the symbol at its place.
#[tactic(auto, using(crate::proofs::RowSteps::dot_step, crate::proofs::RowSteps::dot_past))]
fn dot(products: &[Multiples], coefficients: &[u8], symbols: &[Symbol]) -> Symbol
    requires products { AreProducts products.now }
    requires even { length coefficients.now ≡ length symbols.now }
    ensures { result ≡ dot_of coefficients.now symbols.now }
{
    let mut sum = Symbol::ZERO;
    for k in (0..coefficients.len()).rev() {
        sum = scaled(products, coefficients[k], symbols[k]).add(sum);
    }
    sum
}

/// The sum of the kept symbols by a row.
fn row_sum(products: &[Multiples], rows: &[u8], row: usize, kept: &[Symbol]) -> Symbol
    requires products { AreProducts products.now }
    requires row { row * length kept.now + length kept.now ≤ length rows.now }
    ensures { result ≡ dot_of (row_at (length kept.now) rows.now row) kept.now }
{
    let start = row * kept.len();
    dot(products, &rows[start..start + kept.len()], kept)
}

/// Whether two symbols are one.
fn same(a: Symbol, b: Symbol) -> bool
    ensures { IsTrue result ↔ (a ≡ b) }
{
    a == b
}

/// Fills each place with the sum of the kept symbols by its row.
#[tactic(auto, using(crate::proofs::RowSteps::row_fits))]
fn fill_sums(products: &[Multiples], rows: &[u8], kept: &[Symbol], out: &mut [Symbol])
    requires products { AreProducts products.now }
    requires rows { length rows.now ≡ length out.old * length kept.now }
    ensures { out.new ≡ sums rows.now kept.now (length out.old) }
{
    for row in 0..out.len() {
        out[row] = row_sum(products, rows, row, kept);
    }
}

/// Whether each place is the sum of the kept symbols by its row.
#[tactic(auto, using(crate::proofs::RowSteps::row_fits))]
fn are_sums(products: &[Multiples], rows: &[u8], kept: &[Symbol], seen: &[Symbol]) -> bool
    requires products { AreProducts products.now }
    requires rows { length rows.now ≡ length seen.now * length kept.now }
    ensures { IsTrue result ↔ (seen.now ≡ sums rows.now kept.now (length seen.now)) }
{
    for row in 0..seen.len() {
        if !same(row_sum(products, rows, row, kept), seen[row]) {
            return false;
        }
    }
    true
}

/// Copies the kept symbols to the front, and fills the places behind them with their sums by the rows.
pub fn extend(products: &[Multiples], rows: &[u8], kept: &[Symbol], out: &mut [Symbol])
    requires products { AreProducts products.now }
    requires room { length kept.now ≤ length out.old }
    requires rows { length rows.now ≡ (length out.old - length kept.now) * length kept.now }
    ensures { out.new ≡ kept.now ++ sums rows.now kept.now (length out.old - length kept.now) }
{
    let keep = kept.len();
    out[..keep].copy_from_slice(kept);
    fill_sums(products, rows, kept, &mut out[keep..]);
}

/// Whether the symbols behind the first `keep` are the sums of these by the rows.
pub fn is_extended(products: &[Multiples], rows: &[u8], keep: usize, block: &[Symbol]) -> bool
    requires products { AreProducts products.now }
    requires room { keep ≤ length block.now }
    requires rows { length rows.now ≡ (length block.now - keep) * keep }
    ensures { IsTrue result ↔ (drop keep block.now ≡ sums rows.now (take keep block.now)
        (length block.now - keep)) }
{
    are_sums(products, rows, &block[..keep], &block[keep..])
}

/// 1 where two symbols differ, else 0.
pub fn difference(a: Symbol, b: Symbol) -> u32
    ensures { result ≡ (if a == b then 0 else 1) }
{
    if a == b { 0 } else { 1 }
}
