ghost use Rattle.std.specs.Prelude.{◌≡◌, ◌≤◌, ◌<◌, ◌+◌, ◌*◌, ◌^◌, ℕ, slice_index};
ghost use Rattle.column_codec.specs.Tables.{product_at, HoldsProducts};

use hail_field::Symbol;
use std::marker::Model;

/// The products of one constant with the sixteen numbers of each half byte, 8 KiB, by which a product with it
/// takes 32 look-ups. Contracts see it as the constant.
#[derive(Drop)]
pub struct ConstantTable {
    constant: Symbol,
    entries: [Symbol; 512],
}

impl Model for ConstantTable {
    ghost use Rattle.std.specs.Prelude.{ℕ};
    ghost use Rattle.column_codec.specs.Tables.{HoldsProducts};

    ghost Value = { ℕ };

    ghost view = { λ table. table.constant };

    ghost invariant = { λ table. HoldsProducts table.constant table.entries };
}

/// The exponent of the highest power of two within a number from 1 to 15.
fn highest_bit(number: usize) -> usize
    requires some { 1 ≤ number }
    requires few { number < 16 }
    ensures within { 2 ^ result ≤ number }
    ensures highest { number < 2 * 2 ^ result }
    ensures few { result ≤ 3 }
{
    if number < 2 {
        0
    } else if number < 4 {
        1
    } else if number < 8 {
        2
    } else {
        3
    }
}

/// A constant times a number of a half byte.
fn unit_product(constant: Symbol, number: usize, half: usize) -> Symbol
    requires number { number < 16 }
    requires half { half < 32 }
    ensures { result ≡ product_at constant (16 * half + number) }
{
    constant.mul(Symbol((number as u128) << (4 * half)))
}

/// What a place holds, by those before it: the numbers that are no power of two are sums of two before them.
fn entry(constant: Symbol, entries: &[Symbol; 512], place: usize) -> Symbol
    requires place { place < 512 }
    requires before { (p : ℕ) → p < place → slice_index entries.now p ≡ product_at constant p }
    ensures { result ≡ product_at constant place }
{
    let number = place % 16;
    if number == 0 {
        return Symbol::ZERO;
    }
    let bit = 1 << highest_bit(number);
    if bit == number {
        return unit_product(constant, number, place / 16);
    }
    entries[place - bit].add(entries[place - number + bit])
}

/// What all places hold.
fn entries(constant: Symbol) -> [Symbol; 512]
    ensures { HoldsProducts constant result }
{
    let mut entries = [Symbol::ZERO; 512];
    for place in 0..512 {
        entries[place] = entry(constant, &entries, place);
    }
    entries
}

impl ConstantTable {
    ghost use Rattle.std.specs.Prelude.{◌≡◌};
    ghost use Rattle.hail_field.specs.Nim.{nim_mul};

    /// The table of a constant, by 128 products.
    pub fn new(constant: Symbol) -> ConstantTable
        ensures { result ≡ constant }
    {
        ConstantTable {
            constant,
            entries: entries(constant),
        }
    }

    /// The product of the constant and a symbol.
    pub fn times(&self, symbol: Symbol) -> Symbol
        ensures { result ≡ nim_mul self.now symbol }
    {
        let mut sum = Symbol::ZERO;
        let mut rest = symbol.0;
        for half in 0..32 {
            sum = sum.add(self.entries[16 * half + (rest % 16) as usize]);
            rest /= 16;
        }
        sum
    }
}
