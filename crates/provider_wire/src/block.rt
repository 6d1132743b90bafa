ghost use Rattle.std.specs.Prelude.{◌≡◌, ◌*◌, ◌≤◌, length, IsTrue};
ghost use Rattle.provider_wire.specs.Reading.{symbols_read};

use crate::symbol_bytes::take_symbols;
use hail_field::Symbol;
use hail_field::laws::symbols_are_numbers;
use std::marker::Model;

/// A block of 1 to 128 symbols, seen in contracts as their list.
#[derive(Drop)]
pub struct Block {
    symbols: [Symbol; 128],
    size: usize,
}

impl Model for Block {
    ghost use Rattle.std.specs.Prelude.{◌≤◌, List, ℕ, take};

    ghost Value = { List ℕ };

    ghost view = { λ block. take block.size block.symbols };

    ghost invariant = { λ block. (1 ≤ block.size) × (block.size ≤ 128) };
}

impl Block {
    /// The block of so many symbols in these bytes, 16 a symbol.
    pub(crate) fn of_bytes(size: usize, bytes: &[u8]) -> Block
        requires some { 1 ≤ size }
        requires few { size ≤ 128 }
        requires fits { length bytes.now ≡ 16 * size }
        ensures { result ≡ symbols_read size bytes.now }
    {
        let mut symbols = [Symbol::ZERO; 128];
        take_symbols(bytes, &mut symbols[..size]);
        Block { symbols, size }
    }

    /// The symbols.
    pub fn as_slice(&self) -> &[Symbol]
        ensures symbols { result.now ≡ self.now }
        ensures some { 1 ≤ length result.now }
        ensures few { length result.now ≤ 128 }
    {
        &self.symbols[..self.size]
    }
}
