use hail_field::{Memory, Symbol};
use std::alloc::Global;
use std::marker::Model;

/// The symbols of a block, seen in contracts as their list.
#[derive(Drop)]
pub struct Block {
    pub(crate) symbols: Vec<Symbol>,
}

impl Model for Block {
    ghost use Rattle.std.specs.Prelude.{ℕ, List};

    ghost Value = { List ℕ };

    ghost view = { λ block. block.symbols.items };
}

impl Block {
    ghost use Rattle.std.specs.Prelude.{◌≡◌, IfOk, replicate};
    ghost use Rattle.std.specs.Borrow.{sem};
    ghost use Rattle.column_codec.specs.Lending.{LendsSymbols};

    /// A block of `size` zeros. No other call on blocks takes memory.
    pub fn zeros(alloc: Global, size: usize) -> Result<Block, Memory>
        ensures { IfOk result (λ block. block ≡ replicate size 0) }
    {
        let zero = Symbol::ZERO;
        let symbols = vec![in alloc; zero; size]?;
        Ok(Block { symbols })
    }

    /// The symbols.
    pub fn symbols(&self) -> &[Symbol]
        ensures { result.now ≡ self.now }
    {
        &self.symbols
    }

    /// The symbols, to be written.
    pub fn symbols_mut(&mut self) -> &mut [Symbol]
        ensures* writes_back { sem 𝓛 (LendsSymbols self.entry result) }
        ensures value { result.now ≡ self.old }
    {
        &mut self.symbols
    }
}
