ghost use Rattle.std.specs.Prelude.{◌≡◌};
ghost use Rattle.column_defs.specs.Challenges.{honest_answer};
ghost use Rattle.challenge.specs.Asked.{asked};
ghost use Rattle.file_parts.specs.SeenRows.{seen_symbol, seen_blocks};

use aggregate::{Blocks, answer_drawn};
use challenge::Drawn;
use hail_field::Symbol;

/// The rows of an object's blocks that were read, each with its symbol. The blocks are of `size` symbols.
#[derive(Clone, Copy)]
struct SeenRows<'a> {
    size: u32,
    rows: &'a [(u64, Symbol)],
}

/// The symbol that was read in a row, and zero in a row that was not read.
fn symbol_in(rows: &[(u64, Symbol)], row: u64) -> Symbol
    ensures { result ≡ seen_symbol rows.now row }
{
    for seen in rows {
        if seen.0 == row {
            return seen.1;
        }
    }
    Symbol::ZERO
}

impl<'a> Blocks for SeenRows<'a> {
    ghost held = { λ seen. seen_blocks seen.size seen.rows.now };

    fn at(&self, stripe: u32, place: u32, size: u32) -> Option<Symbol> {
        if size != self.size {
            return None;
        }
        let row = u64::from(stripe) * u64::from(size) + u64::from(place);
        Some(symbol_in(self.rows, row))
    }
}

/// The honest answer of the blocks of which these rows were read, to a challenge that was drawn.
pub fn answer_of(drawn: &Drawn, rows: &[(u64, Symbol)]) -> Option<Symbol>
    ensures { result ≡ honest_answer (asked drawn.now.challenge)
        (seen_blocks drawn.now.challenge.size rows.now) }
{
    let size = drawn.challenge.size;
    answer_drawn(drawn, &SeenRows { size, rows })
}
