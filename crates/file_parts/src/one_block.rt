ghost use Rattle.std.specs.Prelude.{◌≡◌};
ghost use Rattle.column_defs.specs.Challenges.{honest_answer};
ghost use Rattle.challenge.specs.Asked.{asked};
ghost use Rattle.file_parts.specs.SeenRows.{one_block};

use aggregate::{Blocks, answer_drawn};
use challenge::Drawn;
use hail_field::Symbol;

/// The one block of an object, which was read.
#[derive(Clone, Copy)]
struct OneBlock<'a> {
    symbols: &'a [Symbol],
}

impl<'a> Blocks for OneBlock<'a> {
    ghost held = { λ block. one_block block.symbols.now };

    fn at(&self, stripe: u32, place: u32, size: u32) -> Option<Symbol> {
        if stripe != 0 || size as usize != self.symbols.len() {
            return None;
        }
        Some(self.symbols[place as usize])
    }
}

/// The honest answer of an object of which this is the one block, to a challenge that was drawn. It looks the
/// picks up by their places.
pub fn answer_in_block(drawn: &Drawn, symbols: &[Symbol]) -> Option<Symbol>
    ensures { result ≡ honest_answer (asked drawn.now.challenge) (one_block symbols.now) }
{
    answer_drawn(drawn, &OneBlock { symbols })
}
