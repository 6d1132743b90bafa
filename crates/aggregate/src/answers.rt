ghost use Rattle.std.specs.Prelude.{◌≡◌, ◌<◌};
ghost use Rattle.column_defs.specs.Challenges.{honest_answer, held_symbol};
ghost use Rattle.challenge.specs.Asked.{asked};

use crate::Blocks;
use challenge::{Challenge, Drawn};
use hail_field::Symbol;

// The symbol held in a row.
fn symbol_in<B: Blocks>(challenge: &Challenge, blocks: &B, row: u64) -> Option<Symbol>
    requires { row < challenge.now.rows }
    ensures { result ≡ held_symbol challenge.now.size (B.held blocks.now) row }
{
    let size = u64::from(challenge.size);
    blocks.at((row / size) as u32, (row % size) as u32, challenge.size)
}

/// The honest answer to a challenge that was drawn: the sum, over the picks `k`, of `alpha ^ (k + 1)` times
/// the symbol held in row `k`; none where one of these rows has no symbol. It takes one product a pick
/// (Horner's rule). One symbol answers for many rows (Bowers, Juels and Oprea, HAIL, 2009).
pub fn answer_drawn<B: Blocks>(drawn: &Drawn, blocks: &B) -> Option<Symbol>
    ensures { result ≡ honest_answer (asked drawn.now.challenge) (B.held blocks.now) }
{
    let mut sum = Symbol::ZERO;
    for k in (0..drawn.challenge.picks as usize).rev() {
        let Some(symbol) = symbol_in(&drawn.challenge, blocks, drawn.rows[k]) else {
            return None;
        };
        sum = drawn.weight.mul(symbol.add(sum));
    }
    Some(sum)
}

/// The honest answer to a challenge, of which [`answer_drawn`] says more.
pub fn answer<B: Blocks>(challenge: &Challenge, blocks: &B) -> Option<Symbol>
    ensures { result ≡ honest_answer (asked challenge.now) (B.held blocks.now) }
{
    answer_drawn(&challenge.draw(), blocks)
}
