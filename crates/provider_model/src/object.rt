ghost use Rattle.std.specs.Prelude.{◌≡◌, ◌<◌};
ghost use Rattle.column_defs.specs.Challenges.{honest_answer};
ghost use Rattle.challenge.specs.Asked.{asked};
ghost use Rattle.provider_model.specs.HeldBlocks.{blocks_of};

use crate::held::HeldBlocks;
use aggregate::{Blocks, answer};
use challenge::Challenge;
use hail_field::Symbol;

/// The blocks that are held of one object.
#[derive(Clone, Copy)]
struct OneObject<'a> {
    held: &'a HeldBlocks,
    object: u64,
}

impl<'a> Blocks for OneObject<'a> {
    ghost held = { λ one. blocks_of one.held.now one.object };

    fn at(&self, stripe: u32, place: u32, size: u32) -> Option<Symbol> {
        match self.held.at(self.object, stripe) {
            Some(block) if block.len() == size as usize => Some(block[place as usize]),
            _ => None,
        }
    }
}

/// The honest answer of the blocks held of an object.
pub fn answer_of(held: &HeldBlocks, object: u64, challenge: &Challenge) -> Option<Symbol>
    ensures { result ≡ honest_answer (asked challenge.now) (blocks_of held.now object) }
{
    answer(challenge, &OneObject { held, object })
}
