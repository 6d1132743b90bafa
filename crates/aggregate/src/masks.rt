ghost use Rattle.std.specs.Prelude.{◌≡◌};
ghost use Rattle.column_defs.specs.Challenges.{mask_sum_of};
ghost use Rattle.challenge.specs.Asked.{asked};

use challenge::{Challenge, Drawn};
use hail_field::Symbol;
use mask_tag::mask;

/// The same sum of the masks of the rows that were drawn, under the key of a provider's masks.
pub fn mask_sum_drawn(key: &[u8; 32], drawn: &Drawn) -> Symbol
    ensures { result ≡ mask_sum_of key.now (asked drawn.now.challenge) }
{
    let mut sum = Symbol::ZERO;
    for k in (0..drawn.challenge.picks as usize).rev() {
        sum = drawn.weight.mul(mask(key, drawn.rows[k]).add(sum));
    }
    sum
}

/// The same sum of the masks of the picked rows of a challenge.
pub fn mask_sum(key: &[u8; 32], challenge: &Challenge) -> Symbol
    ensures { result ≡ mask_sum_of key.now (asked challenge.now) }
{
    mask_sum_drawn(key, &challenge.draw())
}
