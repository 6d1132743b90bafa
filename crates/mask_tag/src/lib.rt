//! The masks of secondary symbols, read from ChaCha20 (RFC 8439) by place. They make a row's parity its
//! message authentication code (Bowers, Juels and Oprea, HAIL, 2009).
#![tactic(auto)]

ghost use Rattle.std.specs.Prelude.{◌≡◌, ◌≤◌, ◌*◌, ◌+◌, ◌^◌, ◌<◌, length};
ghost use Rattle.column_defs.specs.Keys.{mask_of, masks_from};
ghost use Rattle.column_defs.specs.Generator.{next_symbol, moved_on};

use hail_field::Symbol;
use rand_chacha::ChaCha20Rng;
use rand_core::SeedableRng;
use rand_core::utils::NextWord;

// The symbol of the next four words, the first word lowest.
fn next_symbol(rng: &mut ChaCha20Rng) -> Symbol
    requires { rng.old.word_pos + 4 < 2 ^ 68 }
    ensures value { result ≡ next_symbol rng.old }
    ensures place { rng.new ≡ moved_on rng.old 4 }
{
    let first = rng.next_word();
    let second = rng.next_word();
    let third = rng.next_word();
    let fourth = rng.next_word();
    Symbol(
        u128::from(first)
            + u128::from(second) * (1 << 32)
            + u128::from(third) * (1 << 64)
            + u128::from(fourth) * (1 << 96),
    )
}

/// The mask of a row: the symbol of the words `4 * row` to `4 * row + 3` of stream 0 of ChaCha20 (RFC 8439)
/// under the key of a provider's masks, the first word lowest.
#[tactic(auto, unfolding(column_defs::specs::Keys::stream_symbol))]
pub fn mask(key: &[u8; 32], row: u64) -> Symbol
    ensures { result ≡ mask_of key.now row }
{
    let mut rng = ChaCha20Rng::from_seed(*key);
    rng.set_word_pos(4 * u128::from(row));
    next_symbol(&mut rng)
}

/// Fills `out`, at most 128 symbols, with the masks of a stripe's rows, which are those from `stripe *
/// out.len()` on, read off stream 0 of ChaCha20 (RFC 8439).
#[tactic(auto, unfolding(column_defs::specs::Keys::stream_symbol))]
pub fn mask_block(key: &[u8; 32], stripe: u32, out: &mut [Symbol])
    requires { length out.old ≤ 128 }
    ensures { out.new ≡ masks_from key.now (stripe * length out.old) (length out.old) }
{
    let first = u64::from(stripe) * out.len() as u64;
    let mut rng = ChaCha20Rng::from_seed(*key);
    rng.set_word_pos(4 * u128::from(first));
    for place in out.iter_mut() {
        *place = next_symbol(&mut rng);
    }
}
