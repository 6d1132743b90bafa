ghost use Rattle.std.specs.Prelude.{◌≡◌, ◌<◌};
ghost use Rattle.column_defs.specs.Keys as spec;

use crate::Master;
use hail_field::Symbol;
use sha2::{Digest, Sha256};

/// The key of provider `provider` for object `id` under a label, which is `b'M'` for masks and `b'P'` for
/// points: the SHA-256 (FIPS 180-4) of the master key, the label, the object's number and the provider's.
#[tactic(auto, unfolding(column_defs::specs::Keys::file_key))]
pub fn file_key(master: &Master, label: u8, id: u64, provider: u32) -> [u8; 32]
    ensures { result ≡ spec.file_key master.now.0 label id provider }
{
    let mut hasher = Sha256::new();
    hasher.update(master.0);
    hasher.update([label]);
    hasher.update(id.to_le_bytes());
    hasher.update(provider.to_le_bytes());
    hasher.finalize()
}

/// The point of a provider in the dispersal code of object `id`, which has `l` primary providers: a primary
/// provider's own number, and for a secondary one the first 16 bytes of its key with the first byte replaced
/// by its number.
#[tactic(auto, unfolding(column_defs::specs::Keys::secret_point))]
pub fn point(master: &Master, l: u32, id: u64, provider: u32) -> Symbol
    requires { provider < 16 }
    ensures { result ≡ spec.point_of l master.now.0 id provider }
{
    if provider < l {
        Symbol(u128::from(provider))
    } else {
        let key = file_key(master, b'P', id, provider);
        let mut bytes = [0; 16];
        bytes.copy_from_slice(&key[..16]);
        bytes[0] = provider as u8;
        Symbol::from_bytes(bytes)
    }
}

/// The ChaCha20 key of the challenge to object `id` in a round of audit `number`: the SHA-256 (FIPS 180-4) of
/// the master key, the letter `C` and the three numbers.
#[tactic(auto, unfolding(column_defs::specs::Keys::seed))]
pub fn seed(master: &Master, number: u64, id: u64, round: u32) -> [u8; 32]
    ensures { result ≡ spec.seed master.now.0 number id round }
{
    let mut hasher = Sha256::new();
    hasher.update(master.0);
    hasher.update([b'C']);
    hasher.update(number.to_le_bytes());
    hasher.update(id.to_le_bytes());
    hasher.update(round.to_le_bytes());
    hasher.finalize()
}
