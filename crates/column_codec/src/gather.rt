ghost use Rattle.std.specs.Prelude.{◌≡◌, ◌≤◌, ◌<◌, ◌*◌, ℕ, List, length, slice_index, replicate};
ghost use Rattle.hail_field.specs.Nim.{nim_add};
ghost use Rattle.column_defs.specs.Objects.{symbols_in};
ghost use Rattle.file_layout.specs.Files.{shaped_object};

use file_layout::FileShape;
use hail_field::Symbol;

/// Fills `out` with the symbols of a stripe of a file.
#[tactic(auto, using(crate::proofs::Places::filled_more))]
pub fn stripe_symbols_into(file: &FileShape, stripe: u32, bytes: &[u8], out: &mut [Symbol])
    requires fits { length out.old ≡ file.now.shape.l * file.now.profile.keep }
    requires few { length out.old ≤ 2048 }
    ensures { (master : List ℕ) → out.new ≡ symbols_in (shaped_object master file.now) bytes.now stripe }
{
    let first = u64::from(stripe) * out.len() as u64;
    for i in 0..out.len() {
        out[i] = file.symbol_at(bytes, first + i as u64);
    }
}

/// Adds to each symbol the one at its place.
pub fn add_each(out: &mut [Symbol], other: &[Symbol])
    requires { length out.old ≡ length other.now }
    ensures { (i : ℕ) → i < length out.old
        → slice_index out.new i ≡ nim_add (slice_index out.old i) (slice_index other.now i) }
{
    for k in 0..out.len() {
        out[k] = out[k].add(other[k]);
    }
}
