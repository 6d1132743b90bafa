ghost use Rattle.std.specs.Prelude.{◌≡◌, ◌≤◌, ◌^◌};
ghost use Rattle.std.specs.Int.{w128, from_le_bytes};
ghost use Rattle.record_defs.specs.Records.{largest_file};

use code_points::Profile;
use hail_field::{Shape, Symbol};

/// A stored file: its object number, its length in bytes, at most that of the largest one, and the codes that it is stored with.
#[derive(Clone, Copy, Debug, PartialEq, Eq)]
pub struct FileShape {
    pub id: u64,
    pub length: u32,
    pub shape: Shape,
    pub profile: Profile,
    ghost short: { length ≤ largest_file },
}

// The symbol of the first 16 bytes, those past the end being zero.
fn first_symbol(bytes: &[u8]) -> Symbol
    ensures { result ≡ from_le_bytes w128 bytes.now }
{
    let mut symbol = [0; 16];
    let count = bytes.len().min(16);
    symbol[..count].copy_from_slice(&bytes[..count]);
    Symbol::from_bytes(symbol)
}

impl FileShape {
    ghost use Rattle.std.specs.Prelude.{◌≡◌, ◌≤◌, ◌^◌, ◌*◌, ℕ, List};
    ghost use Rattle.column_defs.specs.Objects as spec;
    ghost use Rattle.file_layout.specs.Files.{shaped_object};

    /// How many stripes the file has: each holds 16 bytes for each kept symbol of each primary provider.
    pub fn stripes(&self) -> u32
        ensures value { (master : List ℕ)
            → result ≡ spec.stripes (shaped_object master self.now) self.now.length }
        ensures bound { result ≤ self.now.length }
    {
        let stripe = 16 * u32::from(self.shape.l) * self.profile.keep;
        (self.length + (stripe - 1)) / stripe
    }

    /// How many rows the file has: as many for each stripe as a block has symbols.
    pub fn rows(&self) -> u64
        ensures value { (master : List ℕ)
            → result ≡ spec.stripes (shaped_object master self.now) self.now.length *
            self.now.profile.size }
        ensures bound { result ≤ 2 ^ 32 }
    {
        u64::from(self.stripes()) * u64::from(self.profile.size)
    }

    /// The symbol of this number of a file of these bytes: 16 bytes, those past the end being zero.
    #[tactic(auto, unfolding(column_defs::specs::Objects::symbol_of))]
    pub fn symbol_at(&self, bytes: &[u8], number: u64) -> Symbol
        ensures { result ≡ spec.symbol_of bytes.now number }
    {
        let start = (16 * u128::from(number)).min(bytes.len() as u128);
        first_symbol(&bytes[start as usize..])
    }
}
