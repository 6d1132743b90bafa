ghost use Rattle.std.specs.Prelude.{◌≡◌, ◌*◌, length, All};
ghost use Rattle.server_code.specs.Any.{code_profile};

use crate::at_hand::AtHand;
use crate::block::Block;
use crate::codec::Codec;
use crate::coder::StripeCoder;
use crate::keys::ObjectKeys;
use crate::opening::RowLost;
use crate::seen::SeenStripe;
use hail_field::Symbol;
use server_code::AnyCode;

/// What the stripes of an object are made and opened with: its keys, the server code of its profile, the
/// symbols of one stripe in layout order, the block of one provider, room for a block of each, and what the
/// stripes before left at hand.
#[derive(Drop)]
pub struct Bench {
    pub keys: ObjectKeys,
    pub code: AnyCode,
    pub rows: Vec<Symbol>,
    pub column: Vec<Symbol>,
    pub scratch: Vec<Block>,
    pub at_hand: AtHand,
    pub ghost code_fits: { code_profile code ≡ keys.file.profile },
    pub ghost rows_fit: { length rows.items ≡ keys.file.shape.l * keys.file.profile.keep },
    pub ghost column_fits: { length column.items ≡ keys.file.profile.size },
    pub ghost scratch_fits: { length scratch.items ≡ keys.file.shape.n },
    pub ghost blocks_fit: { All (λ block. length block ≡ keys.file.profile.size) scratch.items },
}

impl Bench {
    ghost use Rattle.std.specs.Prelude.{◌≡◌, ◌<◌, ◌*◌, All, length, map, replicate, OnErr};
    ghost use Rattle.code_defs.specs.Points.{upto};
    ghost use Rattle.column_defs.specs.Columns.{columns, column_of_symbols};
    ghost use Rattle.column_defs.specs.Objects.{symbols_in};
    ghost use Rattle.column_codec.specs.PresentBlocks.{present_blocks};
    ghost use Rattle.column_codec.specs.Bench.{bench_object, OpensAs};

    /// Turns to another object of the same shape and profile.
    pub fn turn_to(&mut self, object: u64)
        ensures object { bench_object self.new ≡ record (bench_object self.old) { id = object } }
        ensures rows { self.new.rows ≡ self.old.rows }
    {
        if self.keys.file.id == object {
            return;
        }
        self.keys.turn_to(object);
    }

    /// Takes the symbols of a stripe, in layout order, as they are given.
    pub fn take_symbols(&mut self, symbols: &[Symbol])
        requires { length symbols.now ≡ self.old.keys.file.shape.l * self.old.keys.file.profile.keep }
        ensures keys { self.new.keys ≡ self.old.keys }
        ensures rows { self.new.rows.items ≡ symbols.now }
    {
        self.rows.copy_from_slice(symbols);
    }

    /// Takes the symbols of a stripe out of the bytes of a file. Those past the end are zero.
    pub fn take_stripe(&mut self, bytes: &[u8], stripe: u32)
        ensures keys { self.new.keys ≡ self.old.keys }
        ensures rows { self.new.rows.items ≡ symbols_in (bench_object self.old) bytes.now stripe }
    {
        self.keys.symbols_into(stripe, bytes, &mut self.rows);
    }

    /// Makes a provider's block of the stripe whose symbols are at hand. It takes no memory.
    pub fn make_column(&mut self, stripe: u32, provider: u32)
        requires { provider < self.old.keys.file.shape.n }
        ensures keys { self.new.keys ≡ self.old.keys }
        ensures rows { self.new.rows ≡ self.old.rows }
        ensures column { self.new.column.items
            ≡ column_of_symbols (bench_object self.old) self.old.rows.items provider stripe }
    {
        let coder = StripeCoder {
            keys: &self.keys,
            code: &self.code,
            stripe,
        };
        coder.column_into(
            &self.rows,
            provider as usize,
            &mut self.at_hand.masks,
            &mut self.column,
        );
    }

    /// Fills the blocks that the providers are to hold of a stripe of a file of these bytes (HAIL, 2009): n
    /// blocks of as many symbols as the profile has, in the order of providers, with masks on the secondary
    /// ones. Bytes past the file's end count as zeros. It takes no memory and refuses nothing. Blocks keep
    /// their sizes, so the next stripe can be made in them; the symbols at hand are then the stripe's.
    pub fn encode(&mut self, stripe: u32, bytes: &[u8], out: &mut [Block])
        requires out { length out.old ≡ self.old.keys.file.shape.n }
        requires blocks { All (λ block. length block ≡ self.old.keys.file.profile.size) out.old }
        ensures blocks { out.new ≡ map (λ j. columns (bench_object self.old) bytes.now j stripe)
            (upto self.old.keys.file.shape.n) }
        ensures sizes { All (λ block. length block ≡ self.old.keys.file.profile.size) out.new }
        ensures keys { self.new.keys ≡ self.old.keys }
        ensures rows { self.new.rows.items ≡ symbols_in (bench_object self.old) bytes.now stripe }
    {
        let coder = StripeCoder {
            keys: &self.keys,
            code: &self.code,
            stripe,
        };
        coder.encode(bytes, &mut self.rows, &mut self.at_hand.masks, out);
    }

    /// Opens a stripe from blocks that lie one after the other in `seen`, one a provider, each with a flag in
    /// `present`; what lies in the place of an absent one does not count. Each is opened to the codeword near
    /// it, each row to the polynomial of degree below `l` that agrees with enough of them: the symbols at
    /// hand are then the stripe's. `RowLost` comes exactly where some row at a kept place is not accepted,
    /// with the lowest such row; the symbols at hand are then all zero. It takes no memory.
    pub fn open<'a>(
        &mut self,
        codec: &mut Codec,
        stripe: u32,
        seen: &'a [Symbol],
        present: &'a [bool],
    ) -> Result<(), RowLost>
        requires seen { length seen.now ≡ self.old.keys.file.shape.n * self.old.keys.file.profile.size }
        requires present { length present.now ≡ self.old.keys.file.shape.n }
        ensures opened { OpensAs (bench_object self.old) stripe
            (present_blocks self.old.keys.file.profile.size present.now seen.now) result
            self.new.rows.items }
        ensures zeros { OnErr result (self.new.rows.items ≡ replicate (length self.old.rows.items) 0) }
        ensures keys { self.new.keys ≡ self.old.keys }
    {
        let coder = StripeCoder {
            keys: &self.keys,
            code: &self.code,
            stripe,
        };
        let seen = SeenStripe {
            coder,
            symbols: seen,
            present,
        };
        seen.open(
            &mut self.at_hand,
            &mut self.rows,
            &mut self.scratch,
            &mut codec.work,
        )
    }
}
