ghost use Rattle.std.specs.Prelude.{◌≡◌, ◌<◌, ◌*◌, All, length, map, OnOk, OnErr};
ghost use Rattle.code_defs.specs.Points.{upto};
ghost use Rattle.column_defs.specs.Columns.{columns, column_of_symbols};
ghost use Rattle.file_layout.specs.Files.{shaped_object};

use column_codec::{Bench, Block};
use file_layout::FileShape;
use hail_field::{Memory, Symbol};
use key_schedule::Master;
use std::alloc::Global;

/// Fills the blocks that the providers of a file are to hold of a stripe of it, whose bytes are all of
/// `bytes`: n blocks of as many symbols as the profile has, in the order of providers, with masks on the
/// secondary ones (HAIL, 2009). Bytes past the end count as zeros. Want of memory is the one refusal, and
/// then nothing has changed. Where more stripes are made, a `Bench` saves deriving keys and tables each time.
pub fn encode_stripe(
    alloc: Global,
    master: &Master,
    file: &FileShape,
    stripe: u32,
    bytes: &[u8],
    out: &mut [Block],
) -> Result<(), Memory>
    requires out { length out.old ≡ file.now.shape.n }
    requires blocks { All (λ block. length block ≡ file.now.profile.size) out.old }
    ensures made { OnOk result (out.new ≡ map
        (λ j. columns (shaped_object master.now.0 file.now) bytes.now j stripe) (upto file.now.shape.n)) }
    ensures kept { OnErr result (out.new ≡ out.old) }
    ensures sizes { All (λ block. length block ≡ file.now.profile.size) out.new }
{
    let mut bench = Bench::made(alloc, master, file)?;
    bench.encode(stripe, bytes, out);
    Ok(())
}

/// Fills the block of one provider from the symbols of a stripe, which lie in layout order. Want of memory is
/// the one refusal, and then nothing has changed.
pub fn column_block(
    alloc: Global,
    master: &Master,
    file: &FileShape,
    stripe: u32,
    rows: &[Symbol],
    provider: u32,
    out: &mut [Symbol],
) -> Result<(), Memory>
    requires rows { length rows.now ≡ file.now.shape.l * file.now.profile.keep }
    requires provider { provider < file.now.shape.n }
    requires out { length out.old ≡ file.now.profile.size }
    ensures made { OnOk result (out.new
        ≡ column_of_symbols (shaped_object master.now.0 file.now) rows.now provider stripe) }
    ensures kept { OnErr result (out.new ≡ out.old) }
{
    let mut bench = Bench::made(alloc, master, file)?;
    bench.take_symbols(rows);
    bench.make_column(stripe, provider);
    out.copy_from_slice(&bench.column);
    Ok(())
}
