//! Bodies of column_codec's public functions, for its must-fail edits to spoil.
ghost use Rattle.std.specs.Prelude.{◌≡◌, ◌<◌, ◌*◌, length};
ghost use Rattle.column_defs.specs.Columns.{column_of_symbols};
ghost use Rattle.column_defs.specs.Objects.{symbols_in};
ghost use Rattle.column_codec.specs.PresentBlocks.{present_blocks};
ghost use Rattle.column_codec.specs.Bench.{bench_object, OpensAs};

use column_codec::{Bench, Codec, ObjectKeys, RowLost};
use hail_field::Symbol;

/// `ObjectKeys::turn_to`.
pub fn turn_to(keys: &mut ObjectKeys, id: u64)
    ensures id { keys.new.file.id ≡ id }
{
    keys.turn_to(id);
}

/// `Bench::take_stripe`.
pub fn take_stripe(bench: &mut Bench, bytes: &[u8], stripe: u32)
    ensures rows { bench.new.rows.items ≡ symbols_in (bench_object bench.old) bytes.now stripe }
{
    bench.take_stripe(bytes, stripe);
}

/// `Bench::make_column`.
pub fn make_column(bench: &mut Bench, stripe: u32, provider: u32)
    requires { provider < bench.old.keys.file.shape.n }
    ensures column { bench.new.column.items
        ≡ column_of_symbols (bench_object bench.old) bench.old.rows.items provider stripe }
{
    bench.make_column(stripe, provider);
}

/// `Bench::open`.
pub fn open<'a>(
    bench: &mut Bench,
    codec: &mut Codec,
    stripe: u32,
    seen: &'a [Symbol],
    present: &'a [bool],
) -> Result<(), RowLost>
    requires seen { length seen.now ≡ bench.old.keys.file.shape.n * bench.old.keys.file.profile.size }
    requires present { length present.now ≡ bench.old.keys.file.shape.n }
    ensures opened { OpensAs (bench_object bench.old) stripe
        (present_blocks bench.old.keys.file.profile.size present.now seen.now) result
        bench.new.rows.items }
{
    bench.open(codec, stripe, seen, present)
}
