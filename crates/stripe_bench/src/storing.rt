ghost use Rattle.std.specs.Prelude.{◌≡◌, ◌≤◌, ◌<◌, length};
ghost use Rattle.column_defs.specs.Columns.{column_of_symbols};
ghost use Rattle.device_defs.specs.Faults.{one_more};
ghost use Rattle.provider_model.specs.Seen.{StoresAs, provider_seen};
ghost use Rattle.column_codec.specs.Bench.{bench_object, turned};

use column_codec::Bench;
use hail_field::Symbol;
use provider_model::{Provider, StoreFault};

/// Stores one block.
fn store_block<P: Provider>(
    to: &mut P,
    object: u64,
    stripe: u32,
    block: &[Symbol],
) -> Result<(), StoreFault>
    requires some { 1 ≤ length block.now }
    requires few { length block.now ≤ 128 }
    ensures stored { StoresAs object stripe block.now result (provider_seen P.Provider to.old)
        (provider_seen P.Provider to.new) }
    ensures called { P.calls to.new ≡ one_more (P.calls to.old) }
{
    to.store(object, stripe, block)
}

/// Stores a provider's block of the stripe at hand on a bench.
pub fn store_stripe<P: Provider>(
    bench: &mut Bench,
    to: &mut P,
    provider: u32,
    object: u64,
    stripe: u32,
) -> Result<(), StoreFault>
    requires { provider < bench.old.keys.file.shape.n }
    ensures stored { StoresAs object stripe
        (column_of_symbols (turned bench.old object) bench.old.rows.items provider stripe) result
        (provider_seen P.Provider to.old) (provider_seen P.Provider to.new) }
    ensures called { P.calls to.new ≡ one_more (P.calls to.old) }
    ensures object { bench_object bench.new ≡ turned bench.old object }
    ensures rows { bench.new.rows ≡ bench.old.rows }
{
    bench.turn_to(object);
    bench.make_column(stripe, provider);
    store_block(to, object, stripe, &bench.column)
}
