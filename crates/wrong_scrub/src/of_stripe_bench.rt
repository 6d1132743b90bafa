//! Bodies of stripe_bench's public functions, for its must-fail edits to spoil.
ghost use Rattle.std.specs.Prelude.{◌≡◌, ◌<◌, ℕ, Bool, List, Some, IfOk, map, slice_get};
ghost use Rattle.column_defs.specs.Columns.{column_of_symbols};
ghost use Rattle.device_defs.specs.ProviderCalls.{Fetches};
ghost use Rattle.provider_model.specs.Seen.{StoresAs, provider_seen};
ghost use Rattle.column_codec.specs.Bench.{bench_object, turned, OpensAs};
ghost use Rattle.stripe_bench.specs.Bench.{bench_kind, file_kind, HasAllBlocks};
ghost use Rattle.stripe_bench.specs.Blocks.{given_of, last_blocks, Grows, HasRoom};

use column_codec::{Bench, Codec, RowLost};
use file_layout::FileShape;
use hail_field::Memory;
use key_schedule::Master;
use provider_model::{Provider, StoreFault};
use std::alloc::Global;
use stripe_bench::Blocks;

/// `bench_place`.
pub fn bench_place(
    alloc: Global,
    benches: &mut Vec<Bench>,
    master: &Master,
    file: &FileShape,
) -> Result<usize, Memory>
    ensures place { IfOk result (λ place. slice_get (map bench_kind benches.new.items) place
        ≡ Some (file_kind master.now.0 file.now)) }
{
    stripe_bench::bench_place(alloc, benches, master, file)
}

/// `Blocks::fetch`.
pub fn fetch<P: Provider>(blocks: &mut Blocks, from: &mut P, object: u64, stripe: u32)
    requires { HasRoom blocks.old }
    ensures fetched { (found : Bool) × (block : List ℕ) × Grows blocks.old blocks.new found block
        × Fetches blocks.old.size object stripe (provider_seen P.Provider from.old)
        (given_of found block) (provider_seen P.Provider from.new) }
{
    blocks.fetch(from, object, stripe);
}

/// `Blocks::open`.
pub fn open(
    blocks: &Blocks,
    bench: &mut Bench,
    codec: &mut Codec,
    stripe: u32,
) -> Result<(), RowLost>
    requires { HasAllBlocks bench.old blocks.now }
    ensures opened { OpensAs (bench_object bench.old) stripe
        (last_blocks bench.old.keys.file.shape.n blocks.now) result bench.new.rows.items }
{
    blocks.open(bench, codec, stripe)
}

/// `store_stripe`.
pub fn store_stripe<P: Provider>(
    bench: &mut Bench,
    to: &mut P,
    provider: u32,
    object: u64,
    stripe: u32,
) -> Result<(), StoreFault>
    requires { provider < bench.old.keys.file.shape.n }
    ensures stored { StoresAs object stripe
        (column_of_symbols (turned bench.old object) bench.old.rows.items provider stripe) result
        (provider_seen P.Provider to.old) (provider_seen P.Provider to.new) }
{
    stripe_bench::store_stripe(bench, to, provider, object, stripe)
}
