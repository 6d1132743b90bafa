//! How what was fetched of a stripe differs from what its opening gives.
ghost use Rattle.std.specs.Prelude.{◌≡◌, ◌+◌, ◌<◌, ◌≤◌, ℕ, length, slice_index, IfOk, IfErr, IfSome};
ghost use Rattle.std.specs.Option.{option_copied};
ghost use Rattle.column_defs.specs.Opened.{block_at, LosesRow};
ghost use Rattle.machine_defs.specs.Alone.{differs};
ghost use Rattle.column_codec.specs.Bench.{bench_object, turned};
ghost use Rattle.stripe_bench.specs.Blocks.{blocks_in};
ghost use Rattle.hail_scrub.specs.Todo.{stores_from};
ghost use Rattle.hail_scrub.specs.Steps.{off_in};
ghost use Rattle.hail_scrub.specs.Compared.{HasBlocks, IsSurveyed};

use column_codec::{Bench, Codec, RowLost};
use hail_field::Symbol;
use server_code::count_differences;
use stripe_bench::Blocks;

/// How many symbols of a block are not those that it should hold; all of them where there is none.
fn off_by(seen: Option<&[Symbol]>, right: &[Symbol]) -> u64
    requires even { IfSome seen (λ block. length block.now ≡ length right.now) }
    requires few { length right.now ≤ 128 }
    ensures value { result ≡ differs (option_copied seen.entry) right.now }
    ensures few { result ≤ 128 }
{
    match seen {
        Some(block) => u64::from(count_differences(block, right)),
        None => right.len() as u64,
    }
}

/// The block that a provider gave, if it did.
fn block_of(blocks: &Blocks, provider: u32) -> Option<&[Symbol]>
    ensures { option_copied result ≡ block_at (blocks_in blocks.now) provider }
{
    match blocks.at(provider as usize) {
        Some(block) => block,
        None => None,
    }
}

/// How many symbols of the block that a provider gave differ from what the symbols at hand give.
fn provider_off(bench: &mut Bench, blocks: &Blocks, stripe: u32, provider: u32) -> u64
    requires blocks { HasBlocks bench.old blocks.now }
    requires within { provider < bench.old.keys.file.shape.n }
    ensures value { result ≡ off_in (bench_object bench.old) stripe (blocks_in blocks.now)
        bench.old.rows.items provider }
    ensures few { result ≤ 128 }
    ensures keys { bench.new.keys ≡ bench.old.keys }
    ensures rows { bench.new.rows ≡ bench.old.rows }
{
    bench.make_column(stripe, provider);
    off_by(block_of(blocks, provider), &bench.column)
}

/// The same of each provider; 0 where there is none.
fn compare(bench: &mut Bench, blocks: &Blocks, stripe: u32) -> [u64; 16]
    requires { HasBlocks bench.old blocks.now }
    ensures value { (j : ℕ) → j < bench.old.keys.file.shape.n → slice_index result j
        ≡ off_in (bench_object bench.old) stripe (blocks_in blocks.now) bench.old.rows.items j }
    ensures few { (j : ℕ) → slice_index result j ≤ 128 }
    ensures long { length result ≡ 16 }
    ensures keys { bench.new.keys ≡ bench.old.keys }
    ensures rows { bench.new.rows ≡ bench.old.rows }
{
    let mut off = [0; 16];
    for j in 0..u32::from(bench.keys.file.shape.n) {
        off[j as usize] = provider_off(bench, blocks, stripe, j);
    }
    off
}

/// Opens the stripe of an object whose blocks are these, one of each provider, and tells of each how many
/// symbols differ.
pub fn survey(
    bench: &mut Bench,
    codec: &mut Codec,
    blocks: &Blocks,
    object: u64,
    stripe: u32,
) -> Result<[u64; 16], RowLost>
    requires { HasBlocks bench.old blocks.now }
    ensures surveyed { IfOk result (IsSurveyed (turned bench.old object) stripe (blocks_in blocks.now)
        bench.new.rows.items) }
    ensures lost { IfErr result (λ lost. LosesRow (turned bench.old object) stripe (blocks_in blocks.now)
        lost.row) }
    ensures object { bench_object bench.new ≡ turned bench.old object }
{
    bench.turn_to(object);
    blocks.open(bench, codec, stripe)?;
    Ok(compare(bench, blocks, stripe))
}

/// How many of so many providers have a block that is off.
pub fn count_off(off: &[u64; 16], providers: u32) -> u64
    requires { providers ≤ 16 }
    ensures count { (o t : ℕ) → result ≡ length (stores_from providers 0 off.now o t) }
    ensures few { result ≤ providers }
{
    let mut count = 0;
    for j in 0..providers {
        if off[j as usize] != 0 {
            count += 1;
        }
    }
    count
}
