ghost use Rattle.std.specs.Prelude.{◌≡◌, ◌*◌, length, All, IfOk};

use crate::at_hand::AtHand;
use crate::bench::Bench;
use crate::block::Block;
use crate::keys::ObjectKeys;
use file_layout::FileShape;
use hail_field::{Memory, Symbol};
use key_schedule::Master;
use server_code::AnyCode;
use std::alloc::Global;

/// So many blocks of so many zeros.
fn zero_blocks(alloc: Global, count: usize, size: usize) -> Result<Vec<Block>, Memory>
    ensures count { IfOk result (λ v. length v.items ≡ count) }
    ensures sizes { IfOk result (λ v. All (λ block. length block ≡ size) v.items) }
{
    let mut blocks = Vec::with_capacity(alloc, count)?;
    for _ in 0..count {
        blocks.push_reserved(Block::zeros(alloc, size)?);
    }
    Ok(blocks)
}

/// What a bench works on, all zeros: the symbols of a stripe, those of a block, and a block of each provider.
fn zeros_for(
    alloc: Global,
    file: &FileShape,
) -> Result<(Vec<Symbol>, Vec<Symbol>, Vec<Block>), Memory>
    ensures rows { IfOk result (λ v. length v.0.items ≡ file.now.shape.l * file.now.profile.keep) }
    ensures column { IfOk result (λ v. length v.1.items ≡ file.now.profile.size) }
    ensures scratch { IfOk result (λ v. length v.2.items ≡ file.now.shape.n) }
    ensures blocks { IfOk result (λ v. All (λ block. length block ≡ file.now.profile.size) v.2.items) }
{
    let size = file.profile.size as usize;
    let symbols = usize::from(file.shape.l) * file.profile.keep as usize;
    let rows = vec![in alloc; Symbol::ZERO; symbols]?;
    let column = vec![in alloc; Symbol::ZERO; size]?;
    let scratch = zero_blocks(alloc, usize::from(file.shape.n), size)?;
    Ok((rows, column, scratch))
}

impl Bench {
    /// A bench for the object of these keys, with zeros at hand, which takes memory.
    pub fn new(alloc: Global, keys: ObjectKeys) -> Result<Bench, Memory>
        ensures { IfOk result (λ bench. bench.keys ≡ keys) }
    {
        let code = AnyCode::new(alloc, keys.file.profile)?;
        let (rows, column, scratch) = zeros_for(alloc, &keys.file)?;
        Ok(Bench {
            keys,
            code,
            rows,
            column,
            scratch,
            at_hand: AtHand::new(),
        })
    }

    /// A bench for a file's object, with tables of its weights where these save more than they take. It takes
    /// memory.
    pub fn made(alloc: Global, master: &Master, file: &FileShape) -> Result<Bench, Memory>
        ensures master { IfOk result (λ bench. bench.keys.master ≡ master.now) }
        ensures file { IfOk result (λ bench. bench.keys.file ≡ file.now) }
    {
        let keys = keys_of(alloc, master, file)?;
        Bench::new(alloc, keys)
    }
}

/// From so many kept rows on a file's keys have tables: a table takes 128 products, twice in a put, and saves
/// one a row.
const MANY_ROWS: u64 = 256;

/// The keys of a file's object, with tables where these save more than they take.
fn keys_of(alloc: Global, master: &Master, file: &FileShape) -> Result<ObjectKeys, Memory>
    ensures master { IfOk result (λ keys. keys.master ≡ master.now) }
    ensures file { IfOk result (λ keys. keys.file ≡ file.now) }
{
    let kept_rows = u64::from(file.stripes()) * u64::from(file.profile.keep);
    if kept_rows < MANY_ROWS {
        Ok(ObjectKeys::new(master, file))
    } else {
        ObjectKeys::with_tables(alloc, master, file)
    }
}
