//! Making of the blocks of a file's stripes.
ghost use Rattle.std.specs.Prelude.{◌≡◌, IfOk, All, length};

use crate::failure::Failure;
use crate::outcome::{NOTHING, Outcome};
use crate::stripes::{MASTER, bytes_of, file_named, mix_blocks};
use column_codec::{Bench, Block, ObjectKeys};
use file_layout::FileShape;
use std::alloc::Global;

/// Making of all providers' blocks of each stripe of a file.
#[derive(Drop)]
pub struct PutWork {
    file: FileShape,
    bytes: Vec<u8>,
}

/// Blocks of zeros, one for each provider of a file.
fn zero_blocks(alloc: Global, file: &FileShape) -> Result<Vec<Block>, Failure>
    ensures count { IfOk result (λ blocks. length blocks.items ≡ file.now.shape.n) }
    ensures sizes { IfOk result (λ blocks.
        All (λ block. length block ≡ file.now.profile.size) blocks.items) }
{
    let mut blocks = Vec::new(alloc);
    for _ in 0..file.shape.n {
        let block = Block::zeros(alloc, file.profile.size as usize)?;
        blocks.push(block)?;
    }
    Ok(blocks)
}

impl PutWork {
    /// The work that these words name: a shape, a profile and a count of bytes. Makes the bytes.
    pub(crate) fn from_words(alloc: Global, words: &[String]) -> Result<PutWork, Failure> {
        let file = file_named(words)?;
        let bytes = bytes_of(alloc, file.length)?;
        Ok(PutWork { file, bytes })
    }

    /// Makes the blocks of each stripe, each time in the same room, and what they are made with. The checksum
    /// is of each symbol of each block.
    pub(crate) fn run(&self, alloc: Global) -> Result<Outcome, Failure> {
        let keys = ObjectKeys::with_tables(alloc, &MASTER, &self.file)?;
        let mut bench = Bench::new(alloc, keys)?;
        let mut room = zero_blocks(alloc, &self.file)?;
        let blocks: &mut [Block] = &mut room;
        let count = self.file.stripes();
        let mut sum = 0;
        for stripe in 0..count {
            bench.encode(stripe, &self.bytes, blocks);
            sum = mix_blocks(sum, blocks);
        }
        Ok(Outcome {
            count,
            checksum: sum,
            decoded: NOTHING,
        })
    }
}
