//! What the works on stripes have in common: the file, its bytes, the blocks of a stripe, and the checksum of
//! blocks.
ghost use Rattle.std.specs.Prelude.{◌≡◌, ◌<◌};

use crate::blocks::{mix_all, profile_named};
use crate::failure::Failure;
use crate::numbers::{after, number_named};
use code_points::Profile;
use column_codec::{Bench, Block};
use file_layout::FileShape;
use hail_field::Shape;
use key_schedule::Master;
use record_defs::LARGEST_FILE;
use std::alloc::Global;

/// The key that all works on stripes are done with.
pub const MASTER: Master = Master([7; 32]);

/// Makes the block of a provider in a stripe of a file of these bytes, on a bench for the file.
pub(crate) fn make(bench: &mut Bench, bytes: &[u8], stripe: u32, provider: u32)
    requires { provider < bench.old.keys.file.shape.n }
    ensures { bench.new.keys ≡ bench.old.keys }
{
    bench.take_stripe(bytes, stripe);
    bench.make_column(stripe, provider);
}

/// The bytes of a file of this length: the highest byte of each number of the fixed row.
pub(crate) fn bytes_of(alloc: Global, length: u32) -> Result<Vec<u8>, Failure> {
    let mut bytes = vec![in alloc; 0_u8; length as usize]?;
    let mut next: u128 = 1;
    for place in 0..bytes.len() {
        bytes[place] = (next >> 120) as u8;
        next = after(next);
    }
    Ok(bytes)
}

/// The shape that three words write; `Usage` where it is none.
fn shape_named(n: &str, l: &str, b: &str) -> Result<Shape, Failure> {
    Shape::new(n.parse::<u8>()?, l.parse::<u8>()?, b.parse::<u8>()?).ok_or(Failure::Usage)
}

/// A file over as many providers as three words write, and no other number.
pub(crate) fn file_over(
    n: &str,
    l: &str,
    b: &str,
    profile: Profile,
    length: u32,
) -> Result<FileShape, Failure> {
    if length > LARGEST_FILE {
        return Err(Failure::Usage);
    }
    let shape = shape_named(n, l, b)?;
    Ok(FileShape {
        id: 1,
        length,
        shape,
        profile,
    })
}

/// The file that these words name: a shape, a profile, and a count of bytes.
pub(crate) fn file_named(words: &[String]) -> Result<FileShape, Failure> {
    let [n, l, b, profile, bytes] = words else {
        return Err(Failure::Usage);
    };
    file_over(n, l, b, profile_named(profile)?, number_named(bytes)?)
}

/// A checksum, after each symbol of each block, the last symbol of a block first.
pub(crate) fn mix_blocks(start: u128, blocks: &[Block]) -> u128 {
    let mut sum = start;
    for j in 0..blocks.len() {
        sum = mix_all(sum, blocks[j].symbols());
    }
    sum
}
