ghost use Rattle.std.specs.Prelude.{◌≡◌};

use hail_field::Memory;
use hail_poly::Work;
use std::alloc::Global;

/// How many points the registers have room for.
const MOST_POINTS: usize = 128;

/// The registers of the decoders, which all that opens stripes shares.
#[derive(Drop)]
pub struct Codec {
    pub work: Work,
    pub ghost room: { work.size ≡ 128 },
}

impl Codec {
    /// Registers for the longest block.
    pub fn new(alloc: Global) -> Result<Codec, Memory> {
        let work = Work::new(alloc, MOST_POINTS)?;
        Ok(Codec { work })
    }
}
