//! Opening of a file's stripes.

use crate::blocks::mix_all;
use crate::failure::Failure;
use crate::outcome::Outcome;
use crate::spoilt::Spoilt;
use crate::stripes::{MASTER, bytes_of, file_named, make};
use column_codec::{Bench, Codec, ObjectKeys};
use file_layout::FileShape;
use hail_field::Symbol;
use std::alloc::Global;

/// Opening of each stripe of a file, from the blocks of all providers as they were made, or spoilt, which lie
/// one after the other, by stripe and then by provider.
#[derive(Drop)]
pub struct GetWork {
    file: FileShape,
    seen: Vec<Symbol>,
}

/// The blocks of all stripes of a file, by stripe and then by provider.
fn made_all(alloc: Global, file: &FileShape, spoilt: Spoilt) -> Result<Vec<Symbol>, Failure> {
    let bytes = bytes_of(alloc, file.length)?;
    let mut bench = Bench::new(alloc, ObjectKeys::new(&MASTER, file))?;
    let mut seen = Vec::new(alloc);
    let n = u32::from(file.shape.n);
    for i in 0..file.stripes() * n {
        make(&mut bench, &bytes, i / n, i % n);
        spoilt.spoil(&mut bench, i / n, i % n);
        seen.extend_from_slice(&bench.column)?;
    }
    Ok(seen)
}

/// Opens a stripe, whose blocks come first in `seen`, and gives what lies behind them. A lost row is a fault.
fn open<'a>(
    bench: &mut Bench,
    codec: &mut Codec,
    stripe: u32,
    seen: &'a [Symbol],
) -> Result<&'a [Symbol], Failure> {
    let n = usize::from(bench.keys.file.shape.n);
    let whole = n * bench.keys.file.profile.size as usize;
    let Some((blocks, behind)) = seen.split_at_checked(whole) else {
        return Err(Failure::Fault);
    };
    let present = [true; 16];
    match bench.open(codec, stripe, blocks, &present[..n]) {
        Ok(()) => Ok(behind),
        Err(_) => Err(Failure::Fault),
    }
}

impl GetWork {
    /// The work on the file that these words name, a shape, a profile and a count of bytes, whose first
    /// providers spoil their blocks so. Makes the blocks.
    pub(crate) fn from_words(
        alloc: Global,
        spoilt: Spoilt,
        words: &[String],
    ) -> Result<GetWork, Failure> {
        let file = file_named(words)?;
        if !spoilt.fits(file.shape) {
            return Err(Failure::Usage);
        }
        let seen = made_all(alloc, &file, spoilt)?;
        Ok(GetWork { file, seen })
    }

    /// The same, where the first words say how the first providers spoil their blocks and how many of them
    /// do.
    pub(crate) fn spoilt_from_words(alloc: Global, words: &[String]) -> Result<GetWork, Failure> {
        let [way, count, rest @ ..] = words else {
            return Err(Failure::Usage);
        };
        let spoilt = Spoilt::from_words(way, count)?;
        GetWork::from_words(alloc, spoilt, rest)
    }

    /// Opens each stripe, each time in the same room, and makes what they are opened with. The checksum is of
    /// each symbol of its rows; told is also how much was decoded.
    pub(crate) fn run(&self, alloc: Global) -> Result<Outcome, Failure> {
        let keys = ObjectKeys::with_tables(alloc, &MASTER, &self.file)?;
        let mut bench = Bench::new(alloc, keys)?;
        let mut codec = Codec::new(alloc)?;
        let count = self.file.stripes();
        let mut sum = 0;
        let mut seen: &[Symbol] = &self.seen;
        for stripe in 0..count {
            seen = open(&mut bench, &mut codec, stripe, seen)?;
            sum = mix_all(sum, &bench.rows);
        }
        Ok(Outcome {
            count,
            checksum: sum,
            decoded: bench.at_hand.trust.decoded(),
        })
    }
}
