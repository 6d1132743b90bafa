//! Correcting of blocks.
ghost use Rattle.std.specs.Prelude.{◌≡◌, length};

use crate::blocks::{LONGEST, fill, mix, mix_all, profile_named};
use crate::failure::Failure;
use crate::numbers::number_named;
use crate::outcome::{NOTHING, Outcome};
use hail_field::Symbol;
use hail_poly::Work;
use server_code::AnyCode;
use std::alloc::Global;

/// Correcting of this many blocks, each with so many wrong symbols, by the code of a profile.
#[derive(Drop)]
pub struct DecodeWork {
    code: AnyCode,
    count: u32,
    errors: u32,
}

/// Adds an error to each of the first symbols of a block, as many as there are errors.
pub(crate) fn spoil(errors: u32, error: Symbol, block: &mut [Symbol])
    ensures { length block.new ≡ length block.old }
{
    for place in 0..block.len().min(errors as usize) {
        block[place] = block[place].add(error);
    }
}

impl DecodeWork {
    /// The work that these words name: a profile, a count of blocks, and how many symbols are wrong in each,
    /// which must be no more than the profile corrects. Makes the code, which takes memory.
    pub(crate) fn from_words(alloc: Global, words: &[String]) -> Result<DecodeWork, Failure> {
        let [profile, count, errors] = words else {
            return Err(Failure::Usage);
        };
        let profile = profile_named(profile)?;
        let count = number_named(count)?;
        let errors = number_named(errors)?;
        if errors > profile.fix {
            return Err(Failure::Usage);
        }
        let code = AnyCode::new(alloc, profile)?;
        Ok(DecodeWork {
            code,
            count,
            errors,
        })
    }

    /// Encodes the first block, spoils and corrects it again and again. The checksum is of how many symbols
    /// were changed, and of each symbol of the corrected block, each time.
    #[tactic(auto, using(crate::proofs::Profiles::profile_small))]
    pub(crate) fn run(&self, alloc: Global) -> Result<Outcome, Failure> {
        let profile = self.code.profile();
        let mut work = Work::new(alloc, profile.size as usize)?;
        let mut kept = [Symbol::ZERO; LONGEST];
        let mut block = [Symbol::ZERO; LONGEST];
        let kept = &mut kept[..profile.keep as usize];
        let block = &mut block[..profile.size as usize];
        fill(0, kept);
        self.code.encode_into(kept, block);
        let mut sum = 0;
        for number in 0..self.count {
            spoil(self.errors, Symbol(u128::from(number) + 1), block);
            let changed = self.code.decode_in(block, &mut work).unwrap_or(u32::MAX);
            sum = mix_all(mix(sum, Symbol(u128::from(changed))), block);
        }
        Ok(Outcome {
            count: self.count,
            checksum: sum,
            decoded: NOTHING,
        })
    }
}
