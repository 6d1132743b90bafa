//! Encoding of blocks.

use crate::blocks::{LONGEST, fill, mix_all, profile_named};
use crate::failure::Failure;
use crate::numbers::number_named;
use crate::outcome::{NOTHING, Outcome};
use hail_field::Symbol;
use server_code::AnyCode;
use std::alloc::Global;

/// Encoding of this many blocks, by the code of a profile.
#[derive(Drop)]
pub struct EncodeWork {
    code: AnyCode,
    count: u32,
}

impl EncodeWork {
    /// The work that these words name: a profile and a count of blocks. Makes the code, which takes memory.
    pub(crate) fn from_words(alloc: Global, words: &[String]) -> Result<EncodeWork, Failure> {
        let [profile, count] = words else {
            return Err(Failure::Usage);
        };
        let profile = profile_named(profile)?;
        let count = number_named(count)?;
        let code = AnyCode::new(alloc, profile)?;
        Ok(EncodeWork { code, count })
    }

    /// Encodes the blocks. The checksum is of each symbol of each codeword.
    #[tactic(auto, using(crate::proofs::Profiles::profile_small))]
    pub(crate) fn run(&self) -> Outcome {
        let profile = self.code.profile();
        let mut kept = [Symbol::ZERO; LONGEST];
        let mut block = [Symbol::ZERO; LONGEST];
        let kept = &mut kept[..profile.keep as usize];
        let block = &mut block[..profile.size as usize];
        let mut sum = 0;
        for number in 0..self.count {
            fill(number, kept);
            self.code.encode_into(kept, block);
            sum = mix_all(sum, block);
        }
        Outcome {
            count: self.count,
            checksum: sum,
            decoded: NOTHING,
        }
    }
}
