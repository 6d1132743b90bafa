ghost use Rattle.std.specs.Prelude.{◌≡◌, length, IfOk};
ghost use Rattle.trial_maker.specs.Draws.{next_draw, draw, byte_of, bytes_behind};

use std::alloc::{AllocError, Global};

/// Knuth's linear congruential generator of MMIX, over the numbers below 2^64.
#[derive(Drop)]
pub(crate) struct Draws {
    pub(crate) last: u64,
}

impl Draws {
    /// The generator behind its seed.
    pub(crate) fn new(seed: u64) -> Draws
        ensures { result.last ≡ seed }
    {
        Draws { last: seed }
    }

    /// The next draw.
    pub(crate) fn next(&mut self) -> u64
        ensures value { result ≡ next_draw self.old.last }
        ensures last { self.new.last ≡ result }
    {
        self.last = self
            .last
            .wrapping_mul(6364136223846793005)
            .wrapping_add(1442695040888963407);
        self.last
    }

    /// The byte of the next draw: its upper eight bits.
    fn next_byte(&mut self) -> u8
        ensures value { result ≡ byte_of (next_draw self.old.last) }
        ensures last { self.new.last ≡ next_draw self.old.last }
    {
        let drawn = self.next();
        (drawn >> 56) as u8
    }

    /// Fills a slice with the bytes of the next draws.
    fn fill(&mut self, bytes: &mut [u8])
        ensures bytes { bytes.new ≡ bytes_behind self.old.last 0 (length bytes.old) }
        ensures last { self.new.last ≡ draw self.old.last (length bytes.old) }
    {
        for place in 0..bytes.len() {
            bytes[place] = self.next_byte();
        }
    }

    /// The bytes of the next 32 draws.
    pub(crate) fn key(&mut self) -> [u8; 32]
        ensures bytes { result ≡ bytes_behind self.old.last 0 32 }
        ensures last { self.new.last ≡ draw self.old.last 32 }
    {
        let mut key = [0u8; 32];
        self.fill(&mut key);
        key
    }

    /// The bytes of the next draws.
    pub(crate) fn bytes(&mut self, alloc: Global, count: usize) -> Result<Vec<u8>, AllocError>
        ensures bytes { IfOk result (λ bytes. bytes.items ≡ bytes_behind self.old.last 0 count) }
    {
        let mut bytes = vec![in alloc; 0u8; count]?;
        self.fill(&mut bytes);
        Ok(bytes)
    }
}
