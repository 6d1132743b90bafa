use crate::holder::Holder;
use crate::store::Store;
use forged_stores::Stored;
use hail_field::Symbol;

/// Whether these symbols are all zero.
fn are_zero(block: &[Symbol]) -> bool {
    for symbol in block {
        if *symbol != Symbol(0) {
            return false;
        }
    }
    true
}

impl<P: Holder + Drop> Store<P> {
    /// The block of an object and a stripe that a provider holds.
    fn block(&self, provider: usize, object: u64, stripe: u32) -> Option<&[Symbol]> {
        self.providers.get(provider)?.block(object, stripe)
    }

    /// Whether a provider holds the first block of an object.
    pub fn holds(&self, provider: usize, object: u64) -> bool {
        self.block(provider, object, 0).is_some()
    }

    /// How many providers hold the first block of the object 1.
    pub fn holders(&self) -> usize {
        let mut count = 0usize;
        for provider in 0..self.providers.len() {
            if self.holds(provider, 1) {
                count = count.saturating_add(1);
            }
        }
        count
    }

    /// Whether a provider's first block of the object 1 has so many symbols, and whether all are zero.
    pub fn is_block(&self, provider: usize, len: usize, zero: bool) -> bool {
        match self.block(provider, 1, 0) {
            Some(block) => block.len() == len && are_zero(block) == zero,
            None => false,
        }
    }

    /// Whether a provider holds the blocks of an object and so many stripes, of so many symbols each, and not
    /// that of the next stripe.
    fn has_blocks(&self, provider: usize, object: u64, stripes: u32, symbols: usize) -> bool {
        for stripe in 0..stripes {
            match self.block(provider, object, stripe) {
                Some(block) if block.len() == symbols => {}
                _ => return false,
            }
        }
        self.block(provider, object, stripes).is_none()
    }

    /// Whether so many providers, the first ones, hold the blocks of an object and so many stripes, of so
    /// many symbols each, and the others none of it.
    pub fn are_blocks(&self, providers: usize, object: u64, stripes: u32, symbols: usize) -> bool {
        for provider in 0..self.providers.len() {
            let held = if provider < providers { stripes } else { 0 };
            if !self.has_blocks(provider, object, held, symbols) {
                return false;
            }
        }
        true
    }

    /// The symbols of the first blocks of the object 1. Want of memory is the one refusal.
    fn symbols(&self) -> Option<Vec<Symbol>> {
        let mut symbols = Vec::new(self.alloc);
        for provider in 0..self.providers.len() {
            let block = self.block(provider, 1, 0).unwrap_or(&[]);
            symbols.extend_from_slice(block).ok()?;
        }
        Some(symbols)
    }

    /// Keeps the first blocks of the object 1 in mind, which are some.
    pub fn keeps(&mut self) -> bool {
        match self.symbols() {
            Some(symbols) => {
                self.kept = symbols;
                self.kept.len() > 0
            }
            None => false,
        }
    }

    /// Whether the first blocks of the object 1 are those that were kept in mind.
    pub fn is_mended(&self) -> bool {
        match self.symbols() {
            Some(symbols) => symbols.as_slice() == self.kept.as_slice(),
            None => false,
        }
    }

    /// The bytes that the disk reads.
    pub fn journal(&self) -> &[u8] {
        self.disk.bytes()
    }

    /// Whether the disk reads these bytes from an offset on.
    pub fn reads(&self, at: usize, bytes: &[u8]) -> bool {
        match self.disk.bytes().get(at..) {
            Some(rest) => rest.starts_with(bytes),
            None => false,
        }
    }

    /// Whether the disk reads the journal of a store, and there are providers enough for it.
    pub fn is_known(&self, stored: Stored) -> bool {
        self.disk.bytes() == stored.journal() && self.providers.len() >= stored.providers()
    }

    /// Whether the last command ended with 0, and wrote other bytes than those of the file of a store.
    pub fn wrote_other(&self, stored: Stored) -> bool {
        match &self.last {
            Some(told) => told.status() == 0 && told.text() != stored.file(),
            None => false,
        }
    }

    /// Whether the jobs of the last command that heard something heard so much each.
    pub fn has_heard(&self, wanted: &[usize]) -> bool {
        match &self.last {
            Some(told) => told.has_heard(wanted),
            None => false,
        }
    }

    /// Whether the first job of the last command heard from a provider the first block of the object 1 that
    /// the provider holds.
    fn heard_from(&self, provider: usize) -> bool {
        match (&self.last, self.block(provider, 1, 0)) {
            (Some(told), Some(block)) => told.has_block_at(provider, block),
            _ => false,
        }
    }

    /// Whether it heard that from each of so many providers.
    pub fn heard_from_all(&self, count: usize) -> bool {
        for provider in 0..count {
            if !self.heard_from(provider) {
                return false;
            }
        }
        true
    }
}
