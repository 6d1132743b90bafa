use crate::holder::{Holder, providers_of};
use crate::told::Told;
use disk_model::{Disk, MemDisk};
use hail_field::Symbol;
use provider_model::Tamper;
use std::alloc::Global;

/// The bytes of the master key are 0 to 31.
pub const KEY: &[u8] = b"000102030405060708090a0b0c0d0e0f101112131415161718191a1b1c1d1e1f\n";

/// A disk and providers in memory, what is told of the last command over them, and symbols that are kept in
/// mind.
#[derive(Drop)]
pub struct Store<P: Drop> {
    pub alloc: Global,
    pub disk: MemDisk,
    pub providers: Vec<P>,
    pub last: Option<Told>,
    pub kept: Vec<Symbol>,
}

/// A disk that reads these bytes and fails at these of its calls.
pub fn disk_of(alloc: Global, bytes: &[u8], fails: &[u64]) -> Option<MemDisk> {
    MemDisk::new(alloc, bytes, fails).ok()
}

/// Stops a disk by these picks.
fn stop_by<D: Disk>(disk: &mut D, picks: &[u8]) {
    disk.stop(picks);
}

/// Whether a provider loses the first block of an object.
fn loses<P: Tamper>(provider: &mut P, object: u64) -> bool {
    provider.lose(object, 0)
}

/// Whether a provider alters a symbol of the first block of the object 1.
fn alters<P: Tamper>(provider: &mut P, place: u32, symbol: u128) -> bool {
    provider.alter(1, 0, place, Symbol(symbol))
}

impl<P: Holder + Drop> Store<P> {
    /// An empty disk, and providers of these kinds.
    pub fn new(alloc: Global, kinds: &[P::Kind]) -> Option<Store<P>> {
        Some(Store {
            alloc,
            disk: disk_of(alloc, b"", &[])?,
            providers: providers_of(alloc, kinds)?,
            last: None,
            kept: Vec::new(alloc),
        })
    }

    /// The disk is empty again, and the providers are others, of these kinds. Answers whether there was
    /// memory.
    pub fn renew(&mut self, kinds: &[P::Kind]) -> bool {
        match providers_of(self.alloc, kinds) {
            Some(providers) => {
                self.providers = providers;
                self.takes(disk_of(self.alloc, b"", &[]))
            }
            None => false,
        }
    }

    /// The disk is another from now on. Answers whether there was memory for it.
    pub fn takes(&mut self, disk: Option<MemDisk>) -> bool {
        match disk {
            Some(disk) => {
                self.disk = disk;
                true
            }
            None => false,
        }
    }

    /// The disk is another from now on, which reads these bytes. Answers whether there was memory for it.
    pub fn takes_bytes(&mut self, bytes: Option<Vec<u8>>) -> bool {
        match bytes {
            Some(bytes) => self.takes(disk_of(self.alloc, &bytes, &[])),
            None => false,
        }
    }

    /// From now on the disk, whose bytes stay, fails at these of its calls. Answers whether there was memory.
    pub fn fails_at(&mut self, fails: &[u64]) -> bool {
        let disk = disk_of(self.alloc, self.disk.bytes(), fails);
        self.takes(disk)
    }

    /// Stops the disk by these picks.
    pub fn stops(&mut self, picks: &[u8]) {
        stop_by(&mut self.disk, picks);
    }

    /// The same, which is done whatever the picks are.
    pub fn is_stopped(&mut self, picks: &[u8]) -> bool {
        self.stops(picks);
        true
    }

    /// Leaves so many providers.
    pub fn has_left(&mut self, count: usize) -> bool {
        self.providers.truncate(count);
        self.providers.len() == count
    }

    /// Whether a provider loses the first block of an object.
    pub fn loses(&mut self, provider: usize, object: u64) -> bool {
        match self.providers.get_mut(provider) {
            Some(provider) => loses(provider, object),
            None => false,
        }
    }

    /// Whether a provider alters a symbol of the first block of the object 1.
    pub fn alters(&mut self, provider: usize, place: u32, symbol: u128) -> bool {
        match self.providers.get_mut(provider) {
            Some(provider) => alters(provider, place, symbol),
            None => false,
        }
    }
}
