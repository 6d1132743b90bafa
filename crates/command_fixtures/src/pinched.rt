ghost use Rattle.std.specs.Prelude.{Some};

use crate::holder::Holder;
use crate::store::{Store, disk_of};
use disk_model::{Disk, SureDisk};
use std::alloc::Global;
use stream_model::{Calls, Failed, WriteFault};

/// A disk in memory of whose writes one finds no memory.
#[derive(Drop)]
pub struct PinchedDisk {
    inner: SureDisk,
    /// Its writes, of which that one is listed.
    writes: Calls,
}

impl PinchedDisk {
    /// A disk that reads these bytes, and whose write of this number, from 0 on, finds no memory. Want of
    /// memory is the one refusal.
    pub fn new(alloc: Global, bytes: &[u8], write: u64) -> Option<PinchedDisk> {
        Some(PinchedDisk {
            inner: SureDisk::new(alloc, bytes).ok()?,
            writes: Calls::new(alloc, &[write]).ok()?,
        })
    }

    /// The bytes that the disk reads.
    pub fn bytes(&self) -> &[u8] {
        self.inner.bytes()
    }
}

impl Disk for PinchedDisk {
    ghost holds = { λ disk. Some disk.inner.cells };

    ghost faults = { λ _. 0 };

    ghost calls = { λ disk. disk.inner.made };

    fn len(&mut self) -> Result<u64, Failed> {
        self.inner.len()
    }

    fn read_at(&mut self, at: u64, out: &mut [u8]) -> Result<usize, Failed> {
        self.inner.read_at(at, out)
    }

    /// A write that finds no memory is a call that changes nothing.
    fn write_at(&mut self, at: u64, bytes: &[u8]) -> Result<(), WriteFault> {
        if self.writes.next() {
            let _len = self.inner.len();
            return Err(WriteFault::Memory);
        }
        self.inner.write_at(at, bytes)
    }

    fn sync(&mut self) -> Result<(), Failed> {
        self.inner.sync()
    }

    fn stop(&mut self, picks: &[u8]) {
        self.inner.stop(picks);
    }
}

impl<P: Holder + Drop> Store<P> {
    /// Whether a command over a disk of the same bytes, whose write of this number finds no memory, ends with
    /// 70 and writes nothing. The disk then reads what that one was left with.
    pub fn is_pinched(&mut self, line: &str, input: &[u8], write: u64) -> bool {
        match PinchedDisk::new(self.alloc, self.disk.bytes(), write) {
            Some(mut disk) => {
                self.make_over(line, input, &mut disk);
                self.takes(disk_of(self.alloc, disk.bytes(), &[])) && self.is_told(70, 0, b"")
            }
            None => false,
        }
    }
}
