ghost use Rattle.std.specs.Prelude.{◌≡◌, ◌⊎◌, ◌↔◌, ◌+◌, ◌≤◌, Some, length, take, drop, IfOk, OnOk, OnErr, IsErr, IsErrOf, IsTrue};
ghost use Rattle.stream_model.specs.declared.fault.WriteFault.TheVariants as write_fault;
ghost use Rattle.device_defs.specs.Faults.{HasCause};
ghost use Rattle.device_defs.specs.Calls.{fails_next, no_calls, called};
ghost use Rattle.device_defs.specs.Cells.{reads, firm};
ghost use Rattle.device_defs.specs.Disks.{written, halved, marked, Torn, synced, Stopped};
ghost use Rattle.device_defs.specs.Picks.{picked};
ghost use Rattle.record_defs.specs.Records.{largest_journal};

use crate::disk::Disk;
use crate::sure::SureDisk;
use std::alloc::Global;
use std::marker::Model;
use stream_model::{Calls, Failed, Memory, WriteFault};

/// A disk in memory that counts its calls, but for `stop`, from 0, and fails those that are listed.
#[derive(Drop)]
pub struct MemDisk {
    inner: SureDisk,
    calls: Calls,
}

impl Model for MemDisk {
    ghost use Rattle.disk_model.specs.InMemory.{DiskInMemory};

    ghost Value = { DiskInMemory };

    ghost view = { λ disk. record { cells = disk.inner.cells; calls = disk.calls } };
}

impl MemDisk {
    /// A disk that reads these bytes, none of them loose.
    pub fn new(alloc: Global, bytes: &[u8], fails: &[u64]) -> Result<MemDisk, Memory>
        ensures cells { IfOk result (λ disk. disk.cells ≡ firm bytes.now) }
        ensures calls { IfOk result (λ disk. disk.calls ≡ no_calls fails.now) }
    {
        Ok(MemDisk {
            inner: SureDisk::new(alloc, bytes)?,
            calls: Calls::new(alloc, fails)?,
        })
    }

    /// The bytes that the disk reads.
    pub fn bytes(&self) -> &[u8]
        ensures { result.now ≡ reads self.now.cells }
    {
        self.inner.bytes()
    }
}

impl Disk for MemDisk {
    ghost holds = { λ disk. Some disk.cells };

    ghost faults = { λ disk. disk.calls.failed };

    ghost calls = { λ disk. disk.calls.made };

    fn len(&mut self) -> Result<u64, Failed>
        ensures len { IfOk result (λ n. n ≡ length self.old.cells) }
        ensures same { self.new.cells ≡ self.old.cells }
        ensures cause { HasCause self.old.calls.failed self.new.calls.failed (IsErr result) }
        ensures fails { IsErr result ↔ IsTrue (fails_next self.old.calls) }
        ensures counted { self.new.calls ≡ called self.old.calls }
    {
        if self.calls.next() {
            return Err(Failed);
        }
        self.inner.len()
    }

    fn read_at(&mut self, at: u64, out: &mut [u8]) -> Result<usize, Failed>
        ensures at_most { IfOk result (λ n. n ≤ length out.old) }
        ensures bytes { IfOk result (λ n. take n out.new ≡ take (length out.old)
            (drop at (reads self.old.cells))) }
        ensures same { self.new.cells ≡ self.old.cells }
        ensures cause { HasCause self.old.calls.failed self.new.calls.failed (IsErr result) }
        ensures fails { IsErr result ↔ IsTrue (fails_next self.old.calls) }
        ensures counted { self.new.calls ≡ called self.old.calls }
    {
        if self.calls.next() {
            return Err(Failed);
        }
        self.inner.read_at(at, out)
    }

    /// A failing write makes loose what the range had, and writes the first half of the bytes, rounded down,
    /// if there is room for it.
    fn write_at(&mut self, at: u64, bytes: &[u8]) -> Result<(), WriteFault>
        requires { at + length bytes.now ≤ largest_journal }
        ensures ok { OnOk result (self.new.cells ≡ written at bytes.now self.old.cells) }
        ensures failed { IsErrOf result write_fault.Failed
            → (self.new.cells ≡ halved at bytes.now self.old.cells)
            ⊎ (self.new.cells ≡ marked at (length bytes.now) self.old.cells) }
        ensures torn { IsErrOf result write_fault.Failed
            → Torn at (length bytes.now) self.old.cells self.new.cells }
        ensures memory { IsErrOf result write_fault.Memory → self.new.cells ≡ self.old.cells }
        ensures no_fault { IsErrOf result write_fault.Memory
            → self.new.calls.failed ≡ self.old.calls.failed }
        ensures cause { HasCause self.old.calls.failed self.new.calls.failed
            (IsErrOf result write_fault.Failed) }
        ensures fails { IsErrOf result write_fault.Failed ↔ IsTrue (fails_next self.old.calls) }
        ensures counted { self.new.calls ≡ called self.old.calls }
    {
        if self.calls.next() {
            self.inner.tear_at(at, bytes);
            return Err(WriteFault::Failed);
        }
        self.inner.write_at(at, bytes)
    }

    fn sync(&mut self) -> Result<(), Failed>
        ensures ok { OnOk result (self.new.cells ≡ synced self.old.cells) }
        ensures failed { OnErr result (self.new.cells ≡ self.old.cells) }
        ensures cause { HasCause self.old.calls.failed self.new.calls.failed (IsErr result) }
        ensures fails { IsErr result ↔ IsTrue (fails_next self.old.calls) }
        ensures counted { self.new.calls ≡ called self.old.calls }
    {
        if self.calls.next() {
            return Err(Failed);
        }
        self.inner.sync()
    }

    /// The picks stand for the loose bytes in order; loose bytes past the end of the picks stay. It is no
    /// counted call.
    fn stop(&mut self, picks: &[u8])
        ensures picked { self.new.cells ≡ firm (picked self.old.cells picks.now) }
        ensures image { Stopped self.old.cells self.new.cells }
        ensures calls { self.new.calls ≡ self.old.calls }
    {
        self.inner.stop(picks);
    }
}
