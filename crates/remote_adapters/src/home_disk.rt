ghost use Rattle.std.specs.Prelude.{◌≡◌, ◌≤◌, ◌<◌, ◌+◌, None, length, IfOk, OnOk, OnErr, IsErr, IsErrOf};
ghost use Rattle.stream_model.specs.declared.fault.WriteFault.TheVariants as write_fault;
ghost use Rattle.record_defs.specs.Records.{largest_journal};
ghost use Rattle.hail_adapters.specs.DiskCounts.{not_called, with_call, with_fault};
ghost use Rattle.remote_adapters.specs.Passes.{with_pass, HasFailed};

use crate::barrier::Barrier;
use disk_model::Disk;
use hail_adapters::FileDisk;
use std::fs::Files;
use std::marker::Model;
use stream_model::{Failed, WriteFault};

/// The disk of a home, seen in contracts as its counts of faults and calls, and those of its barrier. It tells
/// nothing of what it holds. A write comes behind the barrier: where that is not passed, the write is a fault,
/// and so is each one behind it.
#[derive(Drop)]
pub struct HomeDisk<R: Files + Clone + Drop> {
    disk: FileDisk<R>,
    barrier: Barrier<R>,
    faults: u64,
    calls: u64,
}

impl<R: Files + Clone + Drop> Model for HomeDisk<R> {
    ghost use Rattle.remote_adapters.specs.HomeCounts.{HomeDiskCounts};

    ghost Value = { HomeDiskCounts };

    ghost view = { λ disk. record {
      disk = record { faults = disk.faults; calls = disk.calls };
      barrier = disk.barrier;
    } };
}

/// Writes to a disk, behind a barrier. Where that is not passed, the disk is not called.
fn write_behind<R: Files + Clone + Drop>(
    barrier: &mut Barrier<R>,
    disk: &mut FileDisk<R>,
    at: u64,
    bytes: &[u8],
) -> Result<(), WriteFault>
    requires { at + length bytes.now ≤ largest_journal }
    ensures passed { OnOk result (barrier.new ≡ with_pass barrier.old) }
    ensures stopped { barrier.old.stopped < barrier.new.stopped → disk.new ≡ disk.old }
    ensures stays { HasFailed barrier.old → IsErr result }
    ensures untouched { HasFailed barrier.old → disk.new ≡ disk.old }
{
    if barrier.pass().is_err() {
        return Err(WriteFault::Failed);
    }
    disk.write_at(at, bytes)
}

impl<R: Files + Clone + Drop> HomeDisk<R> {
    /// A disk whose writes come behind this barrier.
    pub fn new(disk: FileDisk<R>, barrier: Barrier<R>) -> HomeDisk<R>
        ensures disk { result.disk ≡ not_called }
        ensures barrier { result.barrier ≡ barrier }
    {
        HomeDisk {
            disk,
            barrier,
            faults: 0,
            calls: 0,
        }
    }

    /// Counts a call; the count stays at its last value.
    fn count(&mut self)
        ensures { self.new ≡ record self.old { disk = with_call self.old.disk } }
    {
        self.calls = self.calls.saturating_add(1);
    }

    /// Counts a fault; the count stays at its last value.
    fn fail(&mut self) -> Failed
        ensures { self.new ≡ record self.old { disk = with_fault self.old.disk } }
    {
        self.faults = self.faults.saturating_add(1);
        Failed
    }
}

impl<R: Files + Clone + Drop> Disk for HomeDisk<R> {
    ghost holds = { λ _. None };

    ghost faults = { λ disk. disk.disk.faults };

    ghost calls = { λ disk. disk.disk.calls };

    fn len(&mut self) -> Result<u64, Failed>
        ensures ok { OnOk result (self.new ≡ record self.old { disk = with_call self.old.disk }) }
        ensures failed { OnErr result (self.new ≡ record self.old { disk = with_fault (with_call self.old.disk) }) }
    {
        self.count();
        match self.disk.len() {
            Ok(len) => Ok(len),
            Err(_) => Err(self.fail()),
        }
    }

    fn read_at(&mut self, at: u64, out: &mut [u8]) -> Result<usize, Failed>
        ensures at_most { IfOk result (λ n. n ≤ length out.old) }
        ensures ok { OnOk result (self.new ≡ record self.old { disk = with_call self.old.disk }) }
        ensures failed { OnErr result (self.new ≡ record self.old { disk = with_fault (with_call self.old.disk) }) }
    {
        self.count();
        match self.disk.read_at(at, out) {
            Ok(count) => Ok(count),
            Err(_) => Err(self.fail()),
        }
    }

    fn write_at(&mut self, at: u64, bytes: &[u8]) -> Result<(), WriteFault>
        requires { at + length bytes.now ≤ largest_journal }
        ensures ok { OnOk result (self.new.disk ≡ with_call self.old.disk) }
        ensures failed { IsErrOf result write_fault.Failed → self.new.disk ≡ with_fault (with_call self.old.disk) }
        ensures memory { IsErrOf result write_fault.Memory → self.new.disk ≡ with_call self.old.disk }
        ensures behind { OnOk result (self.new.barrier ≡ with_pass self.old.barrier) }
        ensures stays { HasFailed self.old.barrier → IsErr result }
    {
        self.count();
        match write_behind(&mut self.barrier, &mut self.disk, at, bytes) {
            Ok(()) => Ok(()),
            Err(WriteFault::Memory) => Err(WriteFault::Memory),
            Err(WriteFault::Failed) => {
                self.fail();
                Err(WriteFault::Failed)
            }
        }
    }

    fn sync(&mut self) -> Result<(), Failed>
        ensures ok { OnOk result (self.new ≡ record self.old { disk = with_call self.old.disk }) }
        ensures failed { OnErr result (self.new ≡ record self.old { disk = with_fault (with_call self.old.disk) }) }
    {
        self.count();
        match self.disk.sync() {
            Ok(()) => Ok(()),
            Err(_) => Err(self.fail()),
        }
    }

    /// A real file keeps what it reads.
    fn stop(&mut self, picks: &[u8])
        ensures { self.new ≡ self.old }
    {
        let _ = picks;
    }
}
