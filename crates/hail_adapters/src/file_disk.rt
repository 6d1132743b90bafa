ghost use Rattle.std.specs.Prelude.{◌≡◌, ◌≤◌, None, length, IfOk, OnOk, OnErr, IsErrOf};
ghost use Rattle.stream_model.specs.declared.fault.WriteFault.TheVariants as write_fault;
ghost use Rattle.hail_adapters.specs.DiskCounts.{not_called, with_call, with_fault};

use disk_model::Disk;
use file_parts::kept_file::KeptFile;
use file_parts::tried::{tried, tried_writing};
use hail_field::Memory;
use std::alloc::Global;
use std::fs::Files;
use std::marker::Model;
use stream_model::{Failed, WriteFault};

/// A file as a disk, seen in contracts as its counts of faults and calls. It tells nothing of what it holds.
/// Behind a sync that failed each call fails.
#[derive(Drop)]
pub struct FileDisk<R: Files + Clone + Drop> {
    file: KeptFile<R>,
    faults: u64,
    calls: u64,
}

impl<R: Files + Clone + Drop> Model for FileDisk<R> {
    ghost use Rattle.hail_adapters.specs.DiskCounts.{DiskCounts};

    ghost Value = { DiskCounts };

    ghost view = { λ disk. record { faults = disk.faults; calls = disk.calls } };
}

impl<R: Files + Clone + Drop> FileDisk<R> {
    /// The file at this path, which may be missing. Opens nothing; want of memory is its one refusal.
    pub fn new(rt: &R, alloc: Global, path: &str) -> Result<FileDisk<R>, Memory>
        ensures { IfOk result (λ disk. disk ≡ not_called) }
    {
        Ok(FileDisk {
            file: KeptFile::new(rt, alloc, path)?,
            faults: 0,
            calls: 0,
        })
    }
}

impl<R: Files + Clone + Drop> Disk for FileDisk<R> {
    ghost holds = { λ _. None };

    ghost faults = { λ disk. disk.faults };

    ghost calls = { λ disk. disk.calls };

    fn len(&mut self) -> Result<u64, Failed>
        ensures ok { OnOk result (self.new ≡ with_call self.old) }
        ensures failed { OnErr result (self.new ≡ with_fault (with_call self.old)) }
    {
        self.calls = self.calls.saturating_add(1);
        tried(self.file.len(), &mut self.faults)
    }

    fn read_at(&mut self, at: u64, out: &mut [u8]) -> Result<usize, Failed>
        ensures at_most { IfOk result (λ n. n ≤ length out.old) }
        ensures ok { OnOk result (self.new ≡ with_call self.old) }
        ensures failed { OnErr result (self.new ≡ with_fault (with_call self.old)) }
    {
        self.calls = self.calls.saturating_add(1);
        tried(self.file.read_at(at, out), &mut self.faults)
    }

    fn write_at(&mut self, at: u64, bytes: &[u8]) -> Result<(), WriteFault>
        ensures ok { OnOk result (self.new ≡ with_call self.old) }
        ensures failed { IsErrOf result write_fault.Failed → self.new ≡ with_fault (with_call self.old) }
        ensures memory { IsErrOf result write_fault.Memory → self.new ≡ with_call self.old }
    {
        self.calls = self.calls.saturating_add(1);
        tried_writing(self.file.write_at(at, bytes), &mut self.faults)
    }

    fn sync(&mut self) -> Result<(), Failed>
        ensures ok { OnOk result (self.new ≡ with_call self.old) }
        ensures failed { OnErr result (self.new ≡ with_fault (with_call self.old)) }
    {
        self.calls = self.calls.saturating_add(1);
        tried(self.file.sync(), &mut self.faults)
    }

    /// A real file keeps what it reads.
    fn stop(&mut self, picks: &[u8])
        ensures { self.new ≡ self.old }
    {
        let _ = picks;
    }
}
