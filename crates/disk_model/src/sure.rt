ghost use Rattle.std.specs.Prelude.{◌≡◌, ◌+◌, ◌≤◌, Some, min, length, take, drop, IfOk, IfErr, OnOk, OnErr, IsOk};
ghost use Rattle.stream_model.specs.declared.fault.WriteFault.TheVariants as write_fault;
ghost use Rattle.device_defs.specs.Cells.{reads, firm};
ghost use Rattle.device_defs.specs.Disks.{written, halved, marked, synced, Stopped};
ghost use Rattle.device_defs.specs.Faults.{one_more};
ghost use Rattle.device_defs.specs.Picks.{picked};
ghost use Rattle.record_defs.specs.Records.{largest_journal};

use crate::disk::Disk;
use crate::parts::{pick, put, tear, unmark};
use crate::range::LooseRange;
use std::alloc::Global;
use std::marker::Model;
use stream_model::{Failed, Memory, WriteFault};

/// A disk in memory that never fails. It counts its calls, but for `stop`.
#[derive(Drop)]
pub struct SureDisk {
    held: Vec<u8>,
    marks: Vec<bool>,
    loose: LooseRange,
    calls: u64,
}

impl Model for SureDisk {
    ghost use Rattle.std.specs.Prelude.{◌≡◌, vec_len};
    ghost use Rattle.std.specs.List.{zip};
    ghost use Rattle.disk_model.specs.InMemory.{SureInMemory};
    ghost use Rattle.disk_model.specs.Ranges.{IsFirmOutside};

    ghost Value = { SureInMemory };

    ghost view = { λ disk. record { cells = zip disk.held.items disk.marks.items; made = disk.calls } };

    ghost invariant = { λ disk. (vec_len disk.marks ≡ vec_len disk.held)
        × IsFirmOutside disk.loose.from disk.loose.to (zip disk.held.items disk.marks.items) };
}

impl SureDisk {
    ghost use Rattle.std.specs.Prelude.{◌≡◌, ◌⊎◌, ◌+◌, ◌≤◌, length, IfOk};
    ghost use Rattle.device_defs.specs.Cells.{reads, firm};
    ghost use Rattle.device_defs.specs.Disks.{halved, marked};

    /// A disk that reads these bytes, none of them loose.
    pub fn new(alloc: Global, bytes: &[u8]) -> Result<SureDisk, Memory>
        ensures cells { IfOk result (λ disk. disk.cells ≡ firm bytes.now) }
        ensures calls { IfOk result (λ disk. disk.made ≡ 0) }
    {
        let held = bytes.to_vec(alloc)?;
        let marks = vec![in alloc; false; bytes.len()]?;
        Ok(SureDisk {
            held,
            marks,
            loose: LooseRange::none(),
            calls: 0,
        })
    }

    /// The bytes that the disk reads.
    pub fn bytes(&self) -> &[u8]
        ensures { result.now ≡ reads self.now.cells }
    {
        &self.held
    }

    /// What a failing write of the disk in memory does: it writes the first half of the bytes, rounded down,
    /// if it has room, and none otherwise.
    pub(crate) fn tear_at(&mut self, at: u64, bytes: &[u8])
        requires { at + length bytes.now ≤ largest_journal }
        ensures torn { (self.new.cells ≡ halved at bytes.now self.old.cells)
            ⊎ (self.new.cells ≡ marked at (length bytes.now) self.old.cells) }
        ensures calls { self.new.made ≡ self.old.made }
    {
        let at = at as usize;
        self.loose = self.loose.with(at.min(self.held.len()), at + bytes.len());
        tear(&mut self.held, &mut self.marks, at, bytes);
    }
}

impl Disk for SureDisk {
    ghost holds = { λ disk. Some disk.cells };

    ghost faults = { λ _. 0 };

    ghost calls = { λ disk. disk.made };

    fn len(&mut self) -> Result<u64, Failed>
        ensures len { IfOk result (λ n. n ≡ length self.old.cells) }
        ensures same { self.new.cells ≡ self.old.cells }
        ensures sure { IsOk result }
        ensures counted { self.new.made ≡ one_more self.old.made }
    {
        self.calls = self.calls.saturating_add(1);
        Ok(self.held.len() as u64)
    }

    fn read_at(&mut self, at: u64, out: &mut [u8]) -> Result<usize, Failed>
        ensures at_most { IfOk result (λ n. n ≤ length out.old) }
        ensures bytes { IfOk result (λ n. take n out.new ≡ take (length out.old)
            (drop at (reads self.old.cells))) }
        ensures same { self.new.cells ≡ self.old.cells }
        ensures sure { IsOk result }
        ensures counted { self.new.made ≡ one_more self.old.made }
    {
        self.calls = self.calls.saturating_add(1);
        let len = self.held.len();
        if at >= len as u64 {
            return Ok(0);
        }
        let at = at as usize;
        let n = out.len().min(len - at);
        out[..n].copy_from_slice(&self.held[at..at + n]);
        Ok(n)
    }

    fn write_at(&mut self, at: u64, bytes: &[u8]) -> Result<(), WriteFault>
        requires { at + length bytes.now ≤ largest_journal }
        ensures ok { OnOk result (self.new.cells ≡ written at bytes.now self.old.cells) }
        ensures memory { OnErr result (self.new.cells ≡ self.old.cells) }
        ensures sure { IfErr result (λ e. e ≡ write_fault.Memory) }
        ensures counted { self.new.made ≡ one_more self.old.made }
    {
        self.calls = self.calls.saturating_add(1);
        let at = at as usize;
        self.loose = self.loose.with(at.min(self.held.len()), at + bytes.len());
        Ok(put(&mut self.held, &mut self.marks, at, bytes)?)
    }

    fn sync(&mut self) -> Result<(), Failed>
        ensures ok { self.new.cells ≡ synced self.old.cells }
        ensures sure { IsOk result }
        ensures counted { self.new.made ≡ one_more self.old.made }
    {
        self.calls = self.calls.saturating_add(1);
        unmark(&mut self.marks, self.loose);
        self.loose = LooseRange::none();
        Ok(())
    }

    /// The picks stand for the loose bytes in order; loose bytes past the end of the picks stay.
    fn stop(&mut self, picks: &[u8])
        ensures picked { self.new.cells ≡ firm (picked self.old.cells picks.now) }
        ensures image { Stopped self.old.cells self.new.cells }
        ensures calls { self.new.made ≡ self.old.made }
    {
        pick(&mut self.held, &mut self.marks, picks);
        self.loose = LooseRange::none();
    }
}
