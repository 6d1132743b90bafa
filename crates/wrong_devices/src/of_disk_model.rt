//! Bodies of the disk in memory, for disk_model's must-fail edits to spoil.
ghost use Rattle.std.specs.Prelude.{◌≡◌, ◌+◌, ◌≤◌, length, take, drop, IfOk, OnOk, IsErrOf};
ghost use Rattle.stream_model.specs.declared.fault.WriteFault.TheVariants as write_fault;
ghost use Rattle.device_defs.specs.Cells.{reads, firm};
ghost use Rattle.device_defs.specs.Disks.{written, Torn, synced};
ghost use Rattle.device_defs.specs.Picks.{picked};
ghost use Rattle.record_defs.specs.Records.{largest_journal};

use disk_model::{Disk, MemDisk};
use stream_model::{Failed, WriteFault};

/// `MemDisk::read_at`.
pub fn read_at(disk: &mut MemDisk, at: u64, out: &mut [u8]) -> Result<usize, Failed>
    ensures bytes { IfOk result (λ n. take n out.new ≡ take (length out.old)
        (drop at (reads disk.old.cells))) }
{
    disk.read_at(at, out)
}

/// `MemDisk::write_at`.
pub fn write_at(disk: &mut MemDisk, at: u64, bytes: &[u8]) -> Result<(), WriteFault>
    requires { at + length bytes.now ≤ largest_journal }
    ensures ok { OnOk result (disk.new.cells ≡ written at bytes.now disk.old.cells) }
    ensures torn { IsErrOf result write_fault.Failed
        → Torn at (length bytes.now) disk.old.cells disk.new.cells }
{
    disk.write_at(at, bytes)
}

/// `MemDisk::sync`.
pub fn sync(disk: &mut MemDisk) -> Result<(), Failed>
    ensures ok { OnOk result (disk.new.cells ≡ synced disk.old.cells) }
{
    disk.sync()
}

/// `MemDisk::stop`.
pub fn stop(disk: &mut MemDisk, picks: &[u8])
    ensures picked { disk.new.cells ≡ firm (picked disk.old.cells picks.now) }
{
    disk.stop(picks);
}
