ghost use Rattle.std.specs.Prelude.{◌≡◌, ◌<◌, ◌≤◌, length, IfOk, IfSome, IfNone, IsOk, IsErrOf};
ghost use Rattle.stream_model.specs.declared.fault.WriteFault.TheVariants as write_fault;
ghost use Rattle.device_defs.specs.Cells.{reads};
ghost use Rattle.record_defs.specs.Records.{largest_journal};
ghost use Rattle.opening_defs.specs.Journals.{journal_read};
ghost use Rattle.vault_open.specs.Disks.{ReadsDisk};

use disk_model::Disk;
use record_defs::LARGEST_JOURNAL;
use std::alloc::Global;
use stream_model::WriteFault;

/// The largest length of a disk that counts as empty, in bytes.
const EMPTY: u64 = 9;

/// The bytes of a disk that are looked at, after a sync; None where it has at most nine, of which none is
/// read.
pub(crate) fn read_disk<D: Disk>(alloc: Global, disk: &mut D) -> Result<Option<Vec<u8>>, WriteFault>
    ensures empty { IfOk result (λ found. IfSome (D.holds disk.old)
        (λ cells. IfNone found (length (reads cells) ≤ 9))) }
    ensures bytes { IfOk result (λ found. IfSome (D.holds disk.old) (λ cells. IfSome found (λ v.
        (9 < length (reads cells)) × (v.items ≡ journal_read cells)))) }
    ensures few { IfOk result (λ found. IfSome found (λ v. length v.items ≤ largest_journal)) }
    ensures disk { ReadsDisk (D.holds disk.old) (D.holds disk.new) (D.faults disk.old) (D.faults disk.new)
        (IsOk result) (IsErrOf result write_fault.Failed) }
{
    disk.sync()?;
    let len = disk.len()?;
    if len <= EMPTY {
        return Ok(None);
    }
    let mut bytes = vec![in alloc; 0u8; len.min(LARGEST_JOURNAL) as usize]?;
    let count = disk.read_at(0, &mut bytes)?;
    bytes.truncate(count);
    Ok(Some(bytes))
}
