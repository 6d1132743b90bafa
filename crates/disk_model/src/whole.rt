ghost use Rattle.std.specs.Prelude.{◌≡◌, take, IfOk, IfSome, IsErrOf};
ghost use Rattle.stream_model.specs.declared.fault.WriteFault.TheVariants as write_fault;
ghost use Rattle.device_defs.specs.Faults.{HasCause};
ghost use Rattle.device_defs.specs.Cells.{reads};
ghost use Rattle.record_defs.specs.Records.{largest_journal};

use crate::disk::Disk;
use record_defs::LARGEST_JOURNAL;
use std::alloc::Global;
use stream_model::WriteFault;

/// The first bytes of a disk, as many as a journal has at most, or all where there are fewer, by two calls of it.
pub fn read_front<D: Disk>(alloc: Global, disk: &mut D) -> Result<Vec<u8>, WriteFault>
    ensures bytes { IfOk result (λ v. IfSome (D.holds disk.old)
        (λ cells. v.items ≡ take largest_journal (reads cells))) }
    ensures same { D.holds disk.new ≡ D.holds disk.old }
    ensures no_fault { (IsErrOf result write_fault.Failed → ⊥) → D.faults disk.new ≡ D.faults disk.old }
    ensures cause { HasCause (D.faults disk.old) (D.faults disk.new) (IsErrOf result write_fault.Failed) }
{
    let len = disk.len()?;
    let n = len.min(LARGEST_JOURNAL) as usize;
    let mut out = vec![in alloc; 0u8; n]?;
    let k = disk.read_at(0, &mut out)?;
    out.truncate(k);
    Ok(out)
}
