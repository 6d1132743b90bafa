// How the answers of std become those of the devices, whose faults are counted.
ghost use Rattle.std.specs.Prelude.{◌≡◌, Ok, IfOk, OnOk, OnErr, IsErr, IsErrAnd, IsErrOf};
ghost use Rattle.std.specs.IoError.{error_kind};
ghost use Rattle.stream_model.specs.declared.fault.WriteFault.TheVariants as write_fault;
ghost use Rattle.device_defs.specs.Faults.{one_more};

use std::io;
use std::io::ErrorKind;
use stream_model::{Failed, WriteFault};

/// Counts a fault; the count stays at its last value.
fn raise(faults: &mut u64)
    ensures { faults.new ≡ one_more faults.old }
{
    *faults = faults.saturating_add(1);
}

/// What was tried, where each error is a fault.
pub fn tried<T: Drop>(answer: io::Result<T>, faults: &mut u64) -> Result<T, Failed>
    ensures value { IfOk result (λ value. answer ≡ Ok value) }
    ensures error { OnErr result (IsErr answer) }
    ensures ok { OnOk result (faults.new ≡ faults.old) }
    ensures failed { OnErr result (faults.new ≡ one_more faults.old) }
{
    match answer {
        Ok(value) => Ok(value),
        Err(_) => {
            raise(faults);
            Err(Failed)
        }
    }
}

/// What was tried, where each error is a fault, but for want of memory.
pub fn tried_writing<T: Drop>(answer: io::Result<T>, faults: &mut u64) -> Result<T, WriteFault>
    ensures value { IfOk result (λ value. answer ≡ Ok value) }
    ensures error { OnErr result (IsErr answer) }
    ensures ok { OnOk result (faults.new ≡ faults.old) }
    ensures failed { IsErrOf result write_fault.Failed → faults.new ≡ one_more faults.old }
    ensures memory { IsErrOf result write_fault.Memory → faults.new ≡ faults.old }
    ensures cause { IsErrOf result write_fault.Memory
        → IsErrAnd answer (λ error. error_kind error ≡ ErrorKind.OutOfMemory) }
{
    match answer {
        Ok(value) => Ok(value),
        Err(error) if error.kind() == ErrorKind::OutOfMemory => Err(WriteFault::Memory),
        Err(_) => {
            raise(faults);
            Err(WriteFault::Failed)
        }
    }
}
