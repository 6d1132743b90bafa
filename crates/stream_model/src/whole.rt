ghost use Rattle.std.specs.Prelude.{◌≡◌, OnOk, OnErr, IsErrOf};
ghost use Rattle.stream_model.specs.declared.fault.WriteFault.TheVariants as write_fault;
ghost use Rattle.device_defs.specs.Faults.{HasCause};
ghost use Rattle.device_defs.specs.Told.{told_then, TakesFront};

use crate::fault::WriteFault;
use crate::sink::Sink;

/// Writes all of the bytes, in as many pieces as the sink takes them. After a fault some front of them is
/// written.
pub fn write_all<K: Sink>(sink: &mut K, bytes: &[u8]) -> Result<(), WriteFault>
    ensures ok { OnOk result (K.written sink.new ≡ told_then (K.written sink.old) bytes.now) }
    ensures err { OnErr result (TakesFront (K.written sink.old) (K.written sink.new) bytes.now) }
    ensures cause { HasCause (K.faults sink.old) (K.faults sink.new) (IsErrOf result write_fault.Failed) }
{
    let mut done = 0;
    while done < bytes.len() {
        let n = sink.write(&bytes[done..])?;
        done += n;
    }
    Ok(())
}
