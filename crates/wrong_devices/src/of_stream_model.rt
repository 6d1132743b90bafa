//! Bodies of stream_model's public functions, for its must-fail edits to spoil.
ghost use Rattle.std.specs.Prelude.{◌≡◌, Some, take, IfOk, OnErr, IsErrOf, IsTrue};
ghost use Rattle.stream_model.specs.declared.fault.WriteFault.TheVariants as write_fault;
ghost use Rattle.device_defs.specs.Faults.{HasCause};
ghost use Rattle.device_defs.specs.Told.{then_told};

use stream_model::{Calls, Failed, MemSink, MemSource, Sink, Source, WriteFault};

/// `write_all`.
pub fn write_all<K: Sink>(sink: &mut K, bytes: &[u8]) -> Result<(), WriteFault>
    ensures cause { HasCause (K.faults sink.old) (K.faults sink.new) (IsErrOf result write_fault.Failed) }
{
    stream_model::write_all(sink, bytes)
}

/// `Calls::next`.
pub fn next(calls: &mut Calls) -> bool
    ensures cause { HasCause calls.old.failed calls.new.failed (IsTrue result) }
{
    calls.next()
}

/// `MemSink::write`.
pub fn write(sink: &mut MemSink, bytes: &[u8]) -> Result<usize, WriteFault>
    ensures err { OnErr result (Some sink.new.written ≡ Some sink.old.written) }
{
    sink.write(bytes)
}

/// `MemSource::read`.
pub fn read(source: &mut MemSource, out: &mut [u8]) -> Result<usize, Failed>
    ensures given { IfOk result (λ n.
        Some source.old.left ≡ then_told (take n out.new) (Some source.new.left)) }
{
    source.read(out)
}
