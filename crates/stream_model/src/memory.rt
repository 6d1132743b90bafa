// A sink and a source in memory, some of whose calls fail.
ghost use Rattle.std.specs.Prelude.{◌≡◌, ◌<◌, ◌≤◌, ◌↔◌, min, Some, [], length, take, IfOk, OnErr, IsErr, IfSome, IsErrOf, IsTrue};
ghost use Rattle.stream_model.specs.declared.fault.WriteFault.TheVariants as write_fault;
ghost use Rattle.device_defs.specs.Faults.{HasCause};
ghost use Rattle.device_defs.specs.Told.{told_then, then_told};
ghost use Rattle.device_defs.specs.Calls.{fails_next, no_calls, called};

use crate::calls::Calls;
use crate::fault::{Failed, Memory, WriteFault};
use crate::front::copy_front;
use crate::sink::Sink;
use crate::source::Source;
use std::alloc::Global;
use std::marker::Model;

/// A sink in memory. Its calls are numbered from 0, and those listed fail; any other takes the whole piece.
#[derive(Drop)]
pub struct MemSink {
    bytes: Vec<u8>,
    calls: Calls,
}

impl Model for MemSink {
    ghost use Rattle.stream_model.specs.InMemory.{SinkInMemory};

    ghost Value = { SinkInMemory };

    ghost view = { λ sink. record { written = sink.bytes.items; calls = sink.calls } };
}

impl MemSink {
    /// A sink to which nothing was written. Want of memory is its one refusal.
    pub fn new(alloc: Global, fails: &[u64]) -> Result<MemSink, Memory>
        ensures empty { IfOk result (λ sink. sink.written ≡ []) }
        ensures calls { IfOk result (λ sink. sink.calls ≡ no_calls fails.now) }
    {
        Ok(MemSink {
            bytes: Vec::new(alloc),
            calls: Calls::new(alloc, fails)?,
        })
    }

    /// The bytes written so far.
    pub fn written(&self) -> &[u8]
        ensures { result.now ≡ self.now.written }
    {
        &self.bytes
    }
}

impl Sink for MemSink {
    ghost written = { λ sink. Some sink.written };

    ghost faults = { λ sink. sink.calls.failed };

    fn write(&mut self, bytes: &[u8]) -> Result<usize, WriteFault>
        ensures at_most { IfOk result (λ n. n ≤ length bytes.now) }
        ensures some { IfOk result (λ n. 0 < length bytes.now → 0 < n) }
        ensures taken { IfOk result (λ n.
            Some self.new.written ≡ told_then (Some self.old.written) (take n bytes.now)) }
        ensures err { OnErr result (Some self.new.written ≡ Some self.old.written) }
        ensures cause { HasCause self.old.calls.failed self.new.calls.failed
            (IsErrOf result write_fault.Failed) }

        ensures whole { IfOk result (λ n. n ≡ length bytes.now) }
        ensures fails { IsErrOf result write_fault.Failed ↔ IsTrue (fails_next self.old.calls) }
        ensures counted { self.new.calls ≡ called self.old.calls }
    {
        if self.calls.next() {
            return Err(WriteFault::Failed);
        }
        self.bytes.extend_from_slice(bytes)?;
        Ok(bytes.len())
    }
}

/// A source in memory. Its calls are numbered from 0, and those listed fail; any other gives as many bytes as
/// fit or are left.
#[derive(Drop)]
pub struct MemSource {
    bytes: Vec<u8>,
    at: usize,
    calls: Calls,
}

impl Model for MemSource {
    ghost use Rattle.std.specs.Prelude.{◌≤◌, length, drop};
    ghost use Rattle.stream_model.specs.InMemory.{SourceInMemory};

    ghost Value = { SourceInMemory };

    ghost view = { λ source. record { left = drop source.at source.bytes.items; calls = source.calls } };

    ghost invariant = { λ source. source.at ≤ length source.bytes.items };
}

impl MemSource {
    /// A source that has all of the bytes left. Want of memory is its one refusal.
    pub fn new(alloc: Global, bytes: &[u8], fails: &[u64]) -> Result<MemSource, Memory>
        ensures all_left { IfOk result (λ source. source.left ≡ bytes.now) }
        ensures calls { IfOk result (λ source. source.calls ≡ no_calls fails.now) }
    {
        Ok(MemSource {
            bytes: bytes.to_vec(alloc)?,
            at: 0,
            calls: Calls::new(alloc, fails)?,
        })
    }
}

impl Source for MemSource {
    ghost left = { λ source. Some source.left };

    ghost faults = { λ source. source.calls.failed };

    fn read(&mut self, out: &mut [u8]) -> Result<usize, Failed>
        ensures at_most { IfOk result (λ n. n ≤ length out.old) }
        ensures given { IfOk result (λ n.
            Some self.old.left ≡ then_told (take n out.new) (Some self.new.left)) }
        ensures end { IfOk result (λ n.
            n ≡ 0 → 0 < length out.old → IfSome (Some self.old.left) (λ xs. xs ≡ [])) }
        ensures err { OnErr result (Some self.new.left ≡ Some self.old.left) }
        ensures cause { HasCause self.old.calls.failed self.new.calls.failed (IsErr result) }

        ensures as_many { IfOk result (λ n. n ≡ min (length out.old) (length self.old.left)) }
        ensures fails { IsErr result ↔ IsTrue (fails_next self.old.calls) }
        ensures counted { self.new.calls ≡ called self.old.calls }
    {
        if self.calls.next() {
            return Err(Failed);
        }
        let n = copy_front(&self.bytes, self.at, out);
        self.at += n;
        Ok(n)
    }
}
