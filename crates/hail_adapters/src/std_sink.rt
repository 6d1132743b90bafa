ghost use Rattle.std.specs.Prelude.{◌≡◌, ◌<◌, ◌≤◌, None, length, IfOk, OnOk, IsErrOf};
ghost use Rattle.stream_model.specs.declared.fault.WriteFault.TheVariants as write_fault;
ghost use Rattle.device_defs.specs.Faults.{one_more};

use file_parts::transfer::write_some;
use file_parts::tried::tried_writing;
use hail_field::Memory;
use std::marker::Model;
use std::rt::Runtime;
use stream_model::{Sink, WriteFault};

/// Standard output as a sink, seen in contracts as its count of faults. It tells nothing of what was written.
/// A write that takes nothing of a piece that is not empty is a fault too.
#[derive(Drop)]
pub struct StdSink<R: Runtime> {
    rt: R,
    faults: u64,
}

impl<R: Runtime> Model for StdSink<R> {
    ghost use Rattle.std.specs.Prelude.{ℕ};

    ghost Value = { ℕ };

    ghost view = { λ sink. sink.faults };
}

impl<R: Runtime> StdSink<R> {
    /// Opens nothing. Want of memory is its one refusal.
    pub fn new(rt: &R) -> Result<StdSink<R>, Memory>
        ensures { IfOk result (λ sink. sink ≡ 0) }
    {
        Ok(StdSink {
            rt: rt.clone()?,
            faults: 0,
        })
    }
}

impl<R: Runtime> Sink for StdSink<R> {
    ghost written = { λ _. None };

    ghost faults = { λ sink. sink };

    fn write(&mut self, bytes: &[u8]) -> Result<usize, WriteFault>
        ensures at_most { IfOk result (λ n. n ≤ length bytes.now) }
        ensures some { IfOk result (λ n. 0 < length bytes.now → 0 < n) }
        ensures ok { OnOk result (self.new ≡ self.old) }
        ensures failed { IsErrOf result write_fault.Failed → self.new ≡ one_more self.old }
        ensures memory { IsErrOf result write_fault.Memory → self.new ≡ self.old }
    {
        tried_writing(write_some(&self.rt, bytes), &mut self.faults)
    }
}
