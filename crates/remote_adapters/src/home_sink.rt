ghost use Rattle.std.specs.Prelude.{◌≡◌, ◌<◌, ◌≤◌, None, length, IfOk, OnOk, IsErr, IsErrOf};
ghost use Rattle.stream_model.specs.declared.fault.WriteFault.TheVariants as write_fault;
ghost use Rattle.device_defs.specs.Faults.{one_more};
ghost use Rattle.remote_adapters.specs.Passes.{with_pass, HasFailed};

use crate::barrier::Barrier;
use hail_adapters::StdSink;
use std::marker::Model;
use stream_model::{Sink, WriteFault};

/// Standard output of a command over a home, seen in contracts as its count of faults, and those of its
/// barrier. It tells nothing of what was written. A write comes behind the barrier: where that is not passed, the write is a fault, and so
/// is each one behind it, so that no line and no answer tells of what was not done.
#[derive(Drop)]
pub struct HomeSink {
    sink: StdSink<HostRuntime>,
    barrier: Barrier<HostRuntime>,
    faults: u64,
}

impl Model for HomeSink {
    ghost use Rattle.remote_adapters.specs.HomeCounts.{HomeSinkCounts};

    ghost Value = { HomeSinkCounts };

    ghost view = { λ sink. record { faults = sink.faults; barrier = sink.barrier } };
}

/// Writes to a sink, behind a barrier. Where that is not passed, the sink is not called.
fn write_behind(
    barrier: &mut Barrier<HostRuntime>,
    sink: &mut StdSink<HostRuntime>,
    bytes: &[u8],
) -> Result<usize, WriteFault>
    ensures at_most { IfOk result (λ n. n ≤ length bytes.now) }
    ensures some { IfOk result (λ n. 0 < length bytes.now → 0 < n) }
    ensures passed { OnOk result (barrier.new ≡ with_pass barrier.old) }
    ensures stopped { barrier.old.stopped < barrier.new.stopped → sink.new ≡ sink.old }
    ensures stays { HasFailed barrier.old → IsErr result }
    ensures untouched { HasFailed barrier.old → sink.new ≡ sink.old }
{
    if barrier.pass().is_err() {
        return Err(WriteFault::Failed);
    }
    sink.write(bytes)
}

impl HomeSink {
    /// A sink whose writes come behind this barrier.
    pub fn new(sink: StdSink<HostRuntime>, barrier: Barrier<HostRuntime>) -> HomeSink
        ensures faults { result.faults ≡ 0 }
        ensures barrier { result.barrier ≡ barrier }
    {
        HomeSink {
            sink,
            barrier,
            faults: 0,
        }
    }
}

impl Sink for HomeSink {
    ghost written = { λ _. None };

    ghost faults = { λ sink. sink.faults };

    fn write(&mut self, bytes: &[u8]) -> Result<usize, WriteFault>
        ensures at_most { IfOk result (λ n. n ≤ length bytes.now) }
        ensures some { IfOk result (λ n. 0 < length bytes.now → 0 < n) }
        ensures ok { OnOk result (self.new.faults ≡ self.old.faults) }
        ensures failed { IsErrOf result write_fault.Failed → self.new.faults ≡ one_more self.old.faults }
        ensures memory { IsErrOf result write_fault.Memory → self.new.faults ≡ self.old.faults }
        ensures behind { OnOk result (self.new.barrier ≡ with_pass self.old.barrier) }
        ensures stays { HasFailed self.old.barrier → IsErr result }
    {
        match write_behind(&mut self.barrier, &mut self.sink, bytes) {
            Ok(count) => Ok(count),
            Err(WriteFault::Memory) => Err(WriteFault::Memory),
            Err(WriteFault::Failed) => {
                self.faults = self.faults.saturating_add(1);
                Err(WriteFault::Failed)
            }
        }
    }
}
