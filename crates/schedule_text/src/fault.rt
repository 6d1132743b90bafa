ghost use Rattle.std.specs.Prelude.{◌≡◌};
ghost use Rattle.schedule_text.specs.declared.fault.LineFault.TheVariants as line_fault;
ghost use Rattle.schedule_text.specs.declared.fault.ScheduleFault.TheVariants as schedule_fault;

use std::alloc::AllocFailed;
use stream_model::Memory;

/// Why a schedule is not read: a line outside the grammar, which is the first such one, numbered from 1; or
/// want of memory.
#[derive(Clone, Copy)]
pub enum ScheduleFault {
    BadLine { number: u64 },
    Memory,
}

impl<T: Drop> From<AllocFailed<T>> for ScheduleFault {
    ghost from_gives = { λ _ fault. fault ≡ schedule_fault.Memory };

    fn from(_: AllocFailed<T>) -> Self {
        ScheduleFault::Memory
    }
}

/// Why a line is not read: it is outside the grammar, or memory ran out.
#[derive(Clone, Copy)]
pub(crate) enum LineFault {
    Bad,
    Memory,
}

impl From<Memory> for LineFault {
    ghost from_gives = { λ _ fault. fault ≡ line_fault.Memory };

    fn from(_: Memory) -> Self {
        LineFault::Memory
    }
}
