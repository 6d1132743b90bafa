//! Bodies of schedule_text's public functions, for its must-fail edits to spoil.
ghost use Rattle.std.specs.Prelude.{IfOk, IfErr};
ghost use Rattle.schedule_text.specs.Schedules.{IsSchedule};
ghost use Rattle.schedule_text.specs.Events.{commands_of};
ghost use Rattle.schedule_text.specs.Answers.{IsCauseOf};

use schedule_text::{Event, ScheduleFault};
use std::alloc::Global;

/// `read_schedule`.
pub fn read_schedule(alloc: Global, text: &[u8]) -> Result<Vec<Event>, ScheduleFault>
    ensures ok { IfOk result (λ events. IsSchedule text.now (commands_of events.items)) }
    ensures bad { IfErr result (IsCauseOf text.now) }
{
    schedule_text::read_schedule(alloc, text)
}
