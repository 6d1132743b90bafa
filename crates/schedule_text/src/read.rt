// Reads a whole text, line by line.
ghost use Rattle.std.specs.Prelude.{◌≡◌, ◌∷◌, ◌⊎◌, ◌<◌, ℕ, List, length, IfOk, IfSome, IfErr, MatchResult};
ghost use Rattle.std.specs.Option.{option_map};
ghost use Rattle.machine_defs.specs.Transcripts.{Instruction};
ghost use Rattle.schedule_text.specs.Schedules.{lines, IsSchedule, IsFirstBadLine};
ghost use Rattle.schedule_text.specs.Events.{commands_of};
ghost use Rattle.schedule_text.specs.Answers.{without_return, lines_behind, IsCauseOf};
ghost use Rattle.schedule_text.specs.declared.fault.ScheduleFault.TheVariants as faults;

use crate::event::Event;
use crate::fault::{LineFault, ScheduleFault};
use crate::line::read_line;
use memchr::memchr;
use std::alloc::Global;

/// A line without the carriage return at its end.
fn without_return(line: &[u8]) -> &[u8]
    ensures { result.now ≡ without_return line.now }
{
    match line {
        [front @ .., b'\r'] => front,
        _ => line,
    }
}

/// The first line of a text, and what is behind its newline, if it has one.
fn first_line(text: &[u8]) -> (&[u8], Option<&[u8]>)
    ensures lines { lines text.now ≡ result.0.now ∷ lines_behind
        (option_map (λ behind. behind.now) result.1) }
    ensures shorter { IfSome (option_map (λ behind. behind.now) result.1)
        (λ behind. length behind < length text.now) }
{
    match memchr(b'\n', text) {
        Some(end) => (without_return(&text[..end]), Some(&text[end + 1..])),
        None => (text, None),
    }
}

/// The events of the lines of a text.
fn read_lines(alloc: Global, text: &[u8]) -> Result<Vec<Event>, ScheduleFault>
    ensures ok { IfOk result (λ events. IsSchedule text.now (commands_of events.items)) }
    ensures bad { IfErr result (IsCauseOf text.now) }
{
    let mut events = Vec::new(alloc);
    let mut left = Some(text);
    let mut number = 0;
    while let Some(rest) = left {
        let (line, behind) = first_line(rest);
        number += 1;
        match read_line(alloc, line) {
            Ok(Some(event)) => events.push(event)?,
            Ok(None) => {}
            Err(LineFault::Bad) => return Err(ScheduleFault::BadLine { number }),
            Err(LineFault::Memory) => return Err(ScheduleFault::Memory),
        }
        left = behind;
    }
    Ok(events)
}

/// The events of a schedule, one for each line that is not skipped, in their order.
pub fn read_schedule(alloc: Global, text: &[u8]) -> Result<Vec<Event>, ScheduleFault>
    ensures ok { IfOk result (λ events. IsSchedule text.now (commands_of events.items)) }
    ensures bad { IfErr result (IsCauseOf text.now) }
    ensures reads { (commands : List Instruction) → IsSchedule text.now commands
        → MatchResult result (λ events. commands_of events.items ≡ commands)
        (λ fault. fault ≡ faults.Memory) }
    ensures refuses { (number : ℕ) → IsFirstBadLine text.now number
        → MatchResult result (λ _. ⊥) (λ fault. (fault ≡ faults.BadLine number) ⊎ (fault ≡ faults.Memory)) }
{
    read_lines(alloc, text)
}
