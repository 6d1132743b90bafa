// Reads one line.
ghost use Rattle.std.specs.Option.{option_map};
ghost use Rattle.schedule_text.specs.Grammar.{words};
ghost use Rattle.schedule_text.specs.Events.{event_command};
ghost use Rattle.schedule_text.specs.Reading.{Gives, apart_at, behind_at, line_at};

use crate::begin::read_begin;
use crate::event::Event;
use crate::fault::LineFault;
use crate::form::{read_alter, read_init, read_lose, read_run, read_step, read_stop};
use crate::word::{ended, take_word};
use std::alloc::Global;

/// The event whose line begins with this word, where it speaks of no job and of no vault.
#[tactic(auto, unfolding(crate::specs::Reading::apart_at))]
fn read_apart(alloc: Global, first: &[u8], line: &[u8]) -> Result<Event, LineFault>
    ensures { Gives event_command result (apart_at first.now (words line.now)) }
{
    if first == b"alter".as_slice() {
        read_alter(line)
    } else if first == b"lose".as_slice() {
        read_lose(line)
    } else if first == b"stop".as_slice() {
        read_stop(alloc, line)
    } else if first == b"list".as_slice() {
        ended(Event::List, line)
    } else {
        Err(LineFault::Bad)
    }
}

/// The event whose line begins with this word.
#[tactic(auto, unfolding(crate::specs::Reading::behind_at))]
fn read_behind(alloc: Global, first: &[u8], line: &[u8]) -> Result<Event, LineFault>
    ensures { Gives event_command result (behind_at first.now (words line.now)) }
{
    if first == b"init".as_slice() {
        read_init(line)
    } else if first == b"reopen".as_slice() {
        ended(Event::Reopen, line)
    } else if first == b"begin".as_slice() {
        read_begin(alloc, line)
    } else if first == b"step".as_slice() {
        read_step(line)
    } else if first == b"run".as_slice() {
        read_run(line)
    } else {
        read_apart(alloc, first, line)
    }
}

/// The event of a line, or `None` where the line is skipped.
#[tactic(auto, unfolding(crate::specs::Reading::line_at))]
pub(crate) fn read_line(alloc: Global, line: &[u8]) -> Result<Option<Event>, LineFault>
    ensures { Gives (option_map event_command) result (line_at (words line.now)) }
{
    let Ok((first, left)) = take_word(line) else {
        return Ok(None);
    };
    if matches!(first, [b'#', ..]) {
        return Ok(None);
    }
    let event = read_behind(alloc, first, left)?;
    Ok(Some(event))
}
