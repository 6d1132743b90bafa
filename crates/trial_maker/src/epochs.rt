// Puts the events of a trial behind others.
ghost use Rattle.std.specs.Prelude.{◌≡◌, ◌++◌, ◌∷◌, ◌+◌, ◌<◌, ◌^◌, [], OnOk, replicate};
ghost use Rattle.machine_defs.specs.Events.{Step};
ghost use Rattle.machine_defs.specs.Transcripts.{Once, RunJob};
ghost use Rattle.machine_defs.specs.Jobs.{GetJob};
ghost use Rattle.schedule_text.specs.Events.{event_command, commands_of};
ghost use Rattle.trial_maker.specs.Trials.{losses, cut, whole, trial_name, epoch, last_epoch};

use schedule_text::Event;
use std::alloc::Global;
use stream_model::{Bytes, Memory};

/// How many stripes the file of a trial has.
const STRIPES: u32 = 57;

/// The object of the file: the first that is put.
const OBJECT: u64 = 1;

/// How many steps a repair makes that is cut off.
const STEPS: u32 = 10;

/// One event.
pub(crate) fn push(events: &mut Vec<Event>, event: Event) -> Result<(), Memory>
    ensures { OnOk result (commands_of events.new.items ≡ commands_of events.old.items ++ event_command
        event ∷ []) }
{
    Ok(events.push(event)?)
}

/// A begin, and its job up to its end.
pub(crate) fn push_whole(events: &mut Vec<Event>, begin: Event, job: u32) -> Result<(), Memory>
    ensures { OnOk result (commands_of events.new.items ≡ commands_of events.old.items ++ event_command
        begin ∷ RunJob job ∷ []) }
{
    push(events, begin)?;
    push(events, Event::Run { job })
}

/// A provider loses the blocks of the file.
fn push_losses(events: &mut Vec<Event>, provider: u32) -> Result<(), Memory>
    ensures { OnOk result (commands_of events.new.items ≡ commands_of events.old.items ++ losses provider
        57) }
{
    for stripe in 0..STRIPES {
        push(
            events,
            Event::Lose {
                provider,
                object: OBJECT,
                stripe,
            },
        )?;
    }
    Ok(())
}

/// Some steps of a job.
fn push_steps(events: &mut Vec<Event>, job: u32) -> Result<(), Memory>
    ensures { OnOk result (commands_of events.new.items ≡ commands_of events.old.items ++ replicate 10
        (Once (Step job))) }
{
    for _ in 0..STEPS {
        push(events, Event::Step { job })?;
    }
    Ok(())
}

/// A repair that is cut off by a stop.
#[tactic(auto, unfolding(crate::specs::Trials::cut))]
fn push_cut(alloc: Global, events: &mut Vec<Event>, job: u32) -> Result<(), Memory>
    ensures { OnOk result (commands_of events.new.items ≡ commands_of events.old.items ++ cut job) }
{
    push(events, Event::BeginRepair)?;
    push_steps(events, job)?;
    let picks = Bytes::from_vec(Vec::new(alloc));
    push(events, Event::Stop { picks })?;
    push(events, Event::Reopen)
}

/// A get of the file.
fn push_get(alloc: Global, events: &mut Vec<Event>, job: u32) -> Result<(), Memory>
    ensures { OnOk result (commands_of events.new.items ≡ commands_of events.old.items ++ whole
        (GetJob trial_name) job) }
{
    let name = Bytes::from_slice(alloc, b"trial")?;
    push_whole(events, Event::BeginGet { name }, job)
}

/// An epoch in which a repair is cut off; its first job has this number.
#[tactic(auto, unfolding(crate::specs::Trials::epoch))]
pub(crate) fn push_epoch(
    alloc: Global,
    events: &mut Vec<Event>,
    provider: u32,
    job: u32,
) -> Result<(), Memory>
    requires { job + 4 < 2 ^ 32 }
    ensures { OnOk result (commands_of events.new.items ≡ commands_of events.old.items ++ epoch provider
        job) }
{
    push_losses(events, provider)?;
    push_get(alloc, events, job)?;
    push_whole(events, Event::BeginAudit, job + 1)?;
    push_cut(alloc, events, job + 2)?;
    push_whole(events, Event::BeginRepair, job + 3)?;
    push_get(alloc, events, job + 4)
}

/// The last epoch; its first job has this number.
#[tactic(auto, unfolding(crate::specs::Trials::last_epoch))]
pub(crate) fn push_last_epoch(
    alloc: Global,
    events: &mut Vec<Event>,
    provider: u32,
    job: u32,
) -> Result<(), Memory>
    requires { job + 3 < 2 ^ 32 }
    ensures { OnOk result (commands_of events.new.items ≡ commands_of events.old.items ++ last_epoch
        provider job) }
{
    push_losses(events, provider)?;
    push_get(alloc, events, job)?;
    push_whole(events, Event::BeginAudit, job + 1)?;
    push_whole(events, Event::BeginRepair, job + 2)?;
    push_get(alloc, events, job + 3)
}
