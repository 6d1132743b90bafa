// The commands `replay` and `trial`.
ghost use Rattle.std.specs.Prelude.{◌≡◌, ◌≤◌, ◌+◌, ℕ, List, Option, is_some};
ghost use Rattle.command_defs.specs.Seen.{ReadsUpTo, NoCountFalls};
ghost use Rattle.hail_replay.specs.Answers.{longest_schedule, AnswersReplay, AnswersTrial};
ghost use Rattle.hail_replay.specs.Heard.{entries_heard};
ghost use Rattle.hail_replay.specs.Performed.{NoCountFell};
ghost use Rattle.hail_replay.specs.Starts.{devices_of};
ghost use Rattle.hail_top.specs.Endings.{seen_over, seen_of, ending_of};

use crate::reading::read_up_to;
use crate::refusals::unread;
use crate::report::Report;
use disk_model::Disk;
use exit_statuses::{BAD_SCHEDULE, NO_MEMORY, TOO_FEW_PROVIDERS, TOO_LONG};
use hail_replay::{Replayed, replay, trial};
use provider_model::Tamper;
use schedule_text::laws::schedule_is_short;
use schedule_text::{ScheduleFault, read_schedule};
use std::alloc::Global;
use stream_model::{Sink, Source};

/// How many bytes a schedule has at most.
const LONGEST: usize = 1 << 24;

/// How many providers a trial uses.
const TRIAL_PROVIDERS: usize = 6;

/// How the events ended.
fn replayed(end: Replayed) -> Report
    ensures { ending_of result ≡ record { status = end.status; at = 0; heard = entries_heard end.heard } }
{
    Report {
        status: end.status,
        at: 0,
        heard: end.heard,
    }
}

/// Does the events of a schedule that was read, unless it is too long.
fn replay_text<D: Disk, P: Tamper, K: Sink>(
    alloc: Global,
    text: &[u8],
    disk: &mut D,
    providers: &mut [P],
    sink: &mut K,
) -> Report
    ensures answers { (left left' : Option (List ℕ)) (read_faults read_faults' : ℕ)
        → ReadsUpTo (longest_schedule + 1) left left' text.now
        → AnswersReplay (seen_over D.Disk P.Provider K.Sink disk.old providers.old left read_faults sink.old)
        (seen_over D.Disk P.Provider K.Sink disk.new providers.new left' read_faults' sink.new)
        (ending_of result) }
    ensures counts { NoCountFell (devices_of D.Disk P.Provider disk.old providers.old)
        (devices_of D.Disk P.Provider disk.new providers.new) }
    ensures sink_count { K.faults sink.old ≤ K.faults sink.new }
    ensures tells { is_some (D.holds disk.new) ≡ is_some (D.holds disk.old) }
{
    schedule_is_short();
    if text.len() > LONGEST {
        return Report::of(TOO_LONG);
    }
    match read_schedule(alloc, text) {
        Ok(events) => replayed(replay(alloc, events, disk, providers, sink)),
        Err(ScheduleFault::BadLine { number }) => Report::at(BAD_SCHEDULE, number),
        Err(ScheduleFault::Memory) => Report::of(NO_MEMORY),
    }
}

/// Reads the schedule that the source gives, and does its events.
pub fn replay_source<D: Disk, P: Tamper, S: Source, K: Sink>(
    alloc: Global,
    disk: &mut D,
    providers: &mut [P],
    source: &mut S,
    sink: &mut K,
) -> Report
    ensures answers { AnswersReplay
        (seen_of D.Disk P.Provider S.Source K.Sink disk.old providers.old source.old sink.old)
        (seen_of D.Disk P.Provider S.Source K.Sink disk.new providers.new source.new sink.new)
        (ending_of result) }
    ensures counts { NoCountFalls
        (seen_of D.Disk P.Provider S.Source K.Sink disk.old providers.old source.old sink.old)
        (seen_of D.Disk P.Provider S.Source K.Sink disk.new providers.new source.new sink.new) }
    ensures tells { is_some (D.holds disk.new) ≡ is_some (D.holds disk.old) }
{
    match read_up_to(alloc, LONGEST + 1, source) {
        Ok(text) => replay_text(alloc, text.as_slice(), disk, providers, sink),
        Err(fault) => unread(fault),
    }
}

/// Does the events of the trial of a number, and writes its six lines.
pub fn do_trial<D: Disk, P: Tamper, K: Sink>(
    alloc: Global,
    number: u64,
    disk: &mut D,
    providers: &mut [P],
    sink: &mut K,
) -> Report
    ensures answers { (left : Option (List ℕ)) (read_faults : ℕ)
        → AnswersTrial number (seen_over D.Disk P.Provider K.Sink disk.old providers.old left read_faults
        sink.old)
        (seen_over D.Disk P.Provider K.Sink disk.new providers.new left read_faults sink.new)
        (ending_of result) }
    ensures counts { NoCountFell (devices_of D.Disk P.Provider disk.old providers.old)
        (devices_of D.Disk P.Provider disk.new providers.new) }
    ensures sink_count { K.faults sink.old ≤ K.faults sink.new }
    ensures tells { is_some (D.holds disk.new) ≡ is_some (D.holds disk.old) }
{
    if providers.len() < TRIAL_PROVIDERS {
        return Report::of(TOO_FEW_PROVIDERS);
    }
    replayed(trial(alloc, number, disk, providers, sink))
}
