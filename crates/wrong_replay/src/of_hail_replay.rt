//! Bodies of hail_replay's public functions, for its must-fail edits to spoil.
ghost use Rattle.std.specs.Prelude.{◌≡◌, ◌<◌, ◌-◌, ◌^◌, List, IsSome, IfOk, OnOk, length};
ghost use Rattle.machine_defs.specs.Events.{Ended};
ghost use Rattle.machine_defs.specs.Lines.{line, lines_of, answer_text};
ghost use Rattle.machine_defs.specs.Runs.{Moment};
ghost use Rattle.machine_defs.specs.States.{State};
ghost use Rattle.schedule_text.specs.Events.{event_command, commands_of};
ghost use Rattle.vault.specs.Outcomes.{machine_answer};
ghost use Rattle.vault.specs.Packing.{pack_answer};
ghost use Rattle.hail_scrub.specs.Stands.{scrub_answer};
ghost use Rattle.hail_client.specs.Client.{client_next_job};
ghost use Rattle.hail_client.specs.Outcomes.{reopen_outcome, step_outcome};
ghost use Rattle.hail_replay.specs.Answers.{CarriedOut};
ghost use Rattle.hail_replay.specs.Came.{came_outcome};
ghost use Rattle.hail_replay.specs.Counts.{counts_on};
ghost use Rattle.hail_replay.specs.Heard.{entries_heard};
ghost use Rattle.hail_replay.specs.Performed.{StandsWhereOpen, IsPerformed};
ghost use Rattle.hail_replay.specs.Replayed.{Replays};
ghost use Rattle.hail_replay.specs.Seen.{IsSeen};
ghost use Rattle.hail_replay.specs.Starts.{devices_of, sinking_of, AreLeft};

use disk_model::Disk;
use hail_client::{Client, ClientTurn, ReopenFault};
use hail_replay::{Came, Replayed, Seen, Tally};
use hail_scrub::ScrubAnswer;
use provider_model::Tamper;
use schedule_text::Event;
use std::alloc::{AllocError, Global};
use stream_model::{Bytes, Memory, Sink};
use vault::{Answer, PackAnswer};

/// `answer_line`.
pub fn answer_line(alloc: Global, answer: &Answer) -> Result<Bytes, Memory>
    ensures { IfOk result (λ text. text ≡ line (answer_text (machine_answer answer.now))) }
{
    hail_replay::answer_line(alloc, answer)
}

/// `scrub_answer_line`.
pub fn scrub_answer_line(
    alloc: Global,
    providers: u8,
    answer: &ScrubAnswer,
) -> Result<Bytes, Memory>
    ensures { IfOk result (λ text. text ≡ line (answer_text (scrub_answer providers answer.now))) }
{
    hail_replay::scrub_answer_line(alloc, providers, answer)
}

/// `pack_answer_line`.
pub fn pack_answer_line(alloc: Global, answer: &PackAnswer) -> Result<Bytes, Memory>
    ensures { IfOk result (λ text. text ≡ line (answer_text (pack_answer answer.now))) }
{
    hail_replay::pack_answer_line(alloc, answer)
}

/// `step_line`.
pub fn step_line(alloc: Global, answer: &Option<ClientTurn>) -> Result<Bytes, Memory>
    ensures { IfOk result (λ text. text ≡ lines_of (step_outcome answer.now)) }
{
    hail_replay::step_line(alloc, answer)
}

/// `reopen_line`.
pub fn reopen_line(alloc: Global, answer: Result<(), ReopenFault>) -> Result<Bytes, Memory>
    ensures { IfOk result (λ text. text ≡ lines_of (reopen_outcome answer)) }
{
    let line = hail_replay::reopen_line(alloc, answer);
    line
}

/// `seen_end`.
pub fn seen_end(
    alloc: Global,
    expected: &[u8],
    tolerance: u16,
    answer: &Answer,
) -> Result<Seen, AllocError>
    ensures { IfOk result (IsSeen expected.now tolerance (Ended (machine_answer answer.now))) }
{
    let seen = hail_replay::seen_end(alloc, expected, tolerance, answer)?;
    Ok(seen)
}

/// `Tally::see`.
pub fn see(
    tally: &mut Tally,
    alloc: Global,
    expected: &[u8],
    tolerance: u16,
    came: &Came<'_>,
) -> Result<(), Memory>
    requires { tally.old.events < 2 ^ 64 - 1 }
    ensures ok { OnOk result (tally.new ≡ counts_on expected.now tolerance (came_outcome came.now) tally.old) }
{
    tally.see(alloc, expected, tolerance, came)
}

/// `perform`.
pub fn perform<D: Disk, P: Tamper>(
    alloc: Global,
    client: &mut Client,
    event: Event,
    disk: &mut D,
    providers: &mut [P],
) -> Option<Came<'static>>
    requires standing { StandsWhereOpen client.old (devices_of D.Disk P.Provider disk.old providers.old) }
    requires number { client_next_job client.old < 2 ^ 32 - 1 }
    ensures performed { IsPerformed (event_command event) result client.old client.new
        (devices_of D.Disk P.Provider disk.old providers.old)
        (devices_of D.Disk P.Provider disk.new providers.new) }
{
    let outcome = hail_replay::perform(alloc, client, event, disk, providers);
    outcome
}

/// `replay`.
pub fn replay<D: Disk, P: Tamper, K: Sink>(
    alloc: Global,
    events: Vec<Event>,
    disk: &mut D,
    providers: &mut [P],
    sink: &mut K,
) -> Replayed
    requires { length events.items < 2 ^ 32 - 2 }
    ensures runs { (start : State) (before : List Moment) → IsSome (D.holds disk.old)
        → AreLeft start before (devices_of D.Disk P.Provider disk.old providers.old)
        → Replays start before (commands_of events.items) result.status
        (sinking_of K.Sink sink.old sink.new) (entries_heard result.heard)
        (devices_of D.Disk P.Provider disk.new providers.new) }
    ensures ends { CarriedOut result.status (sinking_of K.Sink sink.old sink.new) }
{
    let replayed = hail_replay::replay(alloc, events, disk, providers, sink);
    replayed
}
