// The events of a trial, one after the other, counted.
ghost use Rattle.std.specs.Prelude.{◌≡◌, ◌⊎◌, ◌≤◌, ◌<◌, ◌-◌, ◌^◌, ◌+◌, ◌∷◌, [], ℕ, List, IsSome, IfOk, OnOk, OnErr, is_some, length};
ghost use Rattle.machine_defs.specs.Runs.{Moment};
ghost use Rattle.machine_defs.specs.States.{State};
ghost use Rattle.machine_defs.specs.Transcripts.{Instruction};
ghost use Rattle.schedule_text.specs.Events.{event_command, commands_of};
ghost use Rattle.trial_maker.specs.Trials.{trial_bytes, trial_commands};
ghost use Rattle.hail_client.specs.Client.{client_next_job, names_of};
ghost use Rattle.hail_replay.specs.Answers.{CarriedOut};
ghost use Rattle.hail_replay.specs.Counts.{counts_of, table_tolerance};
ghost use Rattle.hail_replay.specs.Heard.{entries_heard, room_of};
ghost use Rattle.hail_replay.specs.Performed.{StandsWhereOpen, KeepsStanding, NoCountFell};
ghost use Rattle.hail_replay.specs.Starts.{devices_of, sinking_of, AreLeft, IsNewClient};
ghost use Rattle.hail_replay.specs.Trials.{RunsTrial, RunsTo, CountsTo};
ghost use Rattle.hail_replay.specs.UnderWay.{HasRun, HasCounted};

use crate::Tally;
use crate::event::perform;
use crate::heard::HeardLists;
use crate::schedule::{Replayed, heard_of, named, tell};
use command_lines::NO_MEMORY;
use disk_model::Disk;
use hail_client::Client;
use provider_model::Tamper;
use schedule_text::Event;
use std::alloc::Global;
use stream_model::{Memory, Sink};
use trial_maker::laws::sizes_of_a_trial;
use trial_maker::{Trial, make_trial};

/// How many wrong rounds of a provider the store of the open vault tolerates; 0 where none is open.
fn tolerance_of(client: &Client) -> u16
    ensures { result ≡ table_tolerance (names_of client.now) }
{
    match client.names() {
        Some(table) => match table.setup() {
            Some((setup, _)) => setup.tolerance,
            None => 0,
        },
        None => 0,
    }
}

/// Performs an event and counts what it came to.
fn trial_event<D: Disk, P: Tamper>(
    alloc: Global,
    client: &mut Client,
    heard: &mut HeardLists,
    tally: &mut Tally,
    expected: &[u8],
    event: Event,
    disk: &mut D,
    providers: &mut [P],
) -> Result<(), Memory>
    requires standing { StandsWhereOpen client.old (devices_of D.Disk P.Provider disk.old providers.old) }
    requires number { client_next_job client.old < 2 ^ 32 - 1 }
    requires room { 1 ≤ room_of heard.old }
    requires events { tally.old.events < 2 ^ 64 - 1 }
    ensures ok { OnOk result ((start : State) (base : List Moment) (done : List Instruction) → IsSome
        (D.holds disk.old)
        → HasCounted expected.now start base done tally.old (entries_heard heard.old) client.old
        (devices_of D.Disk P.Provider disk.old providers.old)
        → HasCounted expected.now start base (event_command event ∷ done) tally.new
        (entries_heard heard.new) client.new
        (devices_of D.Disk P.Provider disk.new providers.new)) }
    ensures err { OnErr result ((start : State) (base : List Moment) (done : List Instruction) → IsSome
        (D.holds disk.old)
        → HasRun start base done (entries_heard heard.old) client.old
        (devices_of D.Disk P.Provider disk.old providers.old)
        → HasRun start base (event_command event ∷ done) (entries_heard heard.new) client.new
        (devices_of D.Disk P.Provider disk.new providers.new)) }
    ensures counted { tally.new.events ≤ tally.old.events + 1 }
    ensures kept { KeepsStanding client.old client.new (devices_of D.Disk P.Provider disk.old providers.old)
        (devices_of D.Disk P.Provider disk.new providers.new) }
{
    let came = perform(alloc, client, event, disk, providers);
    let tolerance = tolerance_of(client);
    let came = named(came, client);
    let seen = tally.see(alloc, expected, tolerance, &came);
    heard.push(heard_of(came));
    seen
}

/// Does the events of a trial by a client that is new, and counts what they come to; gets are to give the
/// expected bytes. Want of memory ends it. Condition: there are fewer events than numbers of jobs.
fn trial_events<D: Disk, P: Tamper>(
    alloc: Global,
    expected: &[u8],
    events: Vec<Event>,
    client: &mut Client,
    tally: &mut Tally,
    heard: &mut HeardLists,
    disk: &mut D,
    providers: &mut [P],
) -> Result<(), Memory>
    requires few { length events.items < 2 ^ 32 - 2 }
    requires fresh { IsNewClient client.old }
    requires zero { tally.old ≡ counts_of expected.now [] [] }
    requires nothing { entries_heard heard.old ≡ [] }
    ensures ok { OnOk result ((start : State) (before : List Moment) → IsSome (D.holds disk.old)
        → AreLeft start before (devices_of D.Disk P.Provider disk.old providers.old)
        → CountsTo expected.now start before (commands_of events.items) tally.new (entries_heard heard.new)
        (devices_of D.Disk P.Provider disk.new providers.new)) }
    ensures err { OnErr result ((start : State) (before : List Moment) → IsSome (D.holds disk.old) → AreLeft
        start before (devices_of D.Disk P.Provider disk.old providers.old)
        → RunsTo start before (commands_of events.items) (entries_heard heard.new)
        (devices_of D.Disk P.Provider disk.new providers.new)) }
    ensures tells { is_some (D.holds disk.new) ≡ is_some (D.holds disk.old) }
    ensures counts { NoCountFell (devices_of D.Disk P.Provider disk.old providers.old)
        (devices_of D.Disk P.Provider disk.new providers.new) }
{
    let mut left = events.into_iter();
    while let Some(event) = left.next() {
        heard.reserve(alloc)?;
        trial_event(
            alloc, client, heard, tally, expected, event, disk, providers,
        )?;
    }
    Ok(())
}

/// Does the events of a trial, from a client with no vault open, and counts what they come to.
fn count_events<D: Disk, P: Tamper>(
    alloc: Global,
    trial: Trial,
    tally: &mut Tally,
    heard: &mut HeardLists,
    disk: &mut D,
    providers: &mut [P],
) -> Result<(), Memory>
    requires few { length trial.events.items < 2 ^ 32 - 2 }
    requires zero { (expected : List ℕ) → tally.old ≡ counts_of expected [] [] }
    requires nothing { entries_heard heard.old ≡ [] }
    ensures ok { OnOk result ((start : State) (before : List Moment) → IsSome (D.holds disk.old)
        → AreLeft start before (devices_of D.Disk P.Provider disk.old providers.old)
        → CountsTo trial.expected start before (commands_of trial.events.items) tally.new
        (entries_heard heard.new) (devices_of D.Disk P.Provider disk.new providers.new)) }
    ensures err { OnErr result ((start : State) (before : List Moment) → IsSome (D.holds disk.old) → AreLeft
        start before (devices_of D.Disk P.Provider disk.old providers.old)
        → RunsTo start before (commands_of trial.events.items) (entries_heard heard.new)
        (devices_of D.Disk P.Provider disk.new providers.new)) }
    ensures tells { is_some (D.holds disk.new) ≡ is_some (D.holds disk.old) }
    ensures counts { NoCountFell (devices_of D.Disk P.Provider disk.old providers.old)
        (devices_of D.Disk P.Provider disk.new providers.new) }
{
    let Trial { events, expected } = trial;
    let mut client = Client::new();
    let counted = trial_events(
        alloc,
        expected.as_slice(),
        events,
        &mut client,
        tally,
        heard,
        disk,
        providers,
    );
    client.close();
    counted
}

/// Does the events of a trial and writes its six lines.
fn tell_trial<D: Disk, P: Tamper, K: Sink>(
    alloc: Global,
    number: u64,
    trial: Trial,
    heard: &mut HeardLists,
    disk: &mut D,
    providers: &mut [P],
    sink: &mut K,
) -> u8
    requires events { commands_of trial.events.items ≡ trial_commands number }
    requires expected { trial.expected ≡ trial_bytes number }
    requires nothing { entries_heard heard.old ≡ [] }
    ensures runs { (start : State) (before : List Moment) → IsSome (D.holds disk.old)
        → AreLeft start before (devices_of D.Disk P.Provider disk.old providers.old)
        → RunsTrial number start before result (sinking_of K.Sink sink.old sink.new)
        (entries_heard heard.new) (devices_of D.Disk P.Provider disk.new providers.new)
        ⊎ ((result ≡ 70) × (K.written sink.new ≡ K.written sink.old)
        × RunsTo start before (trial_commands number) (entries_heard heard.new)
        (devices_of D.Disk P.Provider disk.new providers.new)) }
    ensures ends { CarriedOut result (sinking_of K.Sink sink.old sink.new) }
    ensures tells { is_some (D.holds disk.new) ≡ is_some (D.holds disk.old) }
    ensures counts { NoCountFell (devices_of D.Disk P.Provider disk.old providers.old)
        (devices_of D.Disk P.Provider disk.new providers.new) }
    ensures sink_count { K.faults sink.old ≤ K.faults sink.new }
{
    sizes_of_a_trial(number);
    let mut tally = Tally::new(alloc);
    match count_events(alloc, trial, &mut tally, heard, disk, providers) {
        Ok(()) => tell(tally.lines(alloc, number), sink),
        Err(Memory) => NO_MEMORY,
    }
}

/// Does the events of the trial of a number, whose lines are not written, and writes the six lines that tell
/// its counts.
pub fn trial<D: Disk, P: Tamper, K: Sink>(
    alloc: Global,
    number: u64,
    disk: &mut D,
    providers: &mut [P],
    sink: &mut K,
) -> Replayed
    ensures runs { (start : State) (before : List Moment) → IsSome (D.holds disk.old)
        → AreLeft start before (devices_of D.Disk P.Provider disk.old providers.old)
        → RunsTrial number start before result.status (sinking_of K.Sink sink.old sink.new)
        (entries_heard result.heard)
        (devices_of D.Disk P.Provider disk.new providers.new)
        ⊎ ((result.status ≡ 70) × (K.written sink.new ≡ K.written sink.old)
        × RunsTo start before (trial_commands number) (entries_heard result.heard)
        (devices_of D.Disk P.Provider disk.new providers.new)) }
    ensures ends { CarriedOut result.status (sinking_of K.Sink sink.old sink.new) }
    ensures tells { is_some (D.holds disk.new) ≡ is_some (D.holds disk.old) }
    ensures counts { NoCountFell (devices_of D.Disk P.Provider disk.old providers.old)
        (devices_of D.Disk P.Provider disk.new providers.new) }
    ensures sink_count { K.faults sink.old ≤ K.faults sink.new }
{
    let mut heard = HeardLists::new(alloc);
    match make_trial(alloc, number) {
        Ok(trial) => {
            let status = tell_trial(alloc, number, trial, &mut heard, disk, providers, sink);
            Replayed { status, heard }
        }
        Err(Memory) => Replayed {
            status: NO_MEMORY,
            heard,
        },
    }
}
