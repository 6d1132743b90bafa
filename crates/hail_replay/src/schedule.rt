// The events of a schedule, one after the other, each with its lines.
ghost use Rattle.std.specs.Prelude.{◌≡◌, ◌≤◌, ◌<◌, ◌-◌, ◌^◌, ℕ, List, [], ◌∷◌, Option, Some, IsSome, IfOk, is_some, length};
ghost use Rattle.command_defs.specs.Sinking.{Sinking, WritesLine};
ghost use Rattle.machine_defs.specs.Runs.{Moment};
ghost use Rattle.machine_defs.specs.States.{State};
ghost use Rattle.machine_defs.specs.Transcripts.{Instruction};
ghost use Rattle.schedule_text.specs.Events.{event_command, commands_of};
ghost use Rattle.hail_replay.specs.Came.{came_outcome};
ghost use Rattle.hail_client.specs.Client.{client_next_job};
ghost use Rattle.hail_replay.specs.Answers.{CarriedOut};
ghost use Rattle.hail_replay.specs.Heard.{entries_heard, room_of};
ghost use Rattle.hail_replay.specs.Performed.{outcome_in, heard_in_came, StandsWhereOpen, KeepsStanding, NoCountFell};
ghost use Rattle.hail_replay.specs.Replayed.{Replays};
ghost use Rattle.hail_replay.specs.Starts.{devices_of, sinking_of, sinking_since, AreLeft, IsNewClient};
ghost use Rattle.hail_replay.specs.UnderWay.{HasDone};

use crate::event::perform;
use crate::heard::HeardLists;
use crate::{Came, came_lines};
use command_lines::{NO_MEMORY, WRITTEN, write_text};
use disk_model::Disk;
use hail_client::{Client, ClientTurn};
use provider_model::Tamper;
use schedule_text::Event;
use std::alloc::Global;
use stream_model::{Bytes, Memory, Sink};
use vault::{HeardList, Turn};

/// How the events of a schedule ended: the status, which is 0, 15 or 70, and what their jobs heard.
#[derive(Drop)]
pub struct Replayed {
    pub status: u8,
    pub heard: HeardLists,
}

/// What an event came to; a list is answered by the table of the client.
pub(crate) fn named<'a>(came: Option<Came<'a>>, client: &'a Client) -> Came<'a>
    ensures outcome { came_outcome result ≡ outcome_in client.now came.entry }
    ensures heard { heard_in_came (Some result) ≡ heard_in_came came.entry }
{
    match came {
        Some(came) => came,
        None => Came::Named(client.names()),
    }
}

/// What the job heard that an event ended; nothing where it ended none, and of a scrub or a pack.
pub(crate) fn heard_of(came: Came<'_>) -> HeardList
    ensures { result ≡ heard_in_came (Some came.entry) }
{
    match came {
        Came::Stepped(Some(ClientTurn::Job(Turn::Done(end)))) => end.heard,
        _ => HeardList::new(),
    }
}

/// Writes a text, for which there may have been no memory.
pub(crate) fn tell<K: Sink>(text: Result<Bytes, Memory>, sink: &mut K) -> u8
    ensures writes { (lines : List ℕ) → IfOk text (λ bytes. bytes ≡ lines)
        → WritesLine lines result (sinking_of K.Sink sink.old sink.new) }
    ensures count { K.faults sink.old ≤ K.faults sink.new }
{
    match text {
        Ok(text) => write_text(text.as_slice(), sink),
        Err(Memory) => NO_MEMORY,
    }
}

/// Performs an event and then writes its lines. The next event follows where the status is 0.
fn replay_event<D: Disk, P: Tamper, K: Sink>(
    alloc: Global,
    client: &mut Client,
    heard: &mut HeardLists,
    event: Event,
    disk: &mut D,
    providers: &mut [P],
    sink: &mut K,
) -> u8
    requires standing { StandsWhereOpen client.old (devices_of D.Disk P.Provider disk.old providers.old) }
    requires number { client_next_job client.old < 2 ^ 32 - 1 }
    requires room { 1 ≤ room_of heard.old }
    ensures goes_on { (start : State) (base : List Moment) (done : List Instruction)
        (first : Option (List ℕ)) (before : ℕ) → IsSome (D.holds disk.old) → before ≤ K.faults sink.old
        → HasDone start base done 0 (sinking_since K.Sink first before sink.old) (entries_heard heard.old)
        client.old (devices_of D.Disk P.Provider disk.old providers.old)
        → HasDone start base (event_command event ∷ done) result
        (sinking_since K.Sink first before sink.new) (entries_heard heard.new) client.new
        (devices_of D.Disk P.Provider disk.new providers.new) }
    ensures kept { KeepsStanding client.old client.new (devices_of D.Disk P.Provider disk.old providers.old)
        (devices_of D.Disk P.Provider disk.new providers.new) }
    ensures ends { CarriedOut result (sinking_of K.Sink sink.old sink.new) }
    ensures count { K.faults sink.old ≤ K.faults sink.new }
{
    let came = perform(alloc, client, event, disk, providers);
    let came = named(came, client);
    let status = tell(came_lines(alloc, &came), sink);
    heard.push(heard_of(came));
    status
}

/// Does the events of a schedule, each with its lines, by a client that is new, and adds what their jobs
/// heard.
fn replay_events<D: Disk, P: Tamper, K: Sink>(
    alloc: Global,
    events: Vec<Event>,
    client: &mut Client,
    heard: &mut HeardLists,
    disk: &mut D,
    providers: &mut [P],
    sink: &mut K,
) -> u8
    requires few { length events.items < 2 ^ 32 - 2 }
    requires fresh { IsNewClient client.old }
    requires nothing { entries_heard heard.old ≡ [] }
    ensures runs { (start : State) (before : List Moment) → IsSome (D.holds disk.old)
        → AreLeft start before (devices_of D.Disk P.Provider disk.old providers.old)
        → Replays start before (commands_of events.items) result
        (sinking_of K.Sink sink.old sink.new) (entries_heard heard.new)
        (devices_of D.Disk P.Provider disk.new providers.new) }
    ensures ends { CarriedOut result (sinking_of K.Sink sink.old sink.new) }
    ensures tells { is_some (D.holds disk.new) ≡ is_some (D.holds disk.old) }
    ensures counts { NoCountFell (devices_of D.Disk P.Provider disk.old providers.old)
        (devices_of D.Disk P.Provider disk.new providers.new) }
    ensures sink_count { K.faults sink.old ≤ K.faults sink.new }
{
    let mut left = events.into_iter();
    while let Some(event) = left.next() {
        if heard.reserve(alloc).is_err() {
            return NO_MEMORY;
        }
        let status = replay_event(alloc, client, heard, event, disk, providers, sink);
        if status != WRITTEN {
            return status;
        }
    }
    WRITTEN
}

/// Does the events of a schedule, each with its lines, from a client with no vault open: up to a fault of the
/// sink or want of memory. Condition: there are fewer events than numbers of jobs.
pub fn replay<D: Disk, P: Tamper, K: Sink>(
    alloc: Global,
    events: Vec<Event>,
    disk: &mut D,
    providers: &mut [P],
    sink: &mut K,
) -> Replayed
    requires { length events.items < 2 ^ 32 - 2 }
    ensures runs { (start : State) (before : List Moment) → IsSome (D.holds disk.old)
        → AreLeft start before (devices_of D.Disk P.Provider disk.old providers.old)
        → Replays start before (commands_of events.items) result.status
        (sinking_of K.Sink sink.old sink.new) (entries_heard result.heard)
        (devices_of D.Disk P.Provider disk.new providers.new) }
    ensures ends { CarriedOut result.status (sinking_of K.Sink sink.old sink.new) }
    ensures tells { is_some (D.holds disk.new) ≡ is_some (D.holds disk.old) }
    ensures counts { NoCountFell (devices_of D.Disk P.Provider disk.old providers.old)
        (devices_of D.Disk P.Provider disk.new providers.new) }
    ensures sink_count { K.faults sink.old ≤ K.faults sink.new }
{
    let mut client = Client::new();
    let mut heard = HeardLists::new(alloc);
    let status = replay_events(
        alloc,
        events,
        &mut client,
        &mut heard,
        disk,
        providers,
        sink,
    );
    client.close();
    Replayed { status, heard }
}
