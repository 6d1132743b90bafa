// One event of a schedule.
ghost use Rattle.std.specs.Prelude.{◌<◌, ◌-◌, ◌^◌, Some};
ghost use Rattle.machine_defs.specs.Transcripts.{RunJob};
ghost use Rattle.schedule_text.specs.Events.{event_command};
ghost use Rattle.hail_replay.specs.declared.came.Came.TheVariants as came;
ghost use Rattle.hail_client.specs.Client.{client_next_job};
ghost use Rattle.hail_replay.specs.Starts.{devices_of};
ghost use Rattle.hail_replay.specs.Performed.{StandsWhereOpen, IsPerformed};

use crate::Came;
use disk_model::Disk;
use hail_client::{Client, ClientTurn};
use provider_model::Tamper;
use schedule_text::Event;
use std::alloc::Global;

/// Runs a job, or the scrub or the pack of its number; while no vault is open, nothing is called.
fn run_job<D: Disk, P: Tamper>(
    client: &mut Client,
    job: u32,
    disk: &mut D,
    providers: &mut [P],
) -> Option<ClientTurn>
    requires standing { StandsWhereOpen client.old (devices_of D.Disk P.Provider disk.old providers.old) }
    ensures performed { IsPerformed (RunJob job) (Some (came.Stepped result)) client.old client.new
        (devices_of D.Disk P.Provider disk.old providers.old)
        (devices_of D.Disk P.Provider disk.new providers.new) }
{
    if client.is_open() {
        client.run(job, disk, providers)
    } else {
        None
    }
}

/// Performs an event, and answers what it came to; None for a list, which the client's own table answers.
/// Conditions: where a vault is open, client and devices stand for some state, as they do at each moment of a
/// replay; and a further job finds a number.
pub fn perform<D: Disk, P: Tamper>(
    alloc: Global,
    client: &mut Client,
    event: Event,
    disk: &mut D,
    providers: &mut [P],
) -> Option<Came<'static>>
    requires standing { StandsWhereOpen client.old (devices_of D.Disk P.Provider disk.old providers.old) }
    requires number { client_next_job client.old < 2 ^ 32 - 1 }
    ensures performed { IsPerformed (event_command event) result client.old client.new
        (devices_of D.Disk P.Provider disk.old providers.old)
        (devices_of D.Disk P.Provider disk.new providers.new) }
{
    match event {
        Event::Init { setup, master } => {
            Some(Came::Inited(client.init(alloc, &setup, &master, disk)))
        }
        Event::Reopen => Some(Came::Reopened(client.reopen(alloc, disk, providers.len()))),
        Event::BeginPut {
            name,
            bytes,
            profile,
        } => Some(Came::Begun(client.begin_put(name.as_slice(), bytes, profile))),
        Event::BeginGet { name } => Some(Came::Begun(client.begin_get(name.as_slice()))),
        Event::BeginDrop { name } => Some(Came::Begun(client.begin_drop(name.as_slice()))),
        Event::BeginAudit => Some(Came::Begun(client.begin_audit())),
        Event::BeginRepair => Some(Came::Begun(client.begin_repair())),
        Event::BeginUpgrade => Some(Came::Begun(client.begin_upgrade())),
        Event::BeginScrub => Some(Came::Begun(client.begin_scrub(alloc))),
        Event::BeginPack => Some(Came::Begun(client.begin_pack())),
        Event::Step { job } => Some(Came::Stepped(client.step(job, disk, providers))),
        Event::Run { job } => Some(Came::Stepped(run_job(client, job, disk, providers))),
        Event::Alter {
            provider,
            object,
            stripe,
            place,
            symbol,
        } => Some(Came::Replaced(client.alter(providers, provider, object, stripe, place, symbol))),
        Event::Lose {
            provider,
            object,
            stripe,
        } => Some(Came::Replaced(client.lose(providers, provider, object, stripe))),
        Event::Stop { picks } => {
            client.stop(disk, picks.as_slice());
            Some(Came::Stopped)
        }
        Event::List => None,
    }
}
