ghost use Rattle.std.specs.Prelude.{◌≡◌, ◌<◌, ◌-◌, ◌^◌, ℕ, List, Option, None, IfOk, IfErr, OnErr, is_some, length, map};
ghost use Rattle.machine_defs.specs.Jobs.{Kind};
ghost use Rattle.machine_defs.specs.States.{State};
ghost use Rattle.record_defs.specs.Records.{Record};
ghost use Rattle.record_defs.specs.Areas.{Area};
ghost use Rattle.command_defs.specs.Seen.{Seen};
ghost use Rattle.command_defs.specs.Opens as opens;
ghost use Rattle.vault_open.specs.Devices.{Devices};
ghost use Rattle.vault.specs.Devices.{devices_seen};
ghost use Rattle.vault.specs.Outcomes.{HasPaddedCounts};
ghost use Rattle.vault.specs.Seen.{next_job_of};
ghost use Rattle.vault.specs.Stands.{Stands, MakesBegin};
ghost use Rattle.vault.specs.Streams.{IsStreamless, KeepsStreamless};
ghost use Rattle.command_jobs.specs.Opened.{IsFreshOver, IsFreshFor};
ghost use Rattle.command_jobs.specs.Kinds.{kind_of};
ghost use Rattle.command_jobs.specs.Going.{IsOnly, IsUnderWay, GoesToEnd};
ghost use Rattle.command_jobs.specs.Ends.{IsSeenBefore, IsSeenAfter, IsRefusedOver, EndsOver};

use crate::job::Job;
use disk_model::Disk;
use job_laws::alone::{opened_states, told_jobs_leave};
use provider_model::Provider;
use vault::laws::only_streams_wait;
use vault::{BeginFault, Ended, Turn, Vault};

/// Runs the one job of a vault to its end. Condition: the vault was just opened over this disk, and as many
/// providers are handed in as the store was set up with, or more, of which only these are used.
pub fn run_job<D: Disk, P: Provider>(
    mut vault: Vault,
    job: Job,
    disk: &mut D,
    providers: &mut [P],
) -> Result<Ended, BeginFault>
    requires ready { IsFreshFor vault (D.holds disk.old) (D.faults disk.old) (length providers.old) }
    ensures ended { IfOk result (λ ended. (records : List Record) (old new : Seen)
        → (opened : opens.IsOpened old records)
        → IsFreshOver vault opened.area records (D.holds disk.old) (D.faults disk.old)
        → IsSeenBefore old (devices_seen D.Disk P.Provider disk.old providers.old)
        → IsSeenAfter new (devices_seen D.Disk P.Provider disk.new providers.new)
        → EndsOver opened.area records (kind_of job.entry) None ended old new) }
    ensures padded { IfOk result (λ ended. HasPaddedCounts ended.answer) }
    ensures refused { IfErr result (λ why. (area : Area) (records : List Record)
        → IsFreshOver vault area records (D.holds disk.old) (D.faults disk.old)
        → IsRefusedOver area records (kind_of job.entry) None why) }
    ensures tells { is_some (D.holds disk.new) ≡ is_some (D.holds disk.old) }
    ensures untouched { OnErr result ((disk.new ≡ disk.old) × (providers.new ≡ providers.old)) }
{
    opened_states();
    told_jobs_leave();
    match begin(&mut vault, job) {
        Ok(number) => {
            let ended = finish(&mut vault, number, disk, providers);
            vault.close();
            Ok(ended)
        }
        Err(why) => {
            vault.close();
            Err(why)
        }
    }
}

/// Begins a job of a vault.
fn begin(vault: &mut Vault, job: Job) -> Result<u32, BeginFault>
    requires { next_job_of vault.old < 2 ^ 32 - 1 }
    ensures machine { (w : State) (d : Devices) (moment : ℕ) → Stands vault.old d w
        → MakesBegin w moment (kind_of job.entry) None result vault.new d }
    ensures streams { KeepsStreamless vault.old vault.new }
{
    match job {
        Job::Get { name } => vault.begin_get(name),
        Job::Drop { name } => vault.begin_drop(name),
        Job::Audit => vault.begin_audit(),
        Job::Repair => vault.begin_repair(),
        Job::Upgrade => vault.begin_upgrade(),
    }
}

/// Steps the only job of a vault up to its end.
fn finish<D: Disk, P: Provider>(
    vault: &mut Vault,
    number: u32,
    disk: &mut D,
    providers: &mut [P],
) -> Ended
    requires first { number ≡ 1 }
    requires under_way { IsUnderWay vault.old (devices_seen D.Disk P.Provider disk.old providers.old) }
    requires streams { IsStreamless vault.old }
    ensures ended { (start w : State) (kind : Kind) (own : Option ℕ) (moment : ℕ) → IsOnly start kind own w
        → Stands vault.old (devices_seen D.Disk P.Provider disk.old providers.old) w
        → GoesToEnd start kind own w moment result vault.new
        (devices_seen D.Disk P.Provider disk.old providers.old)
        (devices_seen D.Disk P.Provider disk.new providers.new) }
    ensures tells { is_some (D.holds disk.new) ≡ is_some (D.holds disk.old) }
    ensures padded { HasPaddedCounts result.answer }
{
    only_streams_wait();
    loop {
        match vault.step(number, disk, providers) {
            Turn::More => {}
            Turn::Done(ended) => return ended,
            Turn::Waiting { .. } | Turn::NoSuchJob | Turn::MustReopen => unreachable!(),
        }
    }
}
