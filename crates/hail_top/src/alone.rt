// Commands that run one job.
ghost use Rattle.std.specs.Prelude.{◌≡◌, ◌≤◌, ℕ, List, Option, None, length, is_some};
ghost use Rattle.std.specs.Option.{option_map};
ghost use Rattle.device_defs.specs.Disks.{synced};
ghost use Rattle.record_defs.specs.Records.{Record};
ghost use Rattle.command_defs.specs.Seen.{Seen, NoCountFalls};
ghost use Rattle.command_defs.specs.Opens.{IsOpened};
ghost use Rattle.command_defs.specs.Commands.{AnswersAlone};
ghost use Rattle.vault.specs.Devices.{devices_seen};
ghost use Rattle.command_jobs.specs.Kinds.{kind_of};
ghost use Rattle.command_jobs.specs.Opened.{IsFreshOver, IsFreshFor};
ghost use Rattle.command_jobs.specs.Ends.{IsSeenBefore};
ghost use Rattle.hail_top.specs.Endings.{seen_over, ending_of};
ghost use Rattle.hail_top.specs.Jobs.{AnswersOver};

use crate::refusals::{refused, unopened};
use crate::report::Report;
use crate::tell::{Subject, ended};
use command_jobs::{Job, open_vault, run_job};
use disk_model::Disk;
use provider_model::Provider;
use std::alloc::Global;
use stream_model::Sink;
use vault::Vault;

/// Runs a job over a vault that was just opened, and tells what came of it.
pub fn answer_job<D: Disk, P: Provider, K: Sink>(
    alloc: Global,
    job: Job,
    vault: Vault,
    disk: &mut D,
    providers: &mut [P],
    sink: &mut K,
) -> Report
    requires { IsFreshFor vault (D.holds disk.old) (D.faults disk.old) (length providers.old) }
    ensures over { (records : List Record) (old : Seen) (left : Option (List ℕ)) (read_faults : ℕ)
        → (opened : IsOpened old records)
        → IsFreshOver vault opened.area records (D.holds disk.old) (D.faults disk.old)
        → IsSeenBefore old (devices_seen D.Disk P.Provider disk.old providers.old)
        → D.holds disk.old ≡ option_map synced old.disk → old.sink ≡ K.written sink.old
        → old.sink_faults ≡ K.faults sink.old
        → AnswersOver (kind_of job.entry) None opened.area records old
        (seen_over D.Disk P.Provider K.Sink disk.new providers.new left read_faults sink.new)
        (ending_of result) }
    ensures count { K.faults sink.old ≤ K.faults sink.new }
    ensures tells { is_some (D.holds disk.new) ≡ is_some (D.holds disk.old) }
{
    let subject = Subject::new(&job, vault.setup().tolerance);
    match run_job(vault, job, disk, providers) {
        Ok(end) => ended(alloc, &subject, end, sink),
        Err(why) => refused(why),
    }
}

/// Opens the store, runs a job that reads no source, and tells what came of it.
pub fn alone<D: Disk, P: Provider, K: Sink>(
    alloc: Global,
    job: Job,
    disk: &mut D,
    providers: &mut [P],
    sink: &mut K,
) -> Report
    ensures answers { (left : Option (List ℕ)) (read_faults : ℕ) → AnswersAlone (kind_of job.entry)
        (seen_over D.Disk P.Provider K.Sink disk.old providers.old left read_faults sink.old)
        (seen_over D.Disk P.Provider K.Sink disk.new providers.new left read_faults sink.new)
        (ending_of result) }
    ensures counts { (left : Option (List ℕ)) (read_faults : ℕ) → NoCountFalls
        (seen_over D.Disk P.Provider K.Sink disk.old providers.old left read_faults sink.old)
        (seen_over D.Disk P.Provider K.Sink disk.new providers.new left read_faults sink.new) }
    ensures tells { is_some (D.holds disk.new) ≡ is_some (D.holds disk.old) }
{
    match open_vault(alloc, disk, providers.len()) {
        Ok(vault) => answer_job(alloc, job, vault, disk, providers, sink),
        Err(why) => unopened(why),
    }
}
