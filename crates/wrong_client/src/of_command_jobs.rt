//! Bodies of command_jobs's public functions, for its must-fail edits to spoil.
ghost use Rattle.std.specs.Prelude.{◌≡◌, ℕ, List, Option, None, false, length, map, IfOk, IsErrOf};
ghost use Rattle.device_defs.specs.Cells.{Cells};
ghost use Rattle.device_defs.specs.Providers.{Provider};
ghost use Rattle.record_defs.specs.Records.{Record};
ghost use Rattle.command_defs.specs.Seen.{Seen};
ghost use Rattle.command_defs.specs.Opens as opens;
ghost use Rattle.provider_model.specs.Seen.{provider_seen};
ghost use Rattle.vault_open.specs.Devices.{devices};
ghost use Rattle.vault_open.specs.Disks.{ReadsDisk};
ghost use Rattle.code_defs.specs.Profiles.{is_unknown};
ghost use Rattle.vault.specs.Devices.{devices_seen};
ghost use Rattle.command_jobs.specs.declared.open.Unopened.TheVariants as unopened;
ghost use Rattle.command_jobs.specs.Opened.{IsFreshOver, IsFreshFor, HasReadStore};
ghost use Rattle.command_jobs.specs.Kinds.{kind_of};
ghost use Rattle.command_jobs.specs.Ends.{IsSeenBefore, IsSeenAfter, EndsOver};
ghost use Rattle.command_jobs.specs.Packs.{PackEndsOver};
ghost use Rattle.command_jobs.specs.Scrubs.{ScrubEndsOver};
ghost use Rattle.command_jobs.specs.Streams.{IsSourceSeen, StreamsOver};

use command_jobs::{Job, Streamed, Unbegun, Unopened};
use disk_model::Disk;
use hail_field::Memory;
use hail_scrub::ScrubAnswer;
use provider_model::Provider;
use std::alloc::Global;
use stream_model::Source;
use vault::{BeginFault, Ended, PackAnswer, Vault};

/// `open_vault`.
pub fn open_vault<D: Disk>(alloc: Global, disk: &mut D, handed: usize) -> Result<Vault, Unopened>
    ensures disk { ReadsDisk (D.holds disk.old) (D.holds disk.new) (D.faults disk.old) (D.faults disk.new)
        (HasReadStore result) (IsErrOf result unopened.DiskFault) }
{
    let opened = command_jobs::open_vault(alloc, disk, handed);
    opened
}

/// `run_job`.
pub fn run_job<D: Disk, P: Provider>(
    vault: Vault,
    job: Job,
    disk: &mut D,
    providers: &mut [P],
) -> Result<Ended, BeginFault>
    requires ready { IsFreshFor vault (D.holds disk.old) (D.faults disk.old) (length providers.old) }
    ensures ended { IfOk result (λ ended. (records : List Record) (old new : Seen)
        → (opened : opens.IsOpened old records)
        → IsFreshOver vault opened.area records (D.holds disk.old) (D.faults disk.old)
        → IsSeenBefore old (devices_seen D.Disk P.Provider disk.old providers.old)
        → IsSeenAfter new (devices_seen D.Disk P.Provider disk.new providers.new)
        → EndsOver opened.area records (kind_of job.entry) None ended old new) }
{
    let ended = command_jobs::run_job(vault, job, disk, providers);
    ended
}

/// `run_pack`.
pub fn run_pack<D: Disk>(vault: Vault, disk: &mut D) -> Result<PackAnswer, BeginFault>
    requires ready { (handed : ℕ) × IsFreshFor vault (D.holds disk.old) (D.faults disk.old) handed }
    ensures ended { IfOk result (λ answer. (records : List Record) (providers : List Provider)
        (old new : Seen) → (opened : opens.IsOpened old records)
        → IsFreshOver vault opened.area records (D.holds disk.old) (D.faults disk.old)
        → IsSeenBefore old (devices (D.holds disk.old) (D.faults disk.old) providers)
        → IsSeenAfter new (devices (D.holds disk.new) (D.faults disk.new) providers)
        → PackEndsOver opened.area records answer old new) }
{
    let packed = command_jobs::run_pack(vault, disk);
    packed
}

/// `run_scrub`.
pub fn run_scrub<P: Provider>(
    alloc: Global,
    vault: Vault,
    providers: &mut [P],
) -> Result<ScrubAnswer, Memory>
    requires ready { (holds : Option Cells) × (faults : ℕ) × IsFreshFor vault holds faults
        (length providers.old) }
    ensures ended { IfOk result (λ answer. (records : List Record) (holds : Option Cells) (faults : ℕ)
        (old new : Seen) → (opened : opens.IsOpened old records)
        → IsFreshOver vault opened.area records holds faults
        → IsSeenBefore old (devices holds faults (map (provider_seen P.Provider) providers.old))
        → IsSeenAfter new (devices holds faults (map (provider_seen P.Provider) providers.new))
        → ScrubEndsOver opened.area records answer old new) }
{
    let scrubbed = command_jobs::run_scrub(alloc, vault, providers);
    scrubbed
}

/// `run_stream`.
pub fn run_stream<D: Disk, P: Provider, S: Source>(
    alloc: Global,
    vault: Vault,
    name: &[u8],
    profile: Option<u8>,
    disk: &mut D,
    providers: &mut [P],
    source: &mut S,
) -> Result<Streamed, Unbegun>
    requires ready { IsFreshFor vault (D.holds disk.old) (D.faults disk.old) (length providers.old) }
    requires known { is_unknown profile ≡ false }
    ensures ended { IfOk result (λ streamed. (records : List Record) (old new : Seen)
        → (opened : opens.IsOpened old records)
        → IsFreshOver vault opened.area records (D.holds disk.old) (D.faults disk.old)
        → IsSeenBefore old (devices_seen D.Disk P.Provider disk.old providers.old)
        → IsSeenAfter new (devices_seen D.Disk P.Provider disk.new providers.new)
        → IsSourceSeen old (S.left source.old) (S.faults source.old)
        → IsSourceSeen new (S.left source.new) (S.faults source.new)
        → StreamsOver opened.area records name.now profile streamed old new) }
{
    let streamed = command_jobs::run_stream(alloc, vault, name, profile, disk, providers, source);
    streamed
}
