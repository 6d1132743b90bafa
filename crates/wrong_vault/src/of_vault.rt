//! Bodies of vault's public functions, for its must-fail edits to spoil.
ghost use Rattle.std.specs.Prelude.{◌≡◌, ◌<◌, ◌≤◌, ◌-◌, ◌^◌, ℕ, Bool, List, None, Err, true, false, length, is_some, slice_get, IfOk};
ghost use Rattle.std.specs.Option.{option_map};
ghost use Rattle.device_defs.specs.Providers.{Provider};
ghost use Rattle.journal_pack.specs.Packs.{moves_of};
ghost use Rattle.machine_defs.specs.Alone.{new_scrub};
ghost use Rattle.machine_defs.specs.Jobs.{PutJob, job_of};
ghost use Rattle.machine_defs.specs.States.{State, setup_in};
ghost use Rattle.record_defs.specs.Areas.{text_length};
ghost use Rattle.hail_scrub.specs.Stands.{ScrubIs};
ghost use Rattle.vault_core.specs.declared.wish.BeginFault.TheVariants as fault;
ghost use Rattle.vault_open.specs.Devices.{Devices, devices};
ghost use Rattle.vault_open.specs.Disks.{StartsOver};
ghost use Rattle.vault.specs.Devices.{cells_by, devices_seen};
ghost use Rattle.vault.specs.Heard.{entry_heard};
ghost use Rattle.vault.specs.Outcomes.{IsNoAction};
ghost use Rattle.vault.specs.Packing.{IsPackOf, StandsPacking, PacksOver, MakesPackStep};
ghost use Rattle.vault.specs.Seen.{held_by, next_job_of, provider_count, coming_of, IsUnchanged};
ghost use Rattle.vault.specs.Stands.{Stands, HoldsOver, MakesBegin, MakesStep};
ghost use Rattle.vault.specs.Steps.{CallsNext, CallsPack};
ghost use Rattle.vault.specs.Streams.{wants_of, stripe_of, IsPiece, FitsPiece};

use disk_model::Disk;
use hail_field::Memory;
use hail_scrub::Scrub;
use std::alloc::Global;
use stream_model::Bytes;
use vault::{BeginFault, Heard, HeardList, PackJob, PackTurn, StartFault, Turn, Vault};

/// `Vault::start`.
pub fn start<D: Disk>(alloc: Global, disk: &mut D, first: u32) -> Result<Vault, StartFault>
    ensures start { StartsOver (D.holds disk.old) (D.holds disk.new) (D.faults disk.old) (D.faults disk.new)
        result }
{
    let told = Vault::start(alloc, disk, first);
    told
}

/// `Vault::begin_put`.
pub fn begin_put(
    vault: &mut Vault,
    name: &[u8],
    bytes: Bytes,
    profile: Option<u8>,
) -> Result<u32, BeginFault>
    requires { next_job_of vault.old < 2 ^ 32 - 1 }
    ensures machine { (w : State) (d : Devices) (moment : ℕ) → Stands vault.old d w
        → MakesBegin w moment (PutJob name.now bytes) profile result vault.new d }
{
    let begun = vault.begin_put(name, bytes, profile);
    begun
}

/// `Vault::begin_get`.
pub fn begin_get(vault: &mut Vault, name: &[u8]) -> Result<u32, BeginFault>
    requires { next_job_of vault.old < 2 ^ 32 - 1 }
    ensures busy { is_some (held_by vault.old) ≡ true → result ≡ Err fault.Busy }
{
    let begun = vault.begin_get(name);
    begun
}

/// `Vault::step`.
pub fn step<D: Disk, P: provider_model::Provider>(
    vault: &mut Vault,
    job: u32,
    disk: &mut D,
    providers: &mut [P],
) -> Turn
    requires handed { provider_count vault.old ≤ length providers.old }
    requires given { wants_of vault.old job ≡ None }
    ensures machine { (w : State) (moment : ℕ)
        → Stands vault.old (devices_seen D.Disk P.Provider disk.old providers.old) w
        → MakesStep w moment job result vault.new
        (devices_seen D.Disk P.Provider disk.old providers.old)
        (devices_seen D.Disk P.Provider disk.new providers.new) }
    ensures calls { CallsNext D.Disk P.Provider (coming_of vault.old job) disk.old providers.old disk.new
        providers.new }
    ensures waits { IsNoAction result
        → IsUnchanged vault.old vault.new × (disk.new ≡ disk.old) × (providers.new ≡ providers.old) }
{
    let turn = vault.step(job, disk, providers);
    turn
}

/// `Vault::may_give`.
pub fn may_give(vault: &Vault, job: u32, count: usize, last: bool) -> bool
    ensures refused { result ≡ false
        → IsPiece (stripe_of vault.now job) (wants_of vault.now job) count last → ⊥ }
{
    let may = vault.may_give(job, count, last);
    may
}

/// `Vault::give`.
pub fn give(vault: &mut Vault, job: u32, bytes: &[u8], last: bool)
    requires wants { is_some (wants_of vault.old job) ≡ true }
    requires piece { IsPiece (stripe_of vault.old job) (wants_of vault.old job) (length bytes.now) last }
    ensures stands { (w : State) (d : Devices) → Stands vault.old d w
        → FitsPiece (stripe_of vault.old job) (wants_of vault.old job) bytes.now last (job_of w.jobs job)
        → Stands vault.new d w }
{
    vault.give(job, bytes, last);
}

/// `Vault::scrub`.
pub fn scrub(vault: &Vault, alloc: Global) -> Result<Scrub, Memory>
    ensures begun { (w : State) (d : Devices) (moment : ℕ) → Stands vault.now d w
        → IfOk result (λ scrub. ScrubIs scrub (setup_in w) (new_scrub w moment)) }
{
    let begun = vault.scrub(alloc);
    begun
}

/// `Vault::hold`.
pub fn hold(vault: &mut Vault) -> Result<u32, BeginFault>
    requires { next_job_of vault.old < 2 ^ 32 - 1 }
    ensures holds { (w : State) (d : Devices) → Stands vault.old d w → HoldsOver w d result vault.new }
{
    let begun = vault.hold();
    begun
}

/// `Vault::release`.
pub fn release(vault: &mut Vault)
    ensures held { held_by vault.new ≡ None }
{
    vault.release();
}

/// `Vault::text_length`.
pub fn text_length(vault: &Vault) -> u64
    ensures { (w : State) (d : Devices) → Stands vault.now d w → result ≡ text_length w.area w.journal }
{
    let told = vault.text_length();
    told
}

/// `Vault::begin_pack`.
pub fn begin_pack(vault: &mut Vault) -> Result<PackJob, BeginFault>
    requires { next_job_of vault.old < 2 ^ 32 - 1 }
    ensures begins { (w : State) (d : Devices) → Stands vault.old d w → PacksOver w d result vault.new }
    ensures is_of { IfOk result (λ job. IsPackOf vault.new job × (moves_of job.pack ≡ 0)) }
{
    let begun = vault.begin_pack();
    begun
}

/// `Vault::step_pack`.
pub fn step_pack<D: Disk>(vault: &mut Vault, job: PackJob, disk: &mut D) -> PackTurn
    requires { IsPackOf vault.old job }
    ensures machine { (w : State) (providers : List Provider) (is_told : Bool)
        → StandsPacking vault.old job
        (devices (cells_by is_told (D.holds disk.old)) (D.faults disk.old) providers) w
        → MakesPackStep w job.number result vault.new
        (devices (cells_by is_told (D.holds disk.new)) (D.faults disk.new) providers) }
    ensures calls { CallsPack D.Disk job.pack result disk.old disk.new }
{
    let turn = vault.step_pack(job, disk);
    turn
}

/// `HeardList::at`.
pub fn at(list: &HeardList, place: usize) -> Option<Heard<'_>>
    ensures { option_map entry_heard result ≡ slice_get list.now place }
{
    let heard = list.at(place);
    heard
}
