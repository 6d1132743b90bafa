ghost use Rattle.std.specs.Prelude.{◌≡◌, ◌≤◌, ℕ, List, Option, IfOk, IfErr, OnErr, is_some};
ghost use Rattle.std.specs.Option.{option_map};
ghost use Rattle.device_defs.specs.Cells.{Cells};
ghost use Rattle.device_defs.specs.Disks.{synced};
ghost use Rattle.device_defs.specs.Providers.{Provider};
ghost use Rattle.device_defs.specs.Told.{Goes};
ghost use Rattle.record_defs.specs.Records.{Record};
ghost use Rattle.record_defs.specs.Areas.{Area, other_area};
ghost use Rattle.record_defs.specs.Packed.{packed};
ghost use Rattle.command_defs.specs.Seen.{Seen};
ghost use Rattle.command_defs.specs.Opens as opens;
ghost use Rattle.vault_open.specs.Devices.{devices};
ghost use Rattle.command_jobs.specs.Opened.{IsFreshOver, IsFreshFor};
ghost use Rattle.command_jobs.specs.Ends.{IsSeenBefore, IsSeenAfter};
ghost use Rattle.command_jobs.specs.Packs.{PackEndsOver, IsPackRefused, FillsGap, KeepsAround};

use disk_model::Disk;
use job_laws::alone::{opened_states, told_packs_leave};
use vault::{BeginFault, PackAnswer, PackTurn, Vault};

/// Packs the journal of a vault. It calls no provider, and whatever it comes to, of the disk only the text in
/// the other area and the switch byte are written. Condition: the vault was just opened over this disk, with
/// enough providers.
pub fn run_pack<D: Disk>(mut vault: Vault, disk: &mut D) -> Result<PackAnswer, BeginFault>
    requires ready { (handed : ℕ) × IsFreshFor vault (D.holds disk.old) (D.faults disk.old) handed }
    ensures ended { IfOk result (λ answer. (records : List Record) (providers : List Provider)
        (old new : Seen) → (opened : opens.IsOpened old records)
        → IsFreshOver vault opened.area records (D.holds disk.old) (D.faults disk.old)
        → IsSeenBefore old (devices (D.holds disk.old) (D.faults disk.old) providers)
        → IsSeenAfter new (devices (D.holds disk.new) (D.faults disk.new) providers)
        → PackEndsOver opened.area records answer old new) }
    ensures around { IfOk result (λ answer. (area : Area) (records : List Record) (told : Option Cells)
        → IsFreshOver vault area records (D.holds disk.old) (D.faults disk.old)
        → D.holds disk.old ≡ option_map synced told
        → Goes (KeepsAround (other_area area) (packed records) (FillsGap answer)) told (D.holds disk.new)) }
    ensures refused { IfErr result (λ why. (area : Area) (records : List Record)
        → IsFreshOver vault area records (D.holds disk.old) (D.faults disk.old)
        → IsPackRefused area records why) }
    ensures tells { is_some (D.holds disk.new) ≡ is_some (D.holds disk.old) }
    ensures count { D.faults disk.old ≤ D.faults disk.new }
    ensures untouched { OnErr result (disk.new ≡ disk.old) }
{
    opened_states();
    told_packs_leave();
    let mut job = vault.begin_pack()?;
    loop {
        match vault.step_pack(job, disk) {
            PackTurn::More(next) => job = next,
            PackTurn::Done(answer) => {
                vault.close();
                return Ok(answer);
            }
        }
    }
}
