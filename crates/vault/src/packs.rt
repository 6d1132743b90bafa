//! A pack of the journal, which runs alone beside the vault's jobs.
ghost use Rattle.std.specs.Prelude.{◌≡◌, ◌<◌, ◌-◌, ◌^◌, Bool, List, true, Err, IfOk, OnErr, is_some};
ghost use Rattle.device_defs.specs.Faults.{HasCause};
ghost use Rattle.device_defs.specs.Providers.{Provider};
ghost use Rattle.journal_pack.specs.Packs.{moves_of};
ghost use Rattle.machine_defs.specs.States.{State};
ghost use Rattle.record_defs.specs.Areas.{text_length};
ghost use Rattle.vault_core.specs.declared.wish.BeginFault.TheVariants as fault;
ghost use Rattle.vault_open.specs.Devices.{Devices, devices};
ghost use Rattle.vault.specs.declared.packing.PackAnswer.TheVariants as answer;
ghost use Rattle.vault.specs.declared.packing.PackTurn.TheVariants as pack_turn;
ghost use Rattle.vault.specs.Calls.{PacksCells};
ghost use Rattle.vault.specs.Devices.{cells_by};
ghost use Rattle.vault.specs.Packing.{IsPackOf, StandsPacking, PacksOver, MakesPackStep, IfMore};
ghost use Rattle.vault.specs.Seen.{held_by, next_job_of, IsUnchanged};
ghost use Rattle.vault.specs.Stands.{Stands};
ghost use Rattle.vault.specs.Steps.{CallsPack, IsPackOn, LeavesPacking};
ghost use Rattle.vault.specs.Streams.{KeepsStreamless};

use crate::packing::{PackAnswer, PackJob, PackTurn};
use crate::vault::Vault;
use disk_model::Disk;
use stream_model::WriteFault;
use vault_core::BeginFault;

impl Vault {
    /// The length of the journal's text in bytes: in the first area counted from the start of the disk, in the
    /// second from where the area begins.
    pub fn text_length(&self) -> u64
        ensures { (w : State) (d : Devices) → Stands self.now d w → result ≡ text_length w.area w.journal }
    {
        self.desk.text_length()
    }

    /// Begins to pack the journal. It runs alone: it is refused as busy while a job runs or the vault is held,
    /// and while it runs the vault is held. It is refused too where a disk call failed, where the journal has
    /// its first version, and where its text reaches from the first area into the second. Condition: a number
    /// is left.
    pub fn begin_pack(&mut self) -> Result<PackJob, BeginFault>
        requires { next_job_of self.old < 2 ^ 32 - 1 }
        ensures begins { (w : State) (d : Devices) → Stands self.old d w → PacksOver w d result self.new }
        ensures is_of { IfOk result (λ job. IsPackOf self.new job × (moves_of job.pack ≡ 0)) }
        ensures busy { is_some (held_by self.old) ≡ true → result ≡ Err fault.Busy }
        ensures unchanged { OnErr result (IsUnchanged self.old self.new) }
        ensures streams { KeepsStreamless self.old self.new }
    {
        self.unheld()?;
        if let Some(fault) = self.desk.pack_fault() {
            return Err(fault);
        }
        let pack = self.desk.new_pack()?;
        let before = self.desk.text_length();
        let number = self.desk.core.draw();
        self.held = Some(number);
        Ok(PackJob {
            number,
            before,
            pack,
        })
    }

    /// Makes the next of a pack's four moves, or, behind the fourth, its end, which calls no device: the text
    /// into the other area, a sync, the switch byte, a sync; with the fourth the packed text is the journal.
    /// Conditions: the pack is one of this vault, and the disk is the one that the vault was opened over.
    pub fn step_pack<D: Disk>(&mut self, job: PackJob, disk: &mut D) -> PackTurn
        requires { IsPackOf self.old job }
        ensures machine { (w : State) (providers : List Provider) (is_told : Bool)
            → StandsPacking self.old job
            (devices (cells_by is_told (D.holds disk.old)) (D.faults disk.old) providers) w
            → MakesPackStep w job.number result self.new
            (devices (cells_by is_told (D.holds disk.new)) (D.faults disk.new) providers) }
        ensures goes_on { IfMore result (IsPackOn self.new job) }
        ensures moves { PacksCells job.pack result (D.holds disk.old) (D.holds disk.new) }
        ensures calls { CallsPack D.Disk job.pack result disk.old disk.new }
        ensures cause { HasCause (D.faults disk.old) (D.faults disk.new)
            (result ≡ pack_turn.Done answer.DiskFault) }
        ensures leaves { LeavesPacking self.old self.new result }
    {
        let PackJob {
            number,
            before,
            mut pack,
        } = job;
        if pack.is_made() {
            self.held = None;
            let after = pack.size();
            return PackTurn::Done(PackAnswer::Packed { before, after });
        }
        match pack.turn(disk) {
            Ok(true) => {
                self.desk.switch(&pack);
                PackTurn::More(PackJob {
                    number,
                    before,
                    pack,
                })
            }
            Ok(false) => PackTurn::More(PackJob {
                number,
                before,
                pack,
            }),
            Err(WriteFault::Failed) => {
                self.desk.core.bar();
                self.held = None;
                PackTurn::Done(PackAnswer::DiskFault)
            }
            Err(WriteFault::Memory) => {
                self.held = None;
                PackTurn::Done(PackAnswer::Memory)
            }
        }
    }
}
