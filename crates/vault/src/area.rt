//! The area of the disk that a desk's journal stands in, and its pack into the other one.
ghost use Rattle.std.specs.Prelude.{◌≡◌, [], false, None, Some, IfOk, IfErr, IfSome};
ghost use Rattle.std.specs.Option.{option_map};
ghost use Rattle.journal_core.specs.Texts.{StandsFirm};
ghost use Rattle.journal_pack.specs.Packs.{moves_of, WritesText};
ghost use Rattle.journal_pack.specs.Tables.{packed_table};
ghost use Rattle.machine_defs.specs.Alone.{reaches_over, pack_refusal, switched};
ghost use Rattle.machine_defs.specs.States.{State};
ghost use Rattle.record_defs.specs.Areas.{Area, other_area, base_of, text_length};
ghost use Rattle.record_defs.specs.Packed.{packed};
ghost use Rattle.vault_core.specs.Carried.{refusal_of};
ghost use Rattle.vault_core.specs.declared.wish.BeginFault.TheVariants as fault;
ghost use Rattle.vault_open.specs.Devices.{Devices, AreDevices};
ghost use Rattle.vault.specs.Desks.{DeskStands, IsAtWork};
ghost use Rattle.vault.specs.Packing.{IsQuiet, IsPackText};

use crate::desk::Desk;
use journal_core::{FIRST_BASE, SECOND_BASE};
use journal_pack::{Pack, pack_records};
use vault_core::BeginFault;

impl Desk {
    /// The length of the journal's text in bytes: in the first area counted from the start of the disk, in the
    /// second from where the area begins.
    pub fn text_length(&self) -> u64
        requires { IsAtWork self.now }
        ensures { (w : State) (d : Devices) → DeskStands self.now d w → result ≡ text_length w.area w.journal }
    {
        if self.base == FIRST_BASE {
            self.core.end()
        } else {
            self.core.end() - self.base
        }
    }

    /// Whether the journal stands in the first area, and its text reaches into the second.
    fn is_too_long(&self) -> bool
        ensures { (w : State) (d : Devices) → DeskStands self.now d w → result ≡ reaches_over w.area w.journal }
    {
        self.base == FIRST_BASE && self.core.end() > SECOND_BASE
    }

    /// A pack of the records of the table, away from the area of the journal. Condition: the journal has its
    /// second version.
    pub fn new_pack(&self) -> Result<Pack, BeginFault>
        requires at_work { IsAtWork self.now }
        requires second { self.now.core.table.version ≡ 2 }
        ensures writes { IfOk result (λ pack. (area : Area) → self.now.base ≡ base_of area
            → WritesText (other_area area) (packed_table self.now.core.table) pack) }
        ensures moves { IfOk result (λ pack. moves_of pack ≡ 0) }
        ensures memory { IfErr result (λ why. why ≡ fault.Memory) }
    {
        let Ok(records) = pack_records(self.alloc, self.core.table()) else {
            return Err(BeginFault::Memory);
        };
        match Pack::new(self.alloc, self.base, &records) {
            Ok(pack) => Ok(pack),
            Err(_) => Err(BeginFault::Memory),
        }
    }

    /// Why no pack may begin: the first that applies of a failed disk call, a running job, a journal of the
    /// first version, and a text that reaches from the first area into the second.
    pub fn pack_fault(&self) -> Option<BeginFault>
        requires { IsAtWork self.now }
        ensures refusal { (w : State) (d : Devices) → DeskStands self.now d w
            → option_map refusal_of result ≡ pack_refusal w }
        ensures free { result ≡ None → (self.now.core.jobs ≡ []) × (self.now.core.barred ≡ false)
            × (self.now.flight ≡ None) × (self.now.core.table.version ≡ 2) }
    {
        if let Some(fault) = self.core.barred() {
            return Some(fault);
        }
        if self.core.running() > 0 {
            return Some(BeginFault::Busy);
        }
        if self.core.table().version() == 1 {
            return Some(BeginFault::OldVersion);
        }
        if self.is_too_long() {
            return Some(BeginFault::PackTooLong);
        }
        None
    }

    /// The packed text is the journal from now on. Conditions: nothing runs, and it is that of the table, in
    /// the other area.
    pub fn switch(&mut self, pack: &Pack)
        requires at_work { IsAtWork self.old }
        requires quiet { IsQuiet self.old }
        requires text { IsPackText self.old pack.now }
        ensures stands { (w : State) (d e : Devices) → DeskStands self.old d w → AreDevices e (switched w)
            → IfSome e.holds (StandsFirm (other_area w.area) (packed w.journal))
            → DeskStands self.new e (switched w) }
        ensures at_work { IsAtWork self.new }
        ensures quiet { IsQuiet self.new }
        ensures next_job { self.new.core.next_job ≡ self.old.core.next_job }
    {
        self.base = pack.base();
        self.core.moved(pack.end());
    }
}
