//! How a desk begins its jobs: what each works with is reserved here.
ghost use Rattle.std.specs.Prelude.{◌≡◌, ◌<◌, ◌-◌, ◌^◌, ℕ, List, None, OnOk, OnErr};
ghost use Rattle.record_codec.specs.Entries.{with_master};
ghost use Rattle.machine_defs.specs.Begins.{chosen};
ghost use Rattle.machine_defs.specs.Jobs.{PutJob, GetJob, DropJob, AuditJob, RepairJob, UpgradeJob};
ghost use Rattle.machine_defs.specs.States.{State};
ghost use Rattle.vault_open.specs.Devices.{Devices};
ghost use Rattle.vault.specs.Desks.{DeskStands, DeskMakesBegin};
ghost use Rattle.vault.specs.AtHand.{KeepsStreams};
ghost use Rattle.vault.specs.Running.{IsSameDesk};

use crate::benches::bytes_are_bytes;
use crate::desk::Desk;
use crate::tasks::{AuditTask, GetTask, PutTask, Task};
use code_points::is_unknown;
use record_codec::Setup;
use record_defs::{LARGEST_FILE, MOST_FILES};
use stream_model::Bytes;
use vault_core::{BeginFault, Wish};

/// The profile of a put: the one that it names, or else the setup's.
pub(crate) fn profile_of_put(profile: Option<u8>, setup: &Setup) -> u8
    ensures { (key : List ℕ) → result ≡ chosen (with_master setup.now key) profile }
{
    match profile {
        Some(number) => number,
        None => setup.profile,
    }
}

impl Desk {
    /// Takes in a put: the first of its name, its profile and its length that is wrong refuses it.
    pub(crate) fn begin_put(
        &mut self,
        name: &[u8],
        bytes: Bytes,
        profile: Option<u8>,
    ) -> Result<u32, BeginFault>
        requires { self.old.core.next_job < 2 ^ 32 - 1 }
        ensures machine { (w : State) (d : Devices) (moment : ℕ) → DeskStands self.old d w
            → DeskMakesBegin w moment (PutJob name.now bytes) profile result self.new d }
        ensures unchanged { OnErr result (IsSameDesk self.old self.new) }
        ensures streams { OnOk result (KeepsStreams self.old.core self.new.core) }
    {
        let name = self.checked_name(name)?;
        bytes_are_bytes(bytes.as_slice());
        if is_unknown(profile) {
            return Err(BeginFault::BadProfile);
        }
        let length = bytes.as_slice().len();
        if length > LARGEST_FILE as usize {
            return Err(BeginFault::TooLong);
        }
        let chosen = profile_of_put(profile, &self.setup);
        let bench = self.bench_for(0, length as u32, chosen)?;
        let wish = Wish::Put {
            name,
            length: length as u32,
            profile,
        };
        let task = PutTask {
            bytes,
            bench,
            at_hand: None,
        };
        self.admit(wish, None, Task::Put(task))
    }

    /// Takes in a get of the file of a name.
    pub(crate) fn begin_get(&mut self, name: &[u8]) -> Result<u32, BeginFault>
        requires { self.old.core.next_job < 2 ^ 32 - 1 }
        ensures machine { (w : State) (d : Devices) (moment : ℕ) → DeskStands self.old d w
            → DeskMakesBegin w moment (GetJob name.now) None result self.new d }
        ensures unchanged { OnErr result (IsSameDesk self.old self.new) }
        ensures streams { OnOk result (KeepsStreams self.old.core self.new.core) }
    {
        let name = self.checked_name(name)?;
        let wish = Wish::Get { name };
        let Some(file) = self.core.file_named(&wish) else {
            return Err(BeginFault::NoSuchName);
        };
        let length = file.length.min(LARGEST_FILE);
        let bench = self.bench_for(file.id, length, file.profile)?;
        match GetTask::new(self.alloc, self.core.next_job(), bench) {
            Ok(task) => self.admit(wish, Some(file), Task::Get(task)),
            Err(_) => Err(BeginFault::Memory),
        }
    }

    /// Takes in a drop of the file of a name.
    pub(crate) fn begin_drop(&mut self, name: &[u8]) -> Result<u32, BeginFault>
        requires { self.old.core.next_job < 2 ^ 32 - 1 }
        ensures machine { (w : State) (d : Devices) (moment : ℕ) → DeskStands self.old d w
            → DeskMakesBegin w moment (DropJob name.now) None result self.new d }
        ensures unchanged { OnErr result (IsSameDesk self.old self.new) }
        ensures streams { OnOk result (KeepsStreams self.old.core self.new.core) }
    {
        let name = self.checked_name(name)?;
        let wish = Wish::Drop { name };
        let file = self.core.file_named(&wish);
        self.admit(wish, file, Task::Drop)
    }

    /// Takes in an audit.
    pub(crate) fn begin_audit(&mut self) -> Result<u32, BeginFault>
        requires { self.old.core.next_job < 2 ^ 32 - 1 }
        ensures machine { (w : State) (d : Devices) (moment : ℕ) → DeskStands self.old d w
            → DeskMakesBegin w moment AuditJob None result self.new d }
        ensures unchanged { OnErr result (IsSameDesk self.old self.new) }
        ensures streams { OnOk result (KeepsStreams self.old.core self.new.core) }
    {
        let files = self.core.table().count().min(MOST_FILES);
        let n = self.setup.n;
        let asks = files * (usize::from(self.setup.rounds) * usize::from(n));
        match AuditTask::new(self.alloc, self.core.next_job(), n, asks) {
            Ok(task) => self.admit(Wish::Audit, None, Task::Audit(task)),
            Err(_) => Err(BeginFault::Memory),
        }
    }

    /// Takes in a repair.
    pub(crate) fn begin_repair(&mut self) -> Result<u32, BeginFault>
        requires { self.old.core.next_job < 2 ^ 32 - 1 }
        ensures machine { (w : State) (d : Devices) (moment : ℕ) → DeskStands self.old d w
            → DeskMakesBegin w moment RepairJob None result self.new d }
        ensures unchanged { OnErr result (IsSameDesk self.old self.new) }
        ensures streams { OnOk result (KeepsStreams self.old.core self.new.core) }
    {
        let task = self.repair_task()?;
        self.admit(Wish::Repair, None, Task::Repair(task))
    }

    /// Takes in an upgrade.
    pub(crate) fn begin_upgrade(&mut self) -> Result<u32, BeginFault>
        requires { self.old.core.next_job < 2 ^ 32 - 1 }
        ensures machine { (w : State) (d : Devices) (moment : ℕ) → DeskStands self.old d w
            → DeskMakesBegin w moment UpgradeJob None result self.new d }
        ensures unchanged { OnErr result (IsSameDesk self.old self.new) }
        ensures streams { OnOk result (KeepsStreams self.old.core self.new.core) }
    {
        self.admit(Wish::Upgrade, None, Task::Upgrade)
    }
}
