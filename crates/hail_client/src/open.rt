ghost use Rattle.std.specs.Prelude.{◌≡◌, ℕ, true, false, List, Err, IsSome, OnOk, IsErrOf, is_some, length};
ghost use Rattle.device_defs.specs.Providers.{Provider};
ghost use Rattle.machine_defs.specs.Events.{Init, Reopen, Stop, Stopped};
ghost use Rattle.machine_defs.specs.States.{State};
ghost use Rattle.record_codec.specs.Entries.{with_master};
ghost use Rattle.vault_open.specs.Devices.{devices};
ghost use Rattle.vault_open.specs.Disks.{CallsDisk, SetsUp, StartsOver};
ghost use Rattle.vault_open.specs.declared.fault.InitFault.TheVariants as init_fault;
ghost use Rattle.vault_open.specs.Inits.{init_outcome};
ghost use Rattle.vault.specs.Streams.{IsStreamless};
ghost use Rattle.hail_client.specs.Client.{is_open, client_next_job, with_vault, without_vault};
ghost use Rattle.hail_client.specs.Outcomes.{started, reopen_outcome, UnlessBadJournal};
ghost use Rattle.hail_client.specs.Stands.{ClientStands, MakesEvent, IsMadeAnew, IsStanding, IsReopened, OpensOver};

use crate::begin::bytes_are_bytes;
use crate::client::Client;
use crate::fault::ReopenFault;
use crate::laws::setups_are_spelled;
use disk_model::Disk;
use key_schedule::Master;
use record_codec::Setup;
use std::alloc::Global;
use vault::{InitFault, Vault, init};

impl Client {
    /// Sets a store up on a disk; refused where a vault is open, with the disk left alone.
    pub fn init<D: Disk>(
        &self,
        alloc: Global,
        setup: &Setup,
        master: &Master,
        disk: &mut D,
    ) -> Result<(), InitFault>
        ensures machine { (w : State) (providers : List Provider) (moment : ℕ) → IsSome (D.holds disk.old)
            → ClientStands self.now (devices (D.holds disk.old) (D.faults disk.old) providers) w
            → MakesEvent w moment (Init (with_master setup.now master.now.0)) (init_outcome result) self.now
            (devices (D.holds disk.new) (D.faults disk.new) providers) }
        ensures already { is_open self.now ≡ true
            → (result ≡ Err init_fault.Already) × (disk.new ≡ disk.old) }
        ensures set_up { is_open self.now ≡ false
            → SetsUp (with_master setup.now master.now.0) (D.holds disk.old) (D.holds disk.new) result }
        ensures standing { (providers : List Provider)
            → IsStanding self.now (devices (D.holds disk.old) (D.faults disk.old) providers)
            → IsStanding self.now (devices (D.holds disk.new) (D.faults disk.new) providers) }
        ensures called { CallsDisk (D.holds disk.old) (D.holds disk.new) (D.faults disk.old)
            (D.faults disk.new) (IsErrOf result init_fault.DiskFault) }
    {
        setups_are_spelled(*setup, master);
        if self.vault.is_some() {
            return Err(InitFault::Already);
        }
        init(alloc, disk, master, setup)
    }

    /// Gives up an open vault with its jobs, or what runs alone beside it, and opens one over what the disk reads, where so
    /// many providers are handed in. Job numbers go on. After an error no vault is open.
    pub fn reopen<D: Disk>(
        &mut self,
        alloc: Global,
        disk: &mut D,
        handed: usize,
    ) -> Result<(), ReopenFault>
        ensures machine { (w : State) (providers : List Provider) (moment : ℕ) → IsSome (D.holds disk.old)
            → length providers ≡ handed
            → ClientStands self.old (devices (D.holds disk.old) (D.faults disk.old) providers) w
            → MakesEvent w moment Reopen (reopen_outcome result) self.new
            (devices (D.holds disk.new) (D.faults disk.new) providers) }
        ensures opened { OnOk result
            (OpensOver (D.holds disk.old) (client_next_job self.old) handed self.new (D.holds disk.new)
            (D.faults disk.new)) }
        ensures anew { (providers : List Provider) (moment : ℕ) → is_some (D.holds disk.old) ≡ false
            → length providers ≡ handed
            → UnlessBadJournal result
            (IsMadeAnew moment (client_next_job self.old) Reopen (reopen_outcome result) self.new
            (devices (D.holds disk.old) (D.faults disk.old) providers)
            (devices (D.holds disk.new) (D.faults disk.new) providers)) }
        ensures standing { (providers : List Provider) → length providers ≡ handed
            → IsStanding self.old (devices (D.holds disk.old) (D.faults disk.old) providers)
            → IsStanding self.new (devices (D.holds disk.new) (D.faults disk.new) providers) }
        ensures reopened { IsReopened self.old self.new result }
        ensures start { StartsOver (D.holds disk.old) (D.holds disk.new) (D.faults disk.old)
            (D.faults disk.new) (started result) }
    {
        self.give_up();
        let vault = Vault::start(alloc, disk, self.next_job)?;
        if handed < usize::from(vault.setup().n) {
            vault.close();
            return Err(ReopenFault::TooFewProviders);
        }
        self.hold(vault);
        Ok(())
    }

    /// Gives up an open vault with its jobs, or what runs alone beside it, and stops the disk, of which one of its images is
    /// left: a disk in memory makes it by the picks.
    pub fn stop<D: Disk>(&mut self, disk: &mut D, picks: &[u8])
        ensures machine { (w : State) (providers : List Provider) (moment : ℕ)
            → ClientStands self.old (devices (D.holds disk.old) (D.faults disk.old) providers) w
            → MakesEvent w moment (Stop picks.now) Stopped self.new
            (devices (D.holds disk.new) (D.faults disk.new) providers) }
        ensures closed { is_open self.new ≡ false }
        ensures next_job { client_next_job self.new ≡ client_next_job self.old }
        ensures count { D.faults disk.new ≡ D.faults disk.old }
        ensures tells { is_some (D.holds disk.new) ≡ is_some (D.holds disk.old) }
    {
        bytes_are_bytes(picks);
        self.give_up();
        disk.stop(picks);
    }

    /// Gives up an open vault with its jobs, or what runs alone beside it.
    fn give_up(&mut self)
        ensures closed { self.new ≡ without_vault (client_next_job self.old) }
    {
        self.next_job = self.next_job();
        let _ = self.alone.take();
        if let Some(vault) = self.vault.take() {
            vault.close();
        }
    }

    /// Has this vault for its own, and no other, with nothing alone beside it. Condition: no stream of it is open.
    fn hold(&mut self, vault: Vault)
        requires { IsStreamless vault }
        ensures held { (streamless : IsStreamless vault)
            → self.new ≡ with_vault vault streamless self.old.next_job }
    {
        self.alone = None;
        if let Some(older) = self.vault.replace(vault) {
            older.close();
        }
    }
}
