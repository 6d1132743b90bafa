//! What a vault does for what runs alone beside its jobs.
ghost use Rattle.std.specs.Prelude.{◌≡◌, ◌<◌, ◌-◌, ◌^◌, ◌≤◌, ℕ, true, None, Some, Err, IfOk, OnOk, OnErr, IsErr, IsErrOf, is_some};
ghost use Rattle.machine_defs.specs.Alone.{new_scrub};
ghost use Rattle.machine_defs.specs.States.{State, setup_in};
ghost use Rattle.hail_scrub.specs.Stands.{ScrubIs};
ghost use Rattle.hail_scrub.specs.Views.{scrub_left};
ghost use Rattle.vault_core.specs.declared.wish.BeginFault.TheVariants as fault;
ghost use Rattle.vault_open.specs.Devices.{Devices};
ghost use Rattle.vault.specs.Seen.{held_by, next_job_of, provider_count, IsUnchanged};
ghost use Rattle.vault.specs.Stands.{Stands, StandsBeside, HoldsOver};
ghost use Rattle.vault.specs.Streams.{KeepsStreamless};

use crate::vault::Vault;
use hail_field::Memory;
use hail_scrub::Scrub;
use std::alloc::Global;
use vault_core::BeginFault;

impl Vault {
    /// A scrub of all files in effect, in ascending order of their object numbers.
    pub fn scrub(&self, alloc: Global) -> Result<Scrub, Memory>
        ensures begun { (w : State) (d : Devices) (moment : ℕ) → Stands self.now d w
            → IfOk result (λ scrub. ScrubIs scrub (setup_in w) (new_scrub w moment)) }
        ensures providers { IfOk result (λ scrub. scrub.providers ≤ provider_count self.now) }
        ensures going { IfOk result (λ scrub. 0 < scrub_left scrub) }
    {
        let files = self.desk.all_files(alloc)?;
        Scrub::new(alloc, &self.desk.master, files)
    }

    /// Busy where the vault is held.
    pub(crate) fn unheld(&self) -> Result<(), BeginFault>
        ensures free { OnOk result (held_by self.now ≡ None) }
        ensures held { OnErr result (is_some (held_by self.now) ≡ true) }
        ensures busy { IsErr result → IsErrOf result fault.Busy }
    {
        match self.held {
            Some(_) => Err(BeginFault::Busy),
            None => Ok(()),
        }
    }

    /// Holds the vault under a job's number for what runs alone: until it is released each begin and each
    /// hold is refused as busy, and no step finds a job. It is refused as a begin is: where a disk call
    /// failed, and where a job runs or the vault is held. Condition: a number is left.
    pub fn hold(&mut self) -> Result<u32, BeginFault>
        requires { next_job_of self.old < 2 ^ 32 - 1 }
        ensures holds { (w : State) (d : Devices) → Stands self.old d w → HoldsOver w d result self.new }
        ensures held { IfOk result (λ number. held_by self.new ≡ Some number) }
        ensures busy { is_some (held_by self.old) ≡ true → result ≡ Err fault.Busy }
        ensures unchanged { OnErr result (IsUnchanged self.old self.new) }
        ensures streams { KeepsStreamless self.old self.new }
    {
        self.unheld()?;
        if let Some(fault) = self.desk.core.barred() {
            return Err(fault);
        }
        if self.desk.core.running() > 0 {
            return Err(BeginFault::Busy);
        }
        let number = self.desk.core.draw();
        self.held = Some(number);
        Ok(number)
    }

    /// Ends a hold; nothing changes where there is none.
    pub fn release(&mut self)
        ensures free { (w : State) (d : Devices) (number : ℕ) → StandsBeside self.old d w number
            → Stands self.new d w }
        ensures held { held_by self.new ≡ None }
        ensures none { held_by self.old ≡ None → self.new ≡ self.old }
        ensures streams { KeepsStreamless self.old self.new }
    {
        self.held = None;
    }
}
