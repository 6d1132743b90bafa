ghost use Rattle.std.specs.Prelude.{◌≡◌, ◌<◌, ◌-◌, ◌^◌, ℕ, true, None, Err, OnErr, is_some};
ghost use Rattle.machine_defs.specs.Jobs.{PutJob, GetJob, DropJob, AuditJob, RepairJob, UpgradeJob};
ghost use Rattle.machine_defs.specs.States.{State};
ghost use Rattle.vault_core.specs.declared.wish.BeginFault.TheVariants as fault;
ghost use Rattle.vault_open.specs.Devices.{Devices};
ghost use Rattle.vault.specs.Seen.{held_by, next_job_of, IsUnchanged};
ghost use Rattle.vault.specs.Streams.{KeepsStreamless};
ghost use Rattle.vault.specs.Stands.{Stands, MakesBegin};

use crate::vault::Vault;
use stream_model::Bytes;
use vault_core::BeginFault;

impl Vault {
    /// Begins to put a file under a name, where it names none with the setup's profile; to name one takes the
    /// journal's second version. All that its steps work with is reserved here.
    pub fn begin_put(
        &mut self,
        name: &[u8],
        bytes: Bytes,
        profile: Option<u8>,
    ) -> Result<u32, BeginFault>
        requires { next_job_of self.old < 2 ^ 32 - 1 }
        ensures machine { (w : State) (d : Devices) (moment : ℕ) → Stands self.old d w
            → MakesBegin w moment (PutJob name.now bytes) profile result self.new d }
        ensures unchanged { OnErr result (IsUnchanged self.old self.new) }
        ensures streams { KeepsStreamless self.old self.new }
        ensures busy { is_some (held_by self.old) ≡ true → result ≡ Err fault.Busy }
    {
        self.unheld()?;
        self.desk.begin_put(name, bytes, profile)
    }

    /// Begins to get the file of a name. No step of it takes memory.
    pub fn begin_get(&mut self, name: &[u8]) -> Result<u32, BeginFault>
        requires { next_job_of self.old < 2 ^ 32 - 1 }
        ensures machine { (w : State) (d : Devices) (moment : ℕ) → Stands self.old d w
            → MakesBegin w moment (GetJob name.now) None result self.new d }
        ensures unchanged { OnErr result (IsUnchanged self.old self.new) }
        ensures streams { KeepsStreamless self.old self.new }
        ensures busy { is_some (held_by self.old) ≡ true → result ≡ Err fault.Busy }
    {
        self.unheld()?;
        self.desk.begin_get(name)
    }

    /// Begins to drop the file of a name.
    pub fn begin_drop(&mut self, name: &[u8]) -> Result<u32, BeginFault>
        requires { next_job_of self.old < 2 ^ 32 - 1 }
        ensures machine { (w : State) (d : Devices) (moment : ℕ) → Stands self.old d w
            → MakesBegin w moment (DropJob name.now) None result self.new d }
        ensures unchanged { OnErr result (IsUnchanged self.old self.new) }
        ensures streams { KeepsStreamless self.old self.new }
        ensures busy { is_some (held_by self.old) ≡ true → result ≡ Err fault.Busy }
    {
        self.unheld()?;
        self.desk.begin_drop(name)
    }

    /// Begins to audit all files in effect.
    pub fn begin_audit(&mut self) -> Result<u32, BeginFault>
        requires { next_job_of self.old < 2 ^ 32 - 1 }
        ensures machine { (w : State) (d : Devices) (moment : ℕ) → Stands self.old d w
            → MakesBegin w moment AuditJob None result self.new d }
        ensures unchanged { OnErr result (IsUnchanged self.old self.new) }
        ensures streams { KeepsStreamless self.old self.new }
        ensures busy { is_some (held_by self.old) ≡ true → result ≡ Err fault.Busy }
    {
        self.unheld()?;
        self.desk.begin_audit()
    }

    /// Begins to rebuild the providers that the last audit flagged. Its benches are those of the largest file,
    /// since it turns to files of any length: one of the setup's profile, and one of each other in effect.
    pub fn begin_repair(&mut self) -> Result<u32, BeginFault>
        requires { next_job_of self.old < 2 ^ 32 - 1 }
        ensures machine { (w : State) (d : Devices) (moment : ℕ) → Stands self.old d w
            → MakesBegin w moment RepairJob None result self.new d }
        ensures unchanged { OnErr result (IsUnchanged self.old self.new) }
        ensures streams { KeepsStreamless self.old self.new }
        ensures busy { is_some (held_by self.old) ≡ true → result ≡ Err fault.Busy }
    {
        self.unheld()?;
        self.desk.begin_repair()
    }

    /// Begins to bring the journal's second version into effect, which takes a vault with no other job.
    pub fn begin_upgrade(&mut self) -> Result<u32, BeginFault>
        requires { next_job_of self.old < 2 ^ 32 - 1 }
        ensures machine { (w : State) (d : Devices) (moment : ℕ) → Stands self.old d w
            → MakesBegin w moment UpgradeJob None result self.new d }
        ensures unchanged { OnErr result (IsUnchanged self.old self.new) }
        ensures streams { KeepsStreamless self.old self.new }
        ensures busy { is_some (held_by self.old) ≡ true → result ≡ Err fault.Busy }
    {
        self.unheld()?;
        self.desk.begin_upgrade()
    }
}
