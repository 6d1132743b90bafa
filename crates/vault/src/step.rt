ghost use Rattle.std.specs.Prelude.{◌≡◌, ◌↔◌, ◌<◌, ◌≤◌, ◌++◌, ◌∷◌, [], ℕ, true, None, Some, length};
ghost use Rattle.machine_defs.specs.States.{State};
ghost use Rattle.record_defs.specs.Records.{Record as Entry};
ghost use Rattle.record_defs.specs.Spellings.{spelling};
ghost use Rattle.vault.specs.Calls.{moves_before_next, MovesCells};
ghost use Rattle.vault.specs.Devices.{devices_seen};
ghost use Rattle.vault.specs.Outcomes.{IsNoAction};
ghost use Rattle.vault.specs.Seen.{provider_count, coming_of, vault_entry, closed_gate_of, left_of, IsUnchanged};
ghost use Rattle.vault.specs.Stands.{Stands, MakesStep};
ghost use Rattle.vault.specs.Steps.{CallsNext, LeavesVault};
ghost use Rattle.vault.specs.Streams.{wants_of};
ghost use Rattle.vault.specs.declared.turn.Turn.TheVariants as turn;
ghost use Rattle.vault_core.specs.Coming.{IsNoJob, calls_disk};

use crate::turn::Turn;
use crate::vault::Vault;
use disk_model::Disk;
use provider_model::Provider;
use vault_core::Next;

impl Vault {
    /// Makes the next action of a job, with its one call of a device, if it has one. Conditions: the setup's
    /// `n` providers at least, of which only these are used; the disk is the one that the vault was opened
    /// over; and the job is no stream that waits for a stripe.
    pub fn step<D: Disk, P: Provider>(
        &mut self,
        job: u32,
        disk: &mut D,
        providers: &mut [P],
    ) -> Turn
        requires handed { provider_count self.old ≤ length providers.old }
        requires given { wants_of self.old job ≡ None }
        ensures machine { (w : State) (moment : ℕ)
            → Stands self.old (devices_seen D.Disk P.Provider disk.old providers.old) w
            → MakesStep w moment job result self.new
            (devices_seen D.Disk P.Provider disk.old providers.old)
            (devices_seen D.Disk P.Provider disk.new providers.new) }
        ensures calls { CallsNext D.Disk P.Provider (coming_of self.old job) disk.old providers.old disk.new
            providers.new }
        ensures left { result ≡ turn.More → left_of self.new job < left_of self.old job }
        ensures moves { (w : State) (entry : Entry)
            → Stands self.old (devices_seen D.Disk P.Provider disk.old providers.old) w
            → vault_entry self.old job ≡ Some entry → calls_disk (coming_of self.old job) ≡ true
            → MovesCells (moves_before_next (coming_of self.old job)) (closed_gate_of self.old)
            (spelling entry ++ 0 ∷ []) result (D.holds disk.old) (D.holds disk.new) }
        ensures waits { IsNoAction result
            → IsUnchanged self.old self.new × (disk.new ≡ disk.old) × (providers.new ≡ providers.old) }
        ensures no_job { (result ≡ turn.NoSuchJob) ↔ (coming_of self.old job ≡ IsNoJob) }
        ensures leaves { LeavesVault self.old self.new result }
    {
        match self.desk.core.next(job) {
            Next::Act(action) => self.desk.act(job, action, disk, providers),
            Next::Waiting { holder } => Turn::Waiting { holder },
            Next::NoSuchJob => Turn::NoSuchJob,
            Next::MustReopen => Turn::MustReopen,
        }
    }
}
