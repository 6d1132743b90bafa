ghost use Rattle.std.specs.Prelude.{◌≡◌, ◌<◌, ◌-◌, ◌++◌, ◌∷◌, [], ℕ, Bool, true, Some, length};
ghost use Rattle.machine_defs.specs.States.{State};
ghost use Rattle.record_defs.specs.Records.{Record as Entry};
ghost use Rattle.record_defs.specs.Spellings.{spelling};
ghost use Rattle.vault.specs.Calls.{moves_before_next, MovesCells};
ghost use Rattle.vault.specs.Desks.{DeskStands, IsAtWork, Comes, DeskMakesStep};
ghost use Rattle.vault.specs.Devices.{devices_seen, devices_by};
ghost use Rattle.vault.specs.Steps.{CallsNext, HasActed};
ghost use Rattle.vault_core.specs.Coming.{Acts, entry_in, seen_action, calls_disk, called_provider};

use crate::desk::Desk;
use crate::turn::Turn;
use disk_model::Disk;
use provider_model::Provider;
use vault_core::Action;

impl Desk {
    /// Makes this action of a job, which comes next for it.
    pub fn act<D: Disk, P: Provider>(
        &mut self,
        job: u32,
        action: Action,
        disk: &mut D,
        providers: &mut [P],
    ) -> Turn
        requires next { Comes self.old.core job (seen_action action) }
        requires there { (j : ℕ) → called_provider (Acts (seen_action action)) ≡ Some j
            → j < length providers.old }
        requires at_work { IsAtWork self.old }
        ensures machine { (w : State) (moment : ℕ) (is_told : Bool)
            → DeskStands self.old (devices_by is_told D.Disk P.Provider disk.old providers.old) w
            → DeskMakesStep w moment job result self.new
            (devices_by is_told D.Disk P.Provider disk.old providers.old)
            (devices_by is_told D.Disk P.Provider disk.new providers.new) }
        ensures calls { CallsNext D.Disk P.Provider (Acts (seen_action action)) disk.old providers.old disk.new
            providers.new }
        ensures moves { (w : State) (entry : Entry)
            → DeskStands self.old (devices_seen D.Disk P.Provider disk.old providers.old) w
            → entry_in self.old.core job ≡ Some entry → calls_disk (Acts (seen_action action)) ≡ true
            → MovesCells (moves_before_next (Acts (seen_action action))) (self.old.core.end - 1)
            (spelling entry ++ 0 ∷ []) result (D.holds disk.old) (D.holds disk.new) }
        ensures acted { HasActed self.old.core self.new.core job result }
    {
        match action {
            Action::WriteBody | Action::SyncBody | Action::WriteGate | Action::SyncGate => {
                self.move_append(job, disk)
            }
            Action::Store {
                provider,
                object,
                stripe,
            } => self.store(job, provider, object, stripe, providers),
            Action::Fetch {
                provider,
                object,
                stripe,
            } => self.fetch(job, provider, object, stripe, providers),
            Action::Ask {
                provider,
                object,
                round,
            } => self.ask(job, provider, object, round, providers),
            Action::Work { object, stripe } => self.work(job, object, stripe),
            Action::Remove { provider, object } => self.remove(job, provider, object, providers),
            Action::End => self.end(job),
        }
    }
}
