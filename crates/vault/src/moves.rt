ghost use Rattle.std.specs.Prelude.{ℕ, Bool, List, [], ◌∷◌, ◌++◌, ◌≡◌, ◌-◌, None, Option, Some, is_some};
ghost use Rattle.device_defs.specs.Cells.{Cells};
ghost use Rattle.device_defs.specs.Faults.{one_more};
ghost use Rattle.device_defs.specs.Providers.{Provider};
ghost use Rattle.record_defs.specs.Records.{Record as Entry};
ghost use Rattle.record_defs.specs.Spellings.{spelling};
ghost use Rattle.machine_defs.specs.Actions.{Action};
ghost use Rattle.machine_defs.specs.States.{State};
ghost use Rattle.vault_open.specs.Devices.{devices};
ghost use Rattle.vault_core.specs.Coming.{entry_in, next_in};
ghost use Rattle.vault.specs.Calls.{moves_before_next, MovesCells};
ghost use Rattle.vault.specs.Desks.{DeskStands, IsAtWork, Comes, DeskMakesStep};
ghost use Rattle.vault.specs.Devices.{cells_by};
ghost use Rattle.vault.specs.Movers.{ComesMove, IsUnbegun, IsMover};
ghost use Rattle.vault.specs.Steps.{HasActed};

use crate::desk::Desk;
use crate::flight::{Flight, Moved};
use crate::turn::{Answer, Turn};
use disk_model::Disk;
use vault_core::Reply;

impl Desk {
    /// The append of the record that a job writes, no move of which is made.
    fn first_flight(&self, job: u32) -> Flight
        requires next { ComesMove self.now.core job }
        ensures { IsUnbegun self.now.core job result }
    {
        match self.core.entry(job) {
            Some(entry) => Flight::new(self.core.end() - 1, &entry),
            None => unreachable!(),
        }
    }

    /// The append in flight, which the vault gives away; where there is none, the one that the job begins.
    fn take_flight(&mut self, job: u32) -> Flight
        requires next { ComesMove self.old.core job }
        ensures rest { self.new ≡ record self.old { flight = None } }
        ensures is { (w : State) (told : Option Cells) (faults : ℕ) (providers : List Provider)
            (action : Action)
            → DeskStands self.old (devices told faults providers) w → Comes self.old.core job action
            → IsMover self.old w told job action result }
    {
        match self.flight.take() {
            Some(flight) => flight,
            None => self.first_flight(job),
        }
    }

    /// Makes the next move of a job's append: it writes the record behind the closed gate, syncs the disk,
    /// opens the gate, or syncs again; then the record is in effect.
    pub fn move_append<D: Disk>(&mut self, job: u32, disk: &mut D) -> Turn
        requires next { ComesMove self.old.core job }
        requires at_work { IsAtWork self.old }
        ensures machine { (w : State) (moment : ℕ) (providers : List Provider) (is_told : Bool)
            → DeskStands self.old
            (devices (cells_by is_told (D.holds disk.old)) (D.faults disk.old) providers) w
            → DeskMakesStep w moment job result self.new
            (devices (cells_by is_told (D.holds disk.old)) (D.faults disk.old) providers)
            (devices (cells_by is_told (D.holds disk.new)) (D.faults disk.new) providers) }
        ensures cells { (w : State) (entry : Entry) (providers : List Provider)
            → DeskStands self.old (devices (D.holds disk.old) (D.faults disk.old) providers) w
            → entry_in self.old.core job ≡ Some entry
            → MovesCells (moves_before_next (next_in self.old.core job)) (self.old.core.end - 1)
            (spelling entry ++ 0 ∷ []) result (D.holds disk.old) (D.holds disk.new) }
        ensures tells { is_some (D.holds disk.new) ≡ is_some (D.holds disk.old) }
        ensures called { D.calls disk.new ≡ one_more (D.calls disk.old) }
        ensures acted { HasActed self.old.core self.new.core job result }
    {
        match self.take_flight(job).turn(disk) {
            Moved::On(flight) => {
                self.flight = Some(flight);
                self.core.feed(job, Reply::Done);
                Turn::More
            }
            Moved::Done => {
                self.core.feed(job, Reply::Done);
                Turn::More
            }
            Moved::Failed => self.stop(job, Reply::Failed, Answer::DiskFault),
            Moved::Memory => self.stop(job, Reply::Memory, Answer::Memory),
        }
    }
}
