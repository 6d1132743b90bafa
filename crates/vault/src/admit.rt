ghost use Rattle.std.specs.Prelude.{◌≡◌, ◌∷◌, ◌<◌, ◌≤◌, ◌-◌, ◌^◌, ◌||◌, None, Some, not, nat_le, length, List, ℕ, IfOk, IfErr, OnOk, OnErr, IsTrue};
ghost use Rattle.std.specs.Option.{option_map};
ghost use Rattle.record_defs.specs.Records.{is_name, largest_file};
ghost use Rattle.machine_defs.specs.Actions.{actions_left};
ghost use Rattle.machine_defs.specs.Begins.{refusal_of_begin, beginning};
ghost use Rattle.machine_defs.specs.Sights.{sight_of, is_shut};
ghost use Rattle.machine_defs.specs.Events.{AreBytes, IsSpelledKind};
ghost use Rattle.machine_defs.specs.Jobs.{Kind, PutJob};
ghost use Rattle.machine_defs.specs.Refusals as refusal;
ghost use Rattle.machine_defs.specs.Refusals.{Cause, first_refusal};
ghost use Rattle.machine_defs.specs.States.{State, setup_in};
ghost use Rattle.vault_table.specs.Values.{file_of_entry};
ghost use Rattle.vault_core.specs.Carried.{CoreIs, IsKindOf, refusal_of};
ghost use Rattle.vault_core.specs.Wished.{file_named, profile_named, IsShort};
ghost use Rattle.vault_open.specs.Devices.{Devices};
ghost use Rattle.vault.specs.AtHand.{hand_of, KeepsStreams};
ghost use Rattle.vault.specs.Running.{IsSameDesk};
ghost use Rattle.vault.specs.Desks.{DeskStands, DeskMakesBegin};
ghost use Rattle.vault.specs.Streams.{OpensStream};
ghost use Rattle.vault.specs.Tasks.{IsTask, IsStream};

use crate::desk::Desk;
use crate::tasks::{Running, StreamTask, Task};
use record_codec::Name;
use vault_core::{BeginFault, Wish};
use vault_table::Entry;

impl Desk {
    /// The name of these bytes, or why a put, a get or a drop of it does not begin.
    pub(crate) fn checked_name(&self, name: &[u8]) -> Result<Name, BeginFault>
        ensures named { IfOk result (λ n. n ≡ name.now) }
        ensures is_name { OnOk result (IsTrue (is_name name.now)) }
        ensures bytes { AreBytes name.now }
        ensures free { (w : State) (more : List Cause) → CoreIs self.now.core w → OnOk result (first_refusal (
            record { applies = w.is_barred; refusal = refusal.MustReopen }
            ∷ record { applies = is_shut (sight_of w) || nat_le 8 (length w.jobs); refusal = refusal.Busy } ∷ more)
            ≡ first_refusal more) }
        ensures refused { (w : State) (more : List Cause) → CoreIs self.now.core w
            → IfErr result (λ why. first_refusal (
            record { applies = w.is_barred; refusal = refusal.MustReopen }
            ∷ record { applies = is_shut (sight_of w) || nat_le 8 (length w.jobs); refusal = refusal.Busy }
            ∷ record { applies = not (is_name name.now); refusal = refusal.BadName } ∷ more)
            ≡ Some (refusal_of why)) }
    {
        if let Some(fault) = self.core.barred() {
            return Err(fault);
        }
        match Name::new(name) {
            Some(name) => Ok(name),
            None => Err(BeginFault::BadName),
        }
    }

    /// Takes a stream in with what it works with, where its begin is accepted. Condition: a number is left for
    /// the job.
    pub(crate) fn admit_stream(
        &mut self,
        name: Name,
        profile: Option<u8>,
        task: StreamTask,
    ) -> Result<u32, BeginFault>
        requires number { self.old.core.next_job < 2 ^ 32 - 1 }
        requires none_at_hand { task.at_hand ≡ None }
        ensures machine { (w : State) (d : Devices) (moment : ℕ) (bytes : List ℕ) → DeskStands self.old d w
            → IsSpelledKind (PutJob name bytes) → length bytes ≤ largest_file
            → (refusal_of_begin 8 w (PutJob name bytes) profile ≡ None
            → IsStream (setup_in w) task (beginning w moment (PutJob name bytes) profile))
            → DeskMakesBegin w moment (PutJob name bytes) profile result self.new d }
        ensures opens { OpensStream self.old self.new result }
    {
        if self.jobs.reserve(1).is_err() {
            drop(task);
            return Err(BeginFault::Memory);
        }
        match self.core.begin_stream(name, profile) {
            Ok(number) => {
                self.jobs.push_reserved(Running {
                    number,
                    task: Task::Stream(task),
                });
                Ok(number)
            }
            Err(why) => {
                drop(task);
                Err(why)
            }
        }
    }

    /// Takes a job in with what it works with, where its begin is accepted. Conditions: a number is left for
    /// the job, a put has at most 2^22 bytes, the file is the one that the core finds, and the job is no
    /// stream.
    pub(crate) fn admit(
        &mut self,
        wish: Wish,
        file: Option<Entry>,
        task: Task,
    ) -> Result<u32, BeginFault>
        requires number { self.old.core.next_job < 2 ^ 32 - 1 }
        requires size { IsShort wish }
        requires file { option_map file_of_entry file ≡ file_named self.old.core.table wish }
        requires none_at_hand { hand_of task ≡ None }
        ensures machine { (w : State) (d : Devices) (moment : ℕ) (kind : Kind) → DeskStands self.old d w
            → IsKindOf wish kind → IsSpelledKind kind
            → (refusal_of_begin 8 w kind (profile_named wish) ≡ None
            → IsTask (setup_in w) (beginning w moment kind (profile_named wish))
            (actions_left (setup_in w) (beginning w moment kind (profile_named wish))) task)
            → DeskMakesBegin w moment kind (profile_named wish) result self.new d }
        ensures unchanged { OnErr result (IsSameDesk self.old self.new) }
        ensures streams { OnOk result (KeepsStreams self.old.core self.new.core) }
    {
        if self.jobs.reserve(1).is_err() {
            drop(task);
            return Err(BeginFault::Memory);
        }
        match self.core.begin(wish, file) {
            Ok(number) => {
                self.jobs.push_reserved(Running { number, task });
                Ok(number)
            }
            Err(why) => {
                drop(task);
                Err(why)
            }
        }
    }
}
