ghost use Rattle.std.specs.Prelude.{◌≡◌, ◌<◌, ◌≤◌, ◌+◌, ◌-◌, ◌^◌, ◌∷◌, ◌++◌, [], ℕ, length, sum_by, None, Some, OnOk, OnErr, IfErr, IfOk};
ghost use Rattle.std.specs.Option.{option_map};
ghost use Rattle.vault_table.specs.Values.{file_of_entry};
ghost use Rattle.vault_core.specs.declared.wish.BeginFault.TheVariants as fault;
ghost use Rattle.vault_core.specs.Carried.{IsKindOf, IsShortKindOf};
ghost use Rattle.vault_core.specs.Changes.{BeginsAs};
ghost use Rattle.record_defs.specs.Records.{largest_journal};
ghost use Rattle.vault_core.specs.Parts.{core_job, IsJobKept, MayBegin};
ghost use Rattle.vault_core.specs.Streams.{IsTold};
ghost use Rattle.vault_core.specs.Reserves.{reserved_of};
ghost use Rattle.vault_core.specs.View.{HasLoneUpgrade, told_in, HasNoStream};
ghost use Rattle.vault_core.specs.Wished.{file_named, profile_named, IsShort};
ghost use Rattle.vault_core.specs.Making.{starts_for, admitted, AreMore};

use crate::job::Job;
use crate::made::make_job;
use crate::own::Core;
use crate::wish::{BeginFault, Wish};
use stream_model::Memory;
use vault_table::{Entry, Table};

impl Core {
    /// Begins a job, or says why not, and then nothing changes. Conditions: a number is left for the job, a
    /// put has at most 2^22 bytes, and the file is the one that `file_named` finds.
    pub fn begin(&mut self, wish: Wish, file: Option<Entry>) -> Result<u32, BeginFault>
        requires number { self.old.next_job < 2 ^ 32 - 1 }
        requires size { IsShort wish }
        requires file { option_map file_of_entry file ≡ file_named self.old.table wish }
        ensures begins { BeginsAs self.old (IsKindOf wish) (profile_named wish) result self.new }
        ensures streams { HasNoStream self.old → HasNoStream self.new }
        ensures told { (number : ℕ) → told_in self.new.jobs number ≡ told_in self.old.jobs number }
    {
        self.start_job(wish, file, None)
    }

    /// Begins a job, or a stream that stands for each put of its name of at most 2^22 bytes.
    pub(crate) fn start_job(
        &mut self,
        wish: Wish,
        file: Option<Entry>,
        told: Option<u32>,
    ) -> Result<u32, BeginFault>
        requires number { self.old.next_job < 2 ^ 32 - 1 }
        requires size { IsShort wish }
        requires file { option_map file_of_entry file ≡ file_named self.old.table wish }
        requires told { MayBegin told wish }
        ensures begins { BeginsAs self.old (IsShortKindOf told wish) (profile_named wish) result self.new }
        ensures jobs { OnOk result (AreMore told self.old self.new) }
    {
        if let Some(fault) = self.refusal(&wish, &file) {
            return Err(fault);
        }
        match make_job(
            self.alloc,
            &self.table,
            &self.setup,
            wish,
            file,
            told,
            self.next_job,
        ) {
            Ok(job) => self.admit(job),
            Err(_) => Err(BeginFault::Memory),
        }
    }

    /// Takes a new job in.
    fn admit(&mut self, job: Job) -> Result<u32, BeginFault>
        requires number { self.old.next_job < 2 ^ 32 - 1 }
        requires few { length self.old.jobs < 8 }
        requires next { job.number ≡ self.old.next_job }
        requires kept { IsJobKept self.old.setup job }
        requires room { self.old.end + sum_by (reserved_of self.old.table.version self.old.setup)
            self.old.jobs
            + reserved_of self.old.table.version self.old.setup (core_job job) ≤ largest_journal }
        requires lone { HasLoneUpgrade (self.old.jobs ++ core_job job ∷ []) }
        requires told { IsTold self.old.setup (core_job job) }
        ensures admitted { OnOk result (self.new ≡ admitted self.old job.wish job) }
        ensures number { IfOk result (λ number. number ≡ self.old.next_job) }
        ensures memory { IfErr result (λ why. why ≡ fault.Memory) }
        ensures unchanged { OnErr result (self.new ≡ self.old) }
        ensures setup { self.new.setup ≡ self.old.setup }
    {
        if self.jobs.reserve(1).is_err() {
            return Err(BeginFault::Memory);
        }
        if reserve_start(&mut self.table, &job.wish).is_err() {
            return Err(BeginFault::Memory);
        }
        self.jobs.push_reserved(job);
        let number = self.next_job;
        self.next_job += 1;
        Ok(number)
    }
}

/// Makes room in a table for the PutStart of a put.
fn reserve_start(table: &mut Table, wish: &Wish) -> Result<(), Memory>
    ensures ok { OnOk result
        (table.new ≡ record table.old { spare = table.old.spare + starts_for wish.now }) }
    ensures err { OnErr result (table.new ≡ table.old) }
{
    match wish {
        Wish::Put { .. } => table.reserve_start(),
        _ => Ok(()),
    }
}
