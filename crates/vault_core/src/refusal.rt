//! Why a job does not begin.
ghost use Rattle.std.specs.Prelude.{◌≡◌, ◌≤◌, ◌+◌, ℕ, Option, Some, None, if◌then◌else◌, length, sum_by, ◌∷◌};
ghost use Rattle.std.specs.Option.{option_map};
ghost use Rattle.std.specs.List.{list_any};
ghost use Rattle.machine_defs.specs.Jobs.{Kind, aim_of};
ghost use Rattle.machine_defs.specs.States.{State};
ghost use Rattle.machine_defs.specs.Begins.{refusal_of_begin};
ghost use Rattle.machine_defs.specs.Sights.{puts_name, is_check, is_put_or_check, is_upgrade, is_name_among, is_busy, is_crowded_for, is_full};
ghost use Rattle.vault_table.specs.Values.{file_of_entry};
ghost use Rattle.vault_core.specs.declared.job.Job.{Job as JobData};
ghost use Rattle.vault_core.specs.Carried.{CoreIs, IsAimOf, IsShortAim, refusal_of};
ghost use Rattle.vault_core.specs.Wished.{aim_of_wish, file_named, profile_named, HasName, IsShort};
ghost use Rattle.vault_core.specs.Reserves.{room_behind};
ghost use Rattle.vault_core.specs.Refusing.{sight_in, aims_kept, taken_names, refusal_in};

use crate::job::Job;
use crate::look::MOST_JOBS;
use crate::own::Core;
use crate::room::{reserved, sizes};
use crate::wish::{BeginFault, Wish};
use code_defs::PROFILES;
use record_codec::Name;
use record_defs::{LARGEST_JOURNAL, MOST_FILES};
use vault_table::{Entry, Table};

/// The largest number that a put or an audit draws.
pub const LARGEST_NUMBER: u64 = u64::MAX - 31;

/// A job is a put, an audit or a repair.
fn is_put_or_check(job: &Job) -> bool
    ensures { result ≡ is_put_or_check (aim_of_wish job.now.wish) }
{
    matches!(job.wish, Wish::Put { .. } | Wish::Audit | Wish::Repair)
}

/// A job is an audit or a repair.
fn is_check(job: &Job) -> bool
    ensures { result ≡ is_check (aim_of_wish job.now.wish) }
{
    matches!(job.wish, Wish::Audit | Wish::Repair)
}

/// A job is a put of this name.
fn puts(job: &Job, name: &Name) -> bool
    ensures { result ≡ puts_name name.now (aim_of_wish job.now.wish) }
{
    match &job.wish {
        Wish::Put { name: own, .. } => own.as_bytes() == name.as_bytes(),
        _ => false,
    }
}

/// One of these jobs is a put, an audit or a repair.
fn some_put_or_check(jobs: &[Job]) -> bool
    ensures { result ≡ list_any (λ (j : JobData). is_put_or_check (aim_of_wish j.wish)) jobs.now }
{
    jobs.iter().any(is_put_or_check)
}

/// One of these jobs is an audit or a repair.
fn some_check(jobs: &[Job]) -> bool
    ensures { result ≡ list_any (λ (j : JobData). is_check (aim_of_wish j.wish)) jobs.now }
{
    jobs.iter().any(is_check)
}

/// A job is an upgrade.
fn is_upgrade(job: &Job) -> bool
    ensures { result ≡ is_upgrade (aim_of_wish job.now.wish) }
{
    matches!(job.wish, Wish::Upgrade)
}

/// One of these jobs is an upgrade.
pub(crate) fn some_upgrade(jobs: &[Job]) -> bool
    ensures { result ≡ list_any (λ (j : JobData). is_upgrade (aim_of_wish j.wish)) jobs.now }
{
    jobs.iter().any(is_upgrade)
}

/// One of these jobs is a put of this name.
fn some_puts(jobs: &[Job], name: &Name) -> bool
    ensures { result ≡ list_any (λ (j : JobData). puts_name name.now (aim_of_wish j.wish)) jobs.now }
{
    jobs.iter().any(|job| puts(job, name))
}

/// A name is in effect, or one of these jobs puts it.
fn is_taken(table: &Table, jobs: &[Job], name: &Name) -> bool
    ensures { result ≡ is_name_among (taken_names table.now.files (aims_kept jobs.now)) name.now }
{
    some_puts(jobs, name) || table.find(name).is_some()
}

/// A job puts a name that is not in effect and that none of these jobs puts.
fn is_new(table: &Table, jobs: &[Job], job: &Job) -> bool
    ensures { length (taken_names table.now.files (aim_of_wish job.now.wish ∷ aims_kept jobs.now))
        ≡ (if result then 1 else 0) + length (taken_names table.now.files (aims_kept jobs.now)) }
{
    match &job.wish {
        Wish::Put { name, .. } => !is_taken(table, jobs, name),
        _ => false,
    }
}

/// How many names jobs put that are not in effect, each once.
fn names_beside(table: &Table, jobs: &[Job]) -> usize
    ensures value { length (taken_names table.now.files (aims_kept jobs.now))
        ≡ result + length table.now.files }
    ensures few { result ≤ length jobs.now }
{
    let mut count = 0;
    for place in 0..jobs.len() {
        if is_new(table, &jobs[place + 1..], &jobs[place]) {
            count += 1;
        }
    }
    count
}

/// The room that the records of jobs still need.
fn reserved_for(jobs: &[Job], providers: u8, version: u8) -> u64
    requires few { length jobs.now ≤ 8 }
    ensures value { result
        ≡ sum_by (λ (j : JobData). room_behind version providers j.wish j.appends) jobs.now }
    ensures bound { result ≤ 8360 }
{
    let mut room = 0;
    for job in jobs {
        room += reserved(job, providers, version);
    }
    room
}

/// A refusal where its cause applies, and else what comes behind it.
fn when(applies: bool, why: BeginFault, behind: Option<BeginFault>) -> Option<BeginFault>
    ensures { option_map refusal_of result
        ≡ (if applies then Some (refusal_of why) else option_map refusal_of behind) }
{
    if applies { Some(why) } else { behind }
}

/// The name of a wish is a name.
fn read_name(wish: &Wish)
    ensures { HasName wish.now }
{
    if let Wish::Put { name, .. } | Wish::Get { name } | Wish::Drop { name } = wish {
        let _bytes = name.as_bytes();
    }
}

impl Core {
    /// The running jobs leave no place for one of this wish.
    fn is_busy(&self, wish: &Wish) -> bool
        ensures { result ≡ is_busy 8 (sight_in self.now) (aim_of_wish wish.now) }
    {
        if some_upgrade(&self.jobs) {
            return true;
        }
        if self.jobs.len() >= MOST_JOBS {
            return true;
        }
        match wish {
            Wish::Audit => some_put_or_check(&self.jobs),
            Wish::Repair => some_check(&self.jobs),
            Wish::Upgrade => !self.jobs.is_empty(),
            _ => false,
        }
    }

    /// No further name fits in beside those in effect and those of running puts.
    fn is_crowded(&self, name: &Name) -> bool
        ensures { result ≡ is_crowded_for (sight_in self.now) name.now }
    {
        let beside = names_beside(&self.table, &self.jobs);
        self.table.count().saturating_add(beside) >= MOST_FILES
            && !is_taken(&self.table, &self.jobs, name)
    }

    /// The records of a job find no room, or its number would come too near the last one.
    fn is_full(&self, wish: &Wish) -> bool
        ensures { result ≡ is_full (sight_in self.now) (aim_of_wish wish.now) }
    {
        if let Wish::Get { .. } = wish {
            return false;
        }
        let version = self.table.version();
        let room = reserved_for(&self.jobs, self.setup.n, version);
        if self.end + room + sizes(wish, self.setup.n, version) > LARGEST_JOURNAL {
            return true;
        }
        match wish {
            Wish::Put { .. } => self.table.next_id() > LARGEST_NUMBER,
            Wish::Audit => self.table.next_audit() > LARGEST_NUMBER,
            _ => false,
        }
    }

    /// The first refusal that applies to a wish.
    fn first_refusal(&self, wish: &Wish, file: &Option<Entry>) -> Option<BeginFault>
        requires { option_map file_of_entry file.now ≡ file_named self.now.table wish.now }
        ensures { HasName wish.now → IsShort wish.now →
            option_map refusal_of result ≡ refusal_in self.now wish.now }
    {
        if self.barred {
            return Some(BeginFault::MustReopen);
        }
        if self.is_busy(wish) {
            return Some(BeginFault::Busy);
        }
        let full = when(self.is_full(wish), BeginFault::JournalFull, None);
        match wish {
            Wish::Put { name, profile, .. } => {
                let crowded = when(self.is_crowded(name), BeginFault::TooManyFiles, full);
                match *profile {
                    None => crowded,
                    Some(own) => {
                        let old = when(self.table.version() == 1, BeginFault::OldVersion, crowded);
                        when(own >= PROFILES, BeginFault::BadProfile, old)
                    }
                }
            }
            Wish::Get { .. } | Wish::Drop { .. } => {
                when(file.is_none(), BeginFault::NoSuchName, full)
            }
            Wish::Audit => when(self.table.due().is_some(), BeginFault::RepairDue, full),
            Wish::Repair => when(self.table.due().is_none(), BeginFault::NothingDue, full),
            Wish::Upgrade => when(self.table.version() == 2, BeginFault::NewVersion, full),
        }
    }

    /// The first refusal that applies to a wish, or to a stream, which is that of the machine.
    pub(crate) fn refusal(&self, wish: &Wish, file: &Option<Entry>) -> Option<BeginFault>
        requires { option_map file_of_entry file.now ≡ file_named self.now.table wish.now }
        ensures sight { IsShort wish.now → option_map refusal_of result ≡ refusal_in self.now wish.now }
        ensures machine { (told : Option ℕ) (w : State) (kind : Kind) → CoreIs self.now w
            → IsAimOf told wish.now kind → IsShort wish.now → IsShortAim (aim_of kind) →
            option_map refusal_of result ≡ refusal_of_begin 8 w kind (profile_named wish.now) }
    {
        read_name(wish);
        self.first_refusal(wish, file)
    }
}
