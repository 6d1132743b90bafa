ghost use Rattle.std.specs.Prelude.{◌≡◌, ◌+◌, ◌<◌, ◌≤◌, ◌||◌, ℕ, Option, None, Some, length, IsTrue, true, false, IfSome, IsSome, if◌then◌else◌, nat_le, ◌∷◌, []};
ghost use Rattle.std.specs.Option.{option_map};
ghost use Rattle.record_defs.specs.Records.{record_size, largest_journal};
ghost use Rattle.machine_defs.specs.Jobs.{job_of};
ghost use Rattle.machine_defs.specs.Actions.{WriteBody};
ghost use Rattle.vault_table.specs.Values.{setup_of_pair, file_of_entry};
ghost use Rattle.machine_defs.specs.States.{State, setup_in};
ghost use Rattle.machine_defs.specs.Left.{most_left};
ghost use Rattle.machine_defs.specs.Sights.{sight_of, is_shut};
ghost use Rattle.machine_defs.specs.Refusals as refusal;
ghost use Rattle.machine_defs.specs.Refusals.{first_refusal};
ghost use Rattle.column_defs.specs.Verdicts.{Sums};
ghost use Rattle.record_codec.specs.Entries.{entry_of, counted, IsInGrammar, IsPadded};
ghost use Rattle.vault_core.specs.View.{job_in, CoreJob, wants_in, is_open_stream};
ghost use Rattle.vault_core.specs.Coming.{seen_next, waits_or_acts, next_in, left_in, entry_in, is_last_ask_of, called_provider, calls_disk};
ghost use Rattle.vault_core.specs.Reserves.{Reserves};
ghost use Rattle.vault_core.specs.Parts.{core_job, IsJobKept};
ghost use Rattle.vault_core.specs.Carried.{CoreIs, refusal_of, IsNextOf, IsEntryOf};
ghost use Rattle.vault_core.specs.Wished.{aim_of_wish, file_named, profile_named};

use crate::action::{Action, Next};
use crate::job::Job;
use crate::own::Core;
use crate::pinned::Pinned;
use crate::refusal::some_upgrade;
use crate::wish::{BeginFault, Wish};
use key_schedule::Master;
use record_codec::{Counts, Record, Setup};
use vault_table::{Entry, Table};

/// How many jobs run at a time.
pub const MOST_JOBS: usize = 8;

impl Core {
    /// The length of the journal's text with all appends that are done, its closed gate included.
    pub fn end(&self) -> u64
        ensures value { result ≡ self.now.end }
        ensures least { 9 ≤ result }
    {
        self.end
    }

    /// The number that the next accepted begin gets.
    pub fn next_job(&self) -> u32
        ensures { result ≡ self.now.next_job }
    {
        self.next_job
    }

    /// How many jobs run.
    pub fn running(&self) -> u32
        ensures value { result ≡ length self.now.jobs }
        ensures few { result ≤ 8 }
    {
        self.jobs.len() as u32
    }

    /// The setup and its master key.
    pub fn setup(&self) -> (Setup, Master)
        ensures { setup_of_pair result ≡ self.now.setup }
    {
        (self.setup, self.master)
    }

    /// The table of the journal that the disk holds.
    pub fn table(&self) -> &Table
        ensures { result.now ≡ self.now.table }
    {
        &self.table
    }

    /// The file in effect under the name of a get or a drop; None of any other wish.
    pub fn file_named(&self, wish: &Wish) -> Option<Entry>
        ensures { option_map file_of_entry result ≡ file_named self.now.table wish.now }
    {
        match wish {
            Wish::Get { name } | Wish::Drop { name } => self.table.find(name),
            _ => None,
        }
    }

    /// Why the begin of a put, a get or a drop would be refused before its words are looked at: `MustReopen`
    /// or `Busy`.
    pub fn barred(&self) -> Option<BeginFault>
        ensures { (w : State) → CoreIs self.now w → option_map refusal_of result ≡ first_refusal (
            record { applies = w.is_barred; refusal = refusal.MustReopen }
            ∷ record { applies = is_shut (sight_of w) || nat_le 8 (length w.jobs); refusal = refusal.Busy }
            ∷ []) }
    {
        if self.barred {
            return Some(BeginFault::MustReopen);
        }
        if some_upgrade(&self.jobs) {
            return Some(BeginFault::Busy);
        }
        if self.running() as usize >= MOST_JOBS {
            return Some(BeginFault::Busy);
        }
        None
    }

    /// The running job of a number.
    pub(crate) fn find(&self, job: u32) -> Option<&Job>
        ensures found { option_map (λ x. core_job x.now) result ≡ job_in self.now.jobs job }
        ensures kept { IfSome result (λ x. IsJobKept self.now.setup x.now) }
        ensures providers { (4 ≤ self.now.setup.n) × (self.now.setup.n ≤ 16) }
        ensures reserves { Reserves self.now }
    {
        match self.place_of(job) {
            Some(place) => Some(&self.jobs[place]),
            None => None,
        }
    }

    /// The first move of an append, unless another one is in flight.
    fn start(&self) -> Next
        ensures value { seen_next result ≡ waits_or_acts self.now.append (Some WriteBody) }
        ensures alone { called_provider (seen_next result) ≡ None }
    {
        match self.append {
            Some(holder) => Next::Waiting { holder },
            None => Next::Act(Action::WriteBody),
        }
    }

    /// What comes next for a job, read off the core alone.
    fn coming(&self, job: u32) -> Next
        ensures value { seen_next result ≡ next_in self.now job }
        ensures within { (j : ℕ) → called_provider (seen_next result) ≡ Some j → j < self.now.setup.n }
    {
        if self.barred {
            return Next::MustReopen;
        }
        let Some(running) = self.find(job) else {
            return Next::NoSuchJob;
        };
        match running.action_over(&self.table) {
            Action::WriteBody => self.start(),
            action => Next::Act(action),
        }
    }

    /// What comes next for a job. Condition: it is no stream that waits for a stripe.
    pub fn next(&self, job: u32) -> Next
        requires { wants_in self.now job ≡ None }
        ensures value { seen_next result ≡ next_in self.now job }
        ensures within { (j : ℕ) → called_provider (next_in self.now job) ≡ Some j → j < self.now.setup.n }
        ensures machine { (w : State) → CoreIs self.now w → IsNextOf w job result }
    {
        self.coming(job)
    }

    /// How many steps of a job may remain at most if nothing fails: a removal from each provider counts until
    /// it is decided, and an open stream counts as a put of 2^22 bytes. None exactly where no running job has
    /// the number.
    pub fn left(&self, job: u32) -> Option<u64>
        ensures value { result ≡ left_in self.now job }
        ensures machine { (w : State) → CoreIs self.now w → is_open_stream (job_in self.now.jobs job) ≡ false
            → result ≡ option_map (most_left (setup_in w)) (job_of w.jobs job) }
        ensures some { IfSome result (λ left. 0 < left) }
    {
        match self.find(job) {
            Some(running) => Some(running.left),
            None => None,
        }
    }

    /// The record that the job's current append writes, read off the core alone.
    fn writing(&self, job: u32) -> Option<Record>
        ensures value { option_map entry_of result ≡ entry_in self.now job }
        ensures there { calls_disk (next_in self.now job) ≡ true → IsSome result }
        ensures in_grammar { IfSome result (λ entry. IsInGrammar entry) }
        ensures room { IfSome result (λ entry. self.now.end + (1 + record_size (entry_of entry)) ≤ largest_journal) }
    {
        let running = self.find(job)?;
        running.entry_over(&self.table)
    }

    /// The record that the job's current append writes; None outside an append.
    pub fn entry(&self, job: u32) -> Option<Record>
        ensures value { option_map entry_of result ≡ entry_in self.now job }
        ensures there { calls_disk (next_in self.now job) ≡ true → IsSome result }
        ensures machine { (w : State) → CoreIs self.now w → wants_in self.now job ≡ None
            → IsEntryOf w job (option_map entry_of result) }
        ensures in_grammar { IfSome result (λ entry. IsInGrammar entry) }
        ensures room { IfSome result (λ entry. self.now.end + (1 + record_size (entry_of entry)) ≤ largest_journal) }
    {
        self.writing(job)
    }

    /// Whether the job's next action is the last ask of an audit, to which the reply is a verdict.
    pub fn is_last_ask(&self, job: u32) -> bool
        ensures { result ≡ is_last_ask_of self.now.setup (job_in self.now.jobs job) }
    {
        match self.find(job) {
            Some(running) => running.is_last_ask(self.setup.n as u32),
            None => false,
        }
    }

    /// What a running job is for.
    pub fn wish(&self, job: u32) -> Option<Wish>
        ensures aim { option_map aim_of_wish result
            ≡ option_map (λ (j : CoreJob). j.plan.aim) (job_in self.now.jobs job) }
        ensures own { IfSome result (λ wish. (p : ℕ) → profile_named wish ≡ Some p
            → option_map (λ (j : CoreJob). j.plan.profile) (job_in self.now.jobs job) ≡ Some p) }
    {
        match self.find(job) {
            Some(running) => Some(running.wish),
            None => None,
        }
    }

    /// The object number of a running put, or the number of an audit or a repair; 0 until it is drawn.
    pub fn subject(&self, job: u32) -> Option<u64>
        ensures { result ≡ option_map (λ (j : CoreJob). j.plan.subject) (job_in self.now.jobs job) }
    {
        match self.find(job) {
            Some(running) => Some(running.subject),
            None => None,
        }
    }

    /// The files that a running job works on, in ascending order of their object numbers.
    pub fn pinned(&self, job: u32) -> Option<&[Pinned]>
        ensures { option_map (λ x. x.now) result
            ≡ option_map (λ (j : CoreJob). j.plan.pins) (job_in self.now.jobs job) }
    {
        match self.find(job) {
            Some(running) => Some(&running.pinned),
            None => None,
        }
    }

    /// The undecided rounds of a running audit, and its counts; zeros until its verdict.
    pub fn sums(&self, job: u32) -> Option<(u32, Counts)>
        ensures value { option_map (λ x. record { counts = counted x.1; undecided = x.0 }) result
            ≡ option_map (λ (j : CoreJob). j.sums) (job_in self.now.jobs job) }
        ensures padded { IfSome result (λ x. IsPadded x.1) }
    {
        match self.find(job) {
            Some(running) => Some((running.undecided, running.counts)),
            None => None,
        }
    }
}
