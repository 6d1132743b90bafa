ghost use Rattle.std.specs.Prelude.{◌≡◌, ◌<◌, ◌==◌, ℕ, List, None, Some, true, length, slice_get, position};
ghost use Rattle.std.specs.Option.{option_map};
ghost use Rattle.std.specs.List.{list_any};
ghost use Rattle.vault_core.specs.declared.pinned.Pinned.{Pinned as PinnedFile};
ghost use Rattle.vault_core.specs.declared.job.Job.{Job as JobValue};
ghost use Rattle.record_defs.specs.Records.{Record as EntryData};
ghost use Rattle.record_defs.specs.Acceptance.{refused};
ghost use Rattle.machine_defs.specs.Actions.{WriteBody, SyncGate};
ghost use Rattle.record_codec.specs.Entries.{counted, IsPadded};
ghost use Rattle.vault_table.specs.Values.{file_of_entry, IsFoldOf};
ghost use Rattle.vault_core.specs.View.{CoreJob, job_in, told_in, wanted_by, wants_in, HasNoStream};
ghost use Rattle.vault_core.specs.Coming.{TakesReply, core_left, written_by};
ghost use Rattle.vault_core.specs.Wished.{aim_of_wish};
ghost use Rattle.vault_core.specs.Going.{listed_older};
ghost use Rattle.vault_core.specs.Fed.{first_at, goes_plainly, ended_at, barred_at, stepped_job, with_at, judged, number_as, number_drawn, drawn, is_pinned_in, removable_in, taken_as, HasGated};
ghost use Rattle.vault_core.specs.Changes.{GoesOnBy};

use crate::action::Action;
use crate::job::Job;
use crate::own::Core;
use crate::reply::Reply;
use crate::wish::Wish;
use record_codec::Counts;
use vault_table::Entry;

/// The place of the job of a number.
fn place_in(jobs: &[Job], job: u32) -> Option<usize>
    ensures { result ≡ position (λ (j : JobValue). j.number == job) jobs.now }
{
    jobs.iter().position(|running| running.number == job)
}

/// One of these jobs has pinned an object.
fn pin(jobs: &[Job], object: u64) -> bool
    ensures { result ≡ list_any (λ (j : JobValue). list_any (λ (file : PinnedFile). file.id == object)
        j.pinned.items) jobs.now }
{
    jobs.iter().any(|job| job.pins(object))
}

impl Core {
    /// Goes on by what came of a job's next action. Conditions: `next` gave an action, the reply is one that
    /// it has, and the job is no stream that waits for a stripe.
    pub fn feed(&mut self, job: u32, reply: Reply)
        requires reply { TakesReply self.old job reply }
        requires given { wants_in self.old job ≡ None }
        ensures { GoesOnBy self.old job reply self.new }
    {
        let Some(place) = self.place_of(job) else {
            return;
        };
        let action = self.jobs[place].action_over(&self.table);
        match reply {
            Reply::Done => match action {
                Action::WriteBody => self.begin_append(place),
                Action::SyncGate => self.end_append(place),
                Action::End => self.stop(place),
                _ => self.advance(place),
            },
            Reply::Failed => match action {
                Action::Store { .. } => self.stop(place),
                _ => self.fail(place),
            },
            Reply::Memory => self.stop(place),
            Reply::Lost { .. } => self.stop(place),
            Reply::Verdict { undecided, counts } => self.judge(place, undecided, counts),
        }
    }

    /// The place of a job among the running ones.
    pub(crate) fn place_of(&self, job: u32) -> Option<usize>
        ensures { result ≡ position (λ (j : CoreJob). j.number == job) self.now.jobs }
    {
        place_in(&self.jobs, job)
    }

    /// Ends the job at a place. Its append, if it is in one, is given up.
    fn stop(&mut self, place: usize)
        requires { place < length self.old.jobs }
        ensures { self.new ≡ ended_at self.old place }
    {
        let job = self.jobs.remove(place);
        if self.append == Some(job.number) {
            self.append = None;
        }
    }

    /// Ends the job at a place by a disk call that failed: no job goes on.
    fn fail(&mut self, place: usize)
        requires { place < length self.old.jobs }
        ensures { self.new ≡ barred_at self.old place }
    {
        let _ = self.jobs.remove(place);
        self.append = None;
        self.barred = true;
    }

    /// The job at a place has made its next action.
    fn advance(&mut self, place: usize)
        requires plain { goes_plainly (first_at self.old place) ≡ true }
        requires given { wanted_by self.old.setup (slice_get self.old.jobs place) ≡ None }
        ensures moved { (j : CoreJob) → slice_get self.old.jobs place ≡ Some j
            → self.new ≡ with_at self.old place (stepped_job j) }
        ensures falls { (j : CoreJob) → slice_get self.old.jobs place ≡ Some j
            → core_left self.new j.number < core_left self.old j.number }
    {
        let providers = self.setup.n as u32;
        let job = &mut self.jobs[place];
        job.advance(providers);
    }

    /// The audit at a place has made its last ask, with these sums.
    fn judge(&mut self, place: usize, undecided: u32, counts: Counts)
        requires plain { goes_plainly (first_at self.old place) ≡ true }
        requires counts { counts.n ≡ self.old.setup.n }
        requires padded { IsPadded counts }
        requires given { wanted_by self.old.setup (slice_get self.old.jobs place) ≡ None }
        ensures moved { (j : CoreJob) → slice_get self.old.jobs place ≡ Some j →
            self.new ≡ with_at self.old place
            (judged j (record { counts = counted counts; undecided = undecided })) }
        ensures falls { (j : CoreJob) → slice_get self.old.jobs place ≡ Some j
            → core_left self.new j.number < core_left self.old j.number }
    {
        let providers = self.setup.n as u32;
        let job = &mut self.jobs[place];
        job.undecided = undecided;
        job.counts = counts;
        job.advance(providers);
    }

    /// The number that a job's append draws, or has drawn.
    fn number(&self, job: &Job) -> u64
        ensures { result
            ≡ number_as self.now.table job.now.appends job.now.subject (aim_of_wish job.now.wish) }
    {
        let first = job.appends == 2;
        match job.wish {
            Wish::Put { .. } if first => self.table.next_id(),
            Wish::Audit if first => self.table.next_audit(),
            _ => job.subject,
        }
    }

    /// The append of the job at a place has begun: it draws its number.
    fn begin_append(&mut self, place: usize)
        requires begins { first_at self.old place ≡ Some WriteBody }
        requires given { wanted_by self.old.setup (slice_get self.old.jobs place) ≡ None }
        ensures moved { (j : CoreJob) → slice_get self.old.jobs place ≡ Some j →
            self.new ≡ record (with_at self.old place
            (drawn j (number_drawn self.old.setup self.old.table j))) { append = Some j.number } }
        ensures falls { (j : CoreJob) → slice_get self.old.jobs place ≡ Some j
            → core_left self.new j.number < core_left self.old j.number }
    {
        let number = self.number(&self.jobs[place]);
        let providers = self.setup.n as u32;
        let job = &mut self.jobs[place];
        job.draw(number);
        job.advance(providers);
        self.append = Some(job.number);
    }

    /// A running job has pinned an object.
    fn is_pinned(&self, object: u64) -> bool
        ensures { result ≡ is_pinned_in self.now.jobs object }
    {
        pin(&self.jobs, object)
    }

    /// The object of a file, unless there is none or it is pinned.
    fn removable(&self, file: Option<Entry>) -> Option<u64>
        ensures { listed_older result ≡ removable_in self.now.jobs (option_map file_of_entry file) }
    {
        match file {
            Some(file) => {
                if self.is_pinned(file.id) {
                    return None;
                }
                Some(file.id)
            }
            None => None,
        }
    }

    /// The object that a put or a drop takes out of effect, unless there is none or it is pinned.
    fn older(&self, job: &Job) -> Option<u64>
        ensures { listed_older result
            ≡ taken_as self.now.table self.now.jobs job.now.appends (aim_of_wish job.now.wish) }
    {
        let first = job.appends == 2;
        match &job.wish {
            Wish::Put { .. } if first => None,
            Wish::Put { name, .. } => self.removable(self.table.find(name)),
            Wish::Drop { name } => self.removable(self.table.find(name)),
            _ => None,
        }
    }

    /// The append of the job at a place is done: its record is in effect.
    fn end_append(&mut self, place: usize)
        requires gate { first_at self.old place ≡ Some SyncGate }
        requires given { wanted_by self.old.setup (slice_get self.old.jobs place) ≡ None }
        ensures gated { (j : CoreJob) (entry : EntryData) (rs : List EntryData)
            → slice_get self.old.jobs place ≡ Some j →
            written_by self.old.setup self.old.table j ≡ Some entry → IsFoldOf rs self.old.table
            → refused rs entry ≡ None →
            HasGated self.old place j entry rs self.new }
        ensures streams { HasNoStream self.old → HasNoStream self.new }
        ensures told { (number : ℕ) (j : CoreJob) → job_in self.new.jobs number ≡ Some j
            → j.told ≡ told_in self.old.jobs number }
        ensures falls { (j : CoreJob) → slice_get self.old.jobs place ≡ Some j
            → core_left self.new j.number < core_left self.old j.number }
        ensures setup { self.new.setup ≡ self.old.setup }
    {
        let Some(entry) = self.jobs[place].record(&self.table) else {
            return;
        };
        let older = self.older(&self.jobs[place]);
        if self.table.apply(&entry).is_err() {
            self.fail(place);
            return;
        }
        self.end += 1 + entry.size() as u64;
        self.append = None;
        let providers = self.setup.n as u32;
        let job = &mut self.jobs[place];
        job.finish(older, providers);
    }
}
