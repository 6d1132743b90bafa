//! Streams: puts that are given their files stripe by stripe.
ghost use Rattle.std.specs.Prelude.{◌≡◌, ◌≢◌, ◌<◌, ◌≤◌, ◌-◌, ◌^◌, ℕ, None, Some, true, length, map, is_some, slice_get, IfOk};
ghost use Rattle.record_defs.specs.Records.{Setup as SetupData};
ghost use Rattle.machine_defs.specs.Jobs.{Job as MachineJob, job_of};
ghost use Rattle.machine_defs.specs.States.{State, ended};
ghost use Rattle.vault_core.specs.Carried.{CoreIs};
ghost use Rattle.vault_core.specs.Changes.{BeginsAs, IsPutUnder, IsMoreOf};
ghost use Rattle.vault_core.specs.Coming.{most_of};
ghost use Rattle.vault_core.specs.Streams.{stripe_size, IsToldAs, IsGivenLength, closed, given_more, IsStreamAt, MayClose};
ghost use Rattle.vault_core.specs.Cut.{of_length, of_turns, cut_tasks, cursor_behind, steps_behind};
ghost use Rattle.vault_core.specs.Fed.{with_at};
ghost use Rattle.vault_core.specs.View.{CoreJob, job_in, told_in, wanted_at, wants_in};

use crate::cursor::{Cursor, Move, Spot};
use crate::job::{Job, Task};
use crate::made::stripes;
use crate::own::Core;
use crate::pinned::Pinned;
use crate::wish::{BeginFault, Wish};
use record_codec::{Name, Setup};
use record_defs::LARGEST_FILE;

/// The wish of a put whose file has so many bytes.
fn of_length(wish: Wish, length: u32) -> Wish
    ensures { result ≡ of_length length wish }
{
    match wish {
        Wish::Put { name, profile, .. } => Wish::Put {
            name,
            length,
            profile,
        },
        other => other,
    }
}

/// Cuts the tasks of a put, its one task, to so many stripes.
fn cut(tasks: &mut Vec<Task>, stripes: u32)
    ensures { tasks.new.items ≡ cut_tasks stripes tasks.old.items }
{
    if stripes == 0 {
        tasks.clear();
    } else {
        cut_each(tasks, stripes);
    }
}

/// Gives each task so many stripes.
fn cut_each(tasks: &mut [Task], stripes: u32)
    ensures { tasks.new ≡ map (of_turns stripes) tasks.old }
{
    for task in tasks.iter_mut() {
        task.turns = stripes;
    }
}

/// The cursor of a put of so many stripes behind its first ones.
fn cursor_behind(object: u64, given: u32, stripes: u32) -> Cursor
    ensures { result ≡ cursor_behind object given stripes }
{
    if given < stripes {
        return Cursor::Calling {
            spot: Spot {
                object,
                turn: given,
                turns: stripes,
                behind: 1,
            },
            provider: 0,
        };
    }
    Cursor::Closing { at: Move::Body }
}

/// How many steps remain of a put of so many stripes behind its first ones.
fn steps_behind(given: u32, stripes: u32, providers: u8) -> u64
    ensures { result ≡ steps_behind providers given stripes }
{
    let providers = u64::from(providers);
    u64::from(stripes.saturating_sub(given)) * providers + 5 + providers
}

impl Job {
    /// The stripe that an open stream waits for.
    fn wanted(&self, providers: u8) -> Option<u32>
        ensures { (s : SetupData) → s.n ≡ providers → result ≡ wanted_at s self.now.place self.now.told }
    {
        match self.told {
            Some(stripes) => {
                if self.place == 4 + u64::from(stripes) * u64::from(providers) {
                    return Some(stripes);
                }
                None
            }
            None => None,
        }
    }

    /// A stream that was given so many stripes is told that its file has so many bytes, in so many stripes.
    fn close(&mut self, given: u32, length: u32, stripes: u32, providers: u8)
        ensures tasks { self.new.tasks.items ≡ cut_tasks stripes self.old.tasks.items }
        ensures same { self.new ≡ record self.old {
          wish = of_length length self.old.wish;
          tasks = self.new.tasks;
          cursor = cursor_behind self.old.subject given stripes;
          left = steps_behind providers given stripes;
          told = None;
        } }
    {
        self.wish = of_length(self.wish, length);
        cut(&mut self.tasks, stripes);
        self.cursor = cursor_behind(self.subject, given, stripes);
        self.left = steps_behind(given, stripes, providers);
        self.told = None;
    }
}

impl Core {
    /// Begins a put that is given its file stripe by stripe, or says why not, and then nothing changes. It
    /// stands for every put of this name whose file has at most 2^22 bytes. Condition: a number is left for
    /// the job.
    pub fn begin_stream(&mut self, name: Name, profile: Option<u8>) -> Result<u32, BeginFault>
        requires { self.old.next_job < 2 ^ 32 - 1 }
        ensures begins { BeginsAs self.old (IsPutUnder name) profile result self.new }
        ensures open { IfOk result (λ job. told_in self.new.jobs job ≡ Some 0) }
        ensures others { (other : ℕ) → other ≢ self.old.next_job
            → told_in self.new.jobs other ≡ told_in self.old.jobs other }
    {
        self.start_job(
            Wish::Put {
                name,
                length: LARGEST_FILE,
                profile,
            },
            None,
            Some(0),
        )
    }

    /// The stripe that a stream waits for: its first append is done, its last piece was not given, and each
    /// stripe given so far is stored. None for every other job, and where no such job runs.
    pub fn wants(&self, job: u32) -> Option<u32>
        ensures { result ≡ wants_in self.now job }
    {
        match self.find(job) {
            Some(running) => running.wanted(self.setup.n),
            None => None,
        }
    }

    /// Tells a stream how many bytes its file has so far, with a whole stripe more; or how many it has, with
    /// its last piece of at most a stripe. Conditions: the stream waits for a stripe, and the length is one
    /// that may be told, at most 2^22.
    pub fn given(&mut self, job: u32, length: u32, last: bool)
        requires length { (j : CoreJob) → job_in self.old.jobs job ≡ Some j
            → IsGivenLength (stripe_size self.old.setup j.plan.profile) (wants_in self.old job) length last }
        requires wants { is_some (wants_in self.old job) ≡ true }
        ensures { IsMoreOf self.old job length last self.new }
    {
        let (place, stripes) = self.waiting(job);
        if last {
            self.close(place, stripes, length);
        } else {
            self.tell(place, stripes + 1);
        }
    }

    /// Ends a stream. What it has brought into effect stays, under a number that is never used again.
    /// Condition: the stream waits for a stripe.
    pub fn abandon(&mut self, job: u32)
        requires { is_some (wants_in self.old job) ≡ true }
        ensures stands { (w : State) (j : MachineJob) → CoreIs self.old w → job_of w.jobs job ≡ Some j
            → CoreIs self.new (ended w j) }
        ensures ended { job_in self.new.jobs job ≡ None }
        ensures others { (other : ℕ) → other ≢ job → job_in self.new.jobs other ≡ job_in self.old.jobs other }
        ensures kept { self.new ≡ record self.old { jobs = self.new.jobs } }
    {
        let (place, _) = self.waiting(job);
        let _ = self.jobs.remove(place);
    }

    /// The place of a stream that waits for a stripe, and which one. Condition: it waits.
    fn waiting(&self, job: u32) -> (usize, u32)
        requires { is_some (wants_in self.now job) ≡ true }
        ensures { IsStreamAt self.now job result.0 result.1 }
    {
        let Some(place) = self.place_of(job) else {
            unreachable!();
        };
        let Some(stripes) = self.jobs[place].told else {
            unreachable!();
        };
        (place, stripes)
    }

    /// The stream at a place was given so many stripes.
    fn tell(&mut self, place: usize, stripes: u32)
        requires within { place < length self.old.jobs }
        requires told { (j : CoreJob) → slice_get self.old.jobs place ≡ Some j
            → IsToldAs self.old.setup j (Some stripes) }
        ensures { (j : CoreJob) → slice_get self.old.jobs place ≡ Some j
            → self.new ≡ with_at self.old place (given_more stripes j) }
    {
        let job = &mut self.jobs[place];
        job.told = Some(stripes);
    }

    /// The stream at a place, which was given so many stripes, has a file of so many bytes.
    fn close(&mut self, place: usize, given: u32, size: u32)
        requires within { place < length self.old.jobs }
        requires ends { (j : CoreJob) → slice_get self.old.jobs place ≡ Some j
            → MayClose self.old.setup j given size }
        ensures moved { (j : CoreJob) → slice_get self.old.jobs place ≡ Some j
            → self.new ≡ with_at self.old place (closed size j) }
        ensures left { (j : CoreJob) → slice_get self.old.jobs place ≡ Some j
            → most_of self.old.setup (closed size j) ≤ most_of self.old.setup j }
    {
        let setup = self.setup;
        let job = &mut self.jobs[place];
        let file = Pinned {
            id: job.subject,
            length: size,
            profile: job.profile,
        };
        let stripes = stripes(&setup, &file);
        job.close(given, size, stripes, setup.n);
    }
}
