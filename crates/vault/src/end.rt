ghost use Rattle.std.specs.Prelude.{◌≡◌, ◌<◌, ℕ, [], None, Some, IsSome};
ghost use Rattle.machine_defs.specs.Actions.{End};
ghost use Rattle.machine_defs.specs.States.{State};
ghost use Rattle.std.specs.Option.{option_map};
ghost use Rattle.column_defs.specs.Verdicts.{Sums};
ghost use Rattle.record_codec.specs.Entries.{counted, IsPadded};
ghost use Rattle.vault_core.specs.Coming.{TakesReply};
ghost use Rattle.vault_core.specs.View.{job_in, wants_in, CoreJob};
ghost use Rattle.vault_open.specs.Devices.{Devices};
ghost use Rattle.vault.specs.Desks.{DeskStands, IsAtWork, Comes, DeskMakesStep};
ghost use Rattle.vault.specs.Ending.{answer_at_end};
ghost use Rattle.vault.specs.Outcomes.{IsNoAction};
ghost use Rattle.vault.specs.Running.{place_in, heard_of, IsStopped, RunsIn};
ghost use Rattle.vault.specs.Steps.{HasActed};

use crate::desk::Desk;
use crate::heard::{HeardList, Parts};
use crate::tasks::{AuditTask, GetTask, Running, Task};
use crate::turn::{Answer, Ended, Turn};
use record_codec::Counts;
use stream_model::Bytes;
use vault_core::Reply;

/// The place of a job among these.
fn find_place(jobs: &[Running], job: u32) -> Option<usize>
    ensures { result ≡ place_in jobs.now job }
{
    jobs.iter().position(|running| running.number == job)
}

impl Task {
    /// What the job heard.
    fn into_heard(self) -> HeardList
        ensures { result ≡ heard_of self }
    {
        match self {
            Task::Get(get) => get.into_heard(),
            Task::Audit(audit) => audit.into_heard(),
            other => {
                drop(other);
                HeardList::new()
            }
        }
    }
}

/// The end of a job that heard nothing.
fn quiet(answer: Answer) -> Ended
    ensures answer { result.answer ≡ answer }
    ensures heard { result.heard ≡ [] }
{
    Ended {
        answer,
        heard: HeardList::new(),
    }
}

impl AuditTask {
    ghost use Rattle.std.specs.Prelude.{◌≡◌};
    ghost use Rattle.vault.specs.declared.tasks.Task.TheVariants as task;
    ghost use Rattle.vault.specs.Running.{heard_of};

    /// What the asks gave.
    fn into_heard(self) -> HeardList
        ensures { result ≡ heard_of (task.Audit self) }
    {
        HeardList {
            parts: Parts::Answered(self.heard),
        }
    }
}

impl GetTask {
    ghost use Rattle.std.specs.Prelude.{◌≡◌, take};
    ghost use Rattle.vault.specs.declared.tasks.Task.TheVariants as task;
    ghost use Rattle.vault.specs.declared.turn.Answer.TheVariants as answer;
    ghost use Rattle.vault.specs.Running.{heard_of};

    /// What the fetches gave.
    fn into_heard(self) -> HeardList
        ensures { result ≡ heard_of (task.Get self) }
    {
        drop(self.bench);
        HeardList {
            parts: Parts::Fetched(self.fetched),
        }
    }

    /// The bytes of the file that were opened, and what was heard.
    fn into_end(self) -> Ended
        ensures answer { result.answer ≡ answer.Got (take self.length self.bytes.items) }
        ensures heard { result.heard ≡ heard_of (task.Get self) }
    {
        drop(self.bench);
        let mut bytes = self.bytes;
        bytes.truncate(self.length);
        Ended {
            answer: Answer::Got {
                bytes: Bytes::from_vec(bytes),
            },
            heard: HeardList {
                parts: Parts::Fetched(self.fetched),
            },
        }
    }
}

impl Task {
    /// The end of a job that made all its actions, with its number and its sums.
    fn into_end(self, number: u64, undecided: u32, counts: Counts) -> Ended
        ensures answer { result.answer ≡ answer_at_end self number undecided counts }
        ensures heard { result.heard ≡ heard_of self }
    {
        match self {
            Task::Put(put) => {
                drop(put);
                quiet(Answer::Put)
            }
            Task::Stream(stream) => {
                drop(stream);
                quiet(Answer::Put)
            }
            Task::Get(get) => get.into_end(),
            Task::Drop => quiet(Answer::Dropped),
            Task::Audit(audit) => Ended {
                answer: Answer::Audited {
                    number,
                    undecided,
                    counts,
                },
                heard: audit.into_heard(),
            },
            Task::Repair(repair) => {
                drop(repair);
                quiet(Answer::Repaired { number })
            }
            Task::Upgrade => quiet(Answer::Upgraded),
        }
    }
}

impl Desk {
    /// The place of a job among those that the desk works on.
    pub fn place_of(&self, job: u32) -> usize
        requires { IsSome (place_in self.now.jobs.items job) }
        ensures { place_in self.now.jobs.items job ≡ Some result }
    {
        match find_place(&self.jobs, job) {
            Some(place) => place,
            None => unreachable!(),
        }
    }

    /// The object number of a running put, or the number of an audit or a repair; 0 until it is drawn.
    pub fn subject_of(&self, job: u32) -> u64
        requires { RunsIn self.now.core job }
        ensures { Some result ≡ option_map (λ (j : CoreJob). j.plan.subject) (job_in self.now.core.jobs job) }
    {
        match self.core.subject(job) {
            Some(number) => number,
            None => unreachable!(),
        }
    }

    /// The undecided rounds of a running audit, and its counts; zeros until its verdict.
    fn sums_of(&self, job: u32) -> (u32, Counts)
        requires { RunsIn self.now.core job }
        ensures value { Some (record { counts = counted result.1; undecided = result.0 })
            ≡ option_map (λ (j : CoreJob). j.sums) (job_in self.now.core.jobs job) }
        ensures padded { IsPadded result.1 }
    {
        match self.core.sums(job) {
            Some(sums) => sums,
            None => unreachable!(),
        }
    }

    /// Ends a job that made all its actions: what it did, read or found.
    pub fn end(&mut self, job: u32) -> Turn
        requires next { Comes self.old.core job End }
        requires at_work { IsAtWork self.old }
        ensures machine { (w : State) (moment : ℕ) (d : Devices) → DeskStands self.old d w
            → DeskMakesStep w moment job result self.new d d }
        ensures acted { HasActed self.old.core self.new.core job result }
    {
        let place = self.place_of(job);
        let number = self.subject_of(job);
        let sums = self.sums_of(job);
        self.core.feed(job, Reply::Done);
        let running = self.jobs.remove(place);
        Turn::Done(running.task.into_end(number, sums.0, sums.1))
    }

    /// Ends a job with this answer, for which the core is given this reply.
    pub fn stop(&mut self, job: u32, reply: Reply, answer: Answer) -> Turn
        requires reply { TakesReply self.old.core job reply }
        requires given { wants_in self.old.core job ≡ None }
        requires there { IsSome (place_in self.old.jobs.items job) }
        ensures stopped { IsStopped self.old job reply answer result self.new }
        ensures acted { IsNoAction result → ⊥ }
    {
        let place = self.place_of(job);
        self.core.feed(job, reply);
        let running = self.jobs.remove(place);
        let heard = running.task.into_heard();
        Turn::Done(Ended { answer, heard })
    }
}
