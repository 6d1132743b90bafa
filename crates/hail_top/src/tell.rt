// How the answer of a job is told: its text, or the status of its fault.
ghost use Rattle.std.specs.Prelude.{◌≡◌, ◌≤◌, IfOk, IfErr};
ghost use Rattle.vault.specs.Outcomes.{machine_answer};
ghost use Rattle.command_jobs.specs.Kinds.{kind_of};
ghost use Rattle.hail_replay.specs.Heard.{entries_heard};
ghost use Rattle.hail_top.specs.Telling.{TellsOf, IsTextOf, IsFaultEnd, TellsAnswer, no_memory};

use crate::report::Report;
use command_jobs::Job;
use command_lines::{
    audit_lines, dropped_line, repaired_line, stored_line, upgraded_line, write_text,
};
use exit_statuses::{DISK_FAULT, LOST_ROW, NO_MEMORY, PROVIDER_FAULT};
use hail_replay::HeardLists;
use std::alloc::Global;
use stream_model::{Bytes, Memory, Sink};
use vault::{Answer, Ended};

/// What the lines of answers speak of beside the answer: the name and the length of a job's file, and how
/// many wrong rounds an audit tolerates.
#[derive(Clone, Copy)]
pub struct Subject<'a> {
    pub name: &'a [u8],
    pub length: usize,
    pub tolerance: u16,
}

impl<'a> Subject<'a> {
    /// What the line of this job's answer speaks of, in a store that tolerates so many wrong rounds.
    pub fn new(job: &Job<'a>, tolerance: u16) -> Subject<'a>
        ensures { TellsOf result tolerance (kind_of job.now) }
    {
        let name: &'a [u8] = match job {
            Job::Get { name } | Job::Drop { name } => *name,
            Job::Audit | Job::Repair | Job::Upgrade => &[],
        };
        Subject {
            name,
            length: 0,
            tolerance,
        }
    }
}

/// Why an answer has no text: the status that says it, and the place that the status speaks of.
#[derive(Clone, Copy)]
pub struct Fault {
    pub status: u8,
    pub at: u64,
}

impl From<Memory> for Fault {
    ghost from_gives = { λ _ e. e ≡ no_memory };

    fn from(_: Memory) -> Self {
        Fault {
            status: NO_MEMORY,
            at: 0,
        }
    }
}

/// The text of an answer, or its fault.
fn text(alloc: Global, subject: &Subject, answer: Answer) -> Result<Bytes, Fault>
    ensures text { IfOk result (IsTextOf subject.now (machine_answer answer)) }
    ensures fault { IfErr result (λ fault. IsFaultEnd (machine_answer answer) fault.status fault.at) }
{
    match answer {
        Answer::Put => Ok(stored_line(alloc, subject.name, subject.length)?),
        Answer::Got { bytes } => Ok(bytes),
        Answer::Dropped => Ok(dropped_line(alloc, subject.name)?),
        Answer::Audited {
            number,
            undecided,
            counts,
        } => Ok(audit_lines(alloc, subject.tolerance, number, undecided, &counts)?),
        Answer::Repaired { number } => Ok(repaired_line(alloc, number)?),
        Answer::Upgraded => Ok(Bytes::from_slice(alloc, upgraded_line())?),
        Answer::Lost { row, .. } => Err(Fault {
            status: LOST_ROW,
            at: row,
        }),
        Answer::ProviderFault { provider } => Err(Fault {
            status: PROVIDER_FAULT,
            at: u64::from(provider),
        }),
        Answer::DiskFault => Err(Fault {
            status: DISK_FAULT,
            at: 0,
        }),
        Answer::Memory => Err(Fault {
            status: NO_MEMORY,
            at: 0,
        }),
    }
}

/// Tells how a job ended: the text of its answer is written, or its fault is the status.
pub fn ended<K: Sink>(alloc: Global, subject: &Subject, ended: Ended, sink: &mut K) -> Report
    ensures told { TellsAnswer subject.now (machine_answer ended.answer) result.status result.at
        (record {
          old = K.written sink.old;
          new = K.written sink.new;
          before = K.faults sink.old;
          now = K.faults sink.new;
        }) }
    ensures heard { entries_heard result.heard ≡ ended.heard }
    ensures count { K.faults sink.old ≤ K.faults sink.new }
{
    let heard = HeardLists::one(ended.heard);
    match text(alloc, subject, ended.answer) {
        Ok(text) => Report {
            status: write_text(text.as_slice(), sink),
            at: 0,
            heard,
        },
        Err(fault) => Report {
            status: fault.status,
            at: fault.at,
            heard,
        },
    }
}
