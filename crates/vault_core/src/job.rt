ghost use Rattle.std.specs.Prelude.{◌≡◌, ◌<◌, ◌≤◌, ◌==◌, ℕ, Some, true, false, IfSome, IsSome, slice_get};
ghost use Rattle.record_defs.specs.Records.{Setup};
ghost use Rattle.std.specs.Option.{option_map};
ghost use Rattle.std.specs.List.{list_any};
ghost use Rattle.record_codec.specs.Entries.{entry_of, IsInGrammar};
ghost use Rattle.vault_core.specs.declared.pinned.Pinned.{Pinned as PinnedFile};
ghost use Rattle.vault_core.specs.Coming.{seen_action, action_next, entry_of_job, written_as, is_idle, is_move, provider_of};
ghost use Rattle.vault_core.specs.Rest.{call_of, rest_of};
ghost use Rattle.vault_core.specs.Parts.{core_job, sums_kept, IsSet, IsSteadyJob, IsJobKept, has_append};
ghost use Rattle.vault_core.specs.Wished.{aim_of_wish};

use crate::action::Action;
use crate::cursor::{Cursor, Move, Spot};
use crate::entries::{audit_done, put_done, repair_done, second_version};
use crate::pinned::Pinned;
use crate::wish::Wish;
use record_codec::{Counts, Record};
use vault_table::Table;

/// A file with something to do: its object number, and its stripes or rounds, at least one.
#[derive(Clone, Copy)]
pub struct Task {
    pub object: u64,
    pub turns: u32,
}

/// A running job: the plan of its actions, and where it is among them. A put's own file is its one task. Of
/// its appends so many have not ended; so many actions are made, and so many may be left at most. An open
/// stream is a put of 2^22 bytes that was given so many stripes so far.
#[derive(Drop)]
pub struct Job {
    pub number: u32,
    pub wish: Wish,
    pub profile: u8,
    pub pinned: Vec<Pinned>,
    pub tasks: Vec<Task>,
    pub flagged: [bool; 16],
    pub subject: u64,
    pub older: Option<u64>,
    pub cursor: Cursor,
    pub appends: u8,
    pub place: u64,
    pub left: u64,
    pub undecided: u32,
    pub counts: Counts,
    pub told: Option<u32>,
}

/// What a job calls a provider for.
fn call(wish: &Wish, spot: &Spot, provider: u32) -> Action
    ensures { seen_action result ≡ call_of wish.now spot.now.object spot.now.turn provider }
{
    let Spot { object, turn, .. } = *spot;
    match wish {
        Wish::Put { .. } => Action::Store {
            provider,
            object,
            stripe: turn,
        },
        Wish::Audit => Action::Ask {
            provider,
            object,
            round: turn,
        },
        _ => Action::Fetch {
            provider,
            object,
            stripe: turn,
        },
    }
}

impl Job {
    /// The next of the actions that the job has not yet made.
    pub fn action(&self) -> Action
        ensures value { (n : ℕ) → IsSteadyJob n self.now
            → slice_get (rest_of n self.now) 0 ≡ Some (seen_action result) }
        ensures within { (n j : ℕ) → IsSteadyJob n self.now → provider_of (seen_action result) ≡ Some j
            → j < n }
        ensures appends { (n : ℕ) → IsSteadyJob n self.now → is_move (Some (seen_action result)) ≡ true
            → has_append self.now.wish ≡ true }
    {
        match self.cursor {
            Cursor::Opening { at } => at.action(),
            Cursor::Closing { at } => at.action(),
            Cursor::Calling { spot, provider } => call(&self.wish, &spot, provider),
            Cursor::Working { spot } => Action::Work {
                object: spot.object,
                stripe: spot.turn,
            },
            Cursor::Rewriting { spot, provider } => Action::Store {
                provider,
                object: spot.object,
                stripe: spot.turn,
            },
            Cursor::Removing { object, provider } => Action::Remove { provider, object },
            Cursor::Ending => Action::End,
        }
    }

    /// A drop that has not begun its append and whose name is not in effect: only its end is left.
    fn is_idle(&self, table: &Table) -> bool
        ensures { result ≡ is_idle table.now (core_job self.now) }
    {
        match &self.wish {
            Wish::Drop { name } => table.find(name).is_none() && self.place == 0,
            _ => false,
        }
    }

    /// The next action of the job over a table.
    pub fn action_over(&self, table: &Table) -> Action
        ensures value { (s : Setup) → IsJobKept s self.now
            → action_next s table.now (core_job self.now) ≡ Some (seen_action result) }
        ensures within { (s : Setup) (j : ℕ) → IsJobKept s self.now
            → provider_of (seen_action result) ≡ Some j → j < s.n }
        ensures appends { (s : Setup) → IsJobKept s self.now → is_move (Some (seen_action result)) ≡ true
            → has_append self.now.wish ≡ true }
    {
        if self.is_idle(table) {
            return Action::End;
        }
        self.action()
    }

    /// The record of the job's append: a put and an audit have two appends before the first one is done.
    pub fn record(&self, table: &Table) -> Option<Record>
        ensures value { option_map entry_of result ≡ written_as table.now self.now.appends
            self.now.profile self.now.subject (sums_kept self.now) (aim_of_wish self.now.wish) }
        ensures there { has_append self.now.wish ≡ true → IsSome result }
        ensures in_grammar { (n : ℕ) → 4 ≤ n → n ≤ 16 → IsSet n self.now
            → IfSome result (λ entry. IsInGrammar entry) }
    {
        let first = self.appends == 2;
        match self.wish {
            Wish::Put { name, .. } if first => Some(Record::PutStart {
                id: table.next_id(),
                name,
            }),
            Wish::Put { length, .. } => Some(put_done(
                table.version(),
                self.subject,
                length,
                self.profile,
            )),
            Wish::Get { .. } => None,
            Wish::Drop { name } => Some(Record::Drop { name }),
            Wish::Audit if first => Some(Record::AuditStart {
                number: table.next_audit(),
            }),
            Wish::Audit => Some(audit_done(self.subject, self.undecided, self.counts)),
            Wish::Repair => Some(repair_done(self.subject)),
            Wish::Upgrade => Some(second_version()),
        }
    }

    /// The record that the job's append writes, if it is in one.
    pub fn entry_over(&self, table: &Table) -> Option<Record>
        ensures value { (s : Setup) → IsJobKept s self.now
            → option_map entry_of result ≡ entry_of_job s table.now (core_job self.now) }
        ensures there { (s : Setup) → IsJobKept s self.now
            → is_move (action_next s table.now (core_job self.now)) ≡ true → IsSome result }
        ensures in_grammar { (n : ℕ) → 4 ≤ n → n ≤ 16 → IsSet n self.now
            → IfSome result (λ entry. IsInGrammar entry) }
    {
        match self.action_over(table) {
            Action::WriteBody | Action::SyncBody | Action::WriteGate | Action::SyncGate => {
                self.record(table)
            }
            _ => None,
        }
    }

    /// The job has pinned an object.
    pub fn pins(&self, object: u64) -> bool
        ensures { result ≡ list_any (λ (file : PinnedFile). file.id == object) self.now.pinned.items }
    {
        self.pinned.iter().any(|file| file.id == object)
    }
}
