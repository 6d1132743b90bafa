//! What laws about faults say of the run given outright: each premise is met, and the law is called.
ghost use Rattle.std.specs.Prelude.{◌≡◌, ◌⊎◌, ◌<◌, ℕ, List, Some, true, false};
ghost use Rattle.machine_defs.specs.Refusals as refusal;
ghost use Rattle.second_half_laws.specs.Own.{IsExact};
ghost use Rattle.second_half_laws.specs.Sharp.{IsLostByFaults};
ghost use Rattle.second_half_laws.specs.Whole.{PutIsWhole, AuditIsWhole};
ghost use Rattle.headline.specs.Headline.{Headline};
ghost use Rattle.damage_run.specs.Words.{next_id, next_audit, columns, Job, Lost, State, Moment, now, first_moments, is_replaced_since, scrubbed, AreScrubsCalm, IsScrubCalm, HasStored, HasAsked, told_block, IsKept, heard_in, heard_by, given_to, OfDisk, OfStores, OfOthers, count_in, RoseBy, FirstHalf, SecondHalf, IsGetRefusal, set_up, IsMarkedRun, IsReplaced, RoseSince};
ghost use Rattle.damage_run.specs.Points.{name, byte, at, counts};
ghost use Rattle.upgrade_run.specs.Schedule.{HasAll, thing};
ghost use Rattle.fault_run.specs.Faults.{IsFaulty, HasFaults};

use headline::laws::every_run_keeps_the_headline;
use machine_defs::laws::{
    acknowledged_files_survive, challenges_are_made_once, reports_have_what_jobs_heard,
    stores_name_their_own_object, used_numbers_are_below,
};
use second_half_laws::laws::{
    any_mark_will_do, damage_of_pinned_files_is_new, done_audits_are_whole, done_puts_are_whole,
    failed_calls_are_counted, finished_scrubs_are_marks, gets_give_or_are_lost, stored_names_begin,
    the_start_is_a_mark, unscrubbed_runs_are_scrub_calm,
};

/// Each failed call raised its count.
pub fn failed_calls_raise_counts()
    ensures fetch { (ms : List Moment) → IsFaulty ms → HasFaults ms
        → RoseBy (count_in (OfOthers 0) (at 16 ms)) (count_in (OfOthers 0) (at 17 ms)) 1 }
    ensures store { (ms : List Moment) → IsFaulty ms → HasFaults ms
        → RoseBy (count_in (OfStores 0) (at 26 ms)) (count_in (OfStores 0) (at 27 ms)) 1 }
    ensures sync { (ms : List Moment) → IsFaulty ms → HasFaults ms
        → RoseBy (count_in OfDisk (at 35 ms)) (count_in OfDisk (at 36 ms)) 1 }
    ensures reopening { (ms : List Moment) → IsFaulty ms → HasFaults ms
        → RoseBy (count_in OfDisk (at 38 ms)) (count_in OfDisk (at 39 ms)) 1 }
    ensures ask { (ms : List Moment) → IsFaulty ms → HasFaults ms
        → RoseBy (count_in (OfOthers 2) (at 55 ms)) (count_in (OfOthers 2) (at 56 ms)) 1 }
    ensures removal { (ms : List Moment) → IsFaulty ms → HasFaults ms
        → RoseBy (count_in (OfOthers 3) (at 71 ms)) (count_in (OfOthers 3) (at 72 ms)) 1 }
{
    failed_calls_are_counted();
}

/// The begins of a get that are refused are so for causes that may be; the get that is lost, is so by faults,
/// and what it was not given was not replaced, but not given for a fault.
#[tactic(auto, using(crate::proofs::Points::run_to))]
pub fn gets_are_refused_or_lost_by_faults()
    ensures must_reopen { (ms : List Moment) → IsFaulty ms → HasFaults ms → IsGetRefusal refusal.MustReopen }
    ensures no_memory { (ms : List Moment) → IsFaulty ms → HasFaults ms → IsGetRefusal refusal.Memory }
    ensures lost { (ms : List Moment) → IsFaulty ms → HasFaults ms
        → (begun : State) × IsLostByFaults begun (at 21 ms) (Lost 0 0) }
    ensures missed { (ms : List Moment) → IsFaulty ms → (h : HasFaults ms) →
        IsReplaced 0 0 (first_moments 20 ms)
        ⊎ RoseSince (at h.get_missed.job.begun (first_moments 20 ms)) (at 20 ms) 0 }
{
    stored_names_begin();
    the_start_is_a_mark();
    gets_give_or_are_lost();
    damage_of_pinned_files_is_new();
}

/// The put that was cut off is whole, though its job ended in a fault: while its record is in doubt, and when
/// a stop brings it into effect. The first file is kept past the fault, the stop and the reopenings.
pub fn puts_survive_faults()
    ensures in_doubt { (ms : List Moment) → IsFaulty ms → HasFaults ms
        → (job : Job) × PutIsWhole set_up (first_moments 37 ms) job 3 0 0 }
    ensures settled { (ms : List Moment) → IsFaulty ms → HasFaults ms
        → (job : Job) × PutIsWhole set_up (first_moments 37 ms) job 3 0 0 }
    ensures first { (ms : List Moment) → IsFaulty ms → HasFaults ms
        → IsKept (at 63 ms) name (record { name = name; id = 1; size = 1; profile = 0 }) }
{
    done_puts_are_whole();
    acknowledged_files_survive();
}

/// The report has what the second get heard, while later jobs run.
pub fn reports_have_it()
    ensures { (ms : List Moment) → IsFaulty ms → (h : HasFaults ms)
        → given_to h.reported.job.number (heard_in set_up (first_moments 60 ms))
        ≡ given_to h.reported.job.number (heard_by (Some h.reported.job)) }
{
    reports_have_what_jobs_heard();
}

/// The headline of the run: its start is a mark, so the second half holds of it too; and so is the begin of
/// its last finished scrub, which is its start, as no scrub begins.
pub fn headline_of_it()
    ensures headline { (ms : List Moment) → IsFaulty ms → Headline set_up ms }
    ensures mark { (ms : List Moment) → IsFaulty ms → IsMarkedRun 8 (λ moments. 0) set_up ms }
    ensures halves { (ms : List Moment) → IsFaulty ms → FirstHalf set_up ms × SecondHalf set_up ms }
    ensures scrubs { (ms : List Moment) → IsFaulty ms → AreScrubsCalm (scrubbed set_up) ms }
    ensures scrub_mark { (ms : List Moment) → IsFaulty ms
        → IsMarkedRun 8 (scrubbed set_up) set_up ms × SecondHalf set_up ms }
{
    every_run_keeps_the_headline();
    the_start_is_a_mark();
    any_mark_will_do();
    unscrubbed_runs_are_scrub_calm();
    finished_scrubs_are_marks();
}

/// The mark of a finished scrub, of the run of the second version: its scrub mends a block that was altered
/// before, and the get that comes after counts from the scrub's begin, at event 22. Provider 0 was altered in
/// one symbol, which no mark counts as damage; not replaced since that begin, it holds its own column again.
pub fn a_finished_scrub_is_a_mark()
    ensures { (ms : List Moment) × HasAll ms × IsScrubCalm set_up ms × (scrubbed set_up ms ≡ 22)
        × IsMarkedRun 8 (scrubbed set_up) set_up ms × SecondHalf set_up ms
        × IsExact set_up ms (scrubbed set_up ms) × (is_replaced_since 21 0 ms ≡ true)
        × (is_replaced_since (scrubbed set_up ms) 0 ms ≡ false)
        × (told_block (now set_up ms) 0 1 0 ≡ Some (Some (columns thing byte 0 0))) }
{
    finished_scrubs_are_marks();
}

/// The numbers that the first put has stored under and the audit has asked under are below the next ones, and
/// no other put and no other audit used them; the audit whose end is in flight is whole.
#[tactic(auto, using(run_laws::proofs::FirstHalf::first_run))]
pub fn numbers_are_drawn_once()
    ensures object { (ms : List Moment) → IsFaulty ms → HasFaults ms → 1 < next_id (at 7 ms).records }
    ensures audit { (ms : List Moment) → IsFaulty ms → HasFaults ms → 1 < next_audit (at 54 ms).records }
    ensures one_put { (ms : List Moment) (other : ℕ) → IsFaulty ms → HasFaults ms
        → HasStored set_up (first_moments 7 ms) other 1 → 1 ≡ other }
    ensures one_audit { (ms : List Moment) (other : ℕ) → IsFaulty ms → HasFaults ms
        → HasAsked set_up (first_moments 54 ms) other 1 1 0 → 48 ≡ other }
    ensures whole { (ms : List Moment) → IsFaulty ms → (h : HasFaults ms)
        → AuditIsWhole set_up (first_moments 58 ms) h.end_in_flight.job 1 0 counts }
{
    used_numbers_are_below();
    stores_name_their_own_object();
    challenges_are_made_once();
    done_audits_are_whole();
}
