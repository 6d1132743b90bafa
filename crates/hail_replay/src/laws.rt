//! Laws of what a trial tells, and of how a replay and a trial end.
ghost use Rattle.std.specs.Prelude.{◌≡◌, ◌⊎◌, ◌≤◌, ◌++◌, ◌∷◌, ℕ, List, [], Some, codes, length, reverse};
ghost use Rattle.command_defs.specs.Seen.{Seen, Ending};
ghost use Rattle.device_defs.specs.Faults.{Rose};
ghost use Rattle.machine_defs.specs.Runs.{Moment};
ghost use Rattle.machine_defs.specs.States.{State};
ghost use Rattle.machine_defs.specs.Lines.{line};
ghost use Rattle.machine_defs.specs.Transcripts.{Instruction};
ghost use Rattle.schedule_text.specs.Schedules.{IsSchedule};
ghost use Rattle.trial_maker.specs.Trials.{trial_bytes, trial_commands};
ghost use Rattle.hail_replay.specs.Answers.{AnswersReplay, AnswersTrial, longest_schedule, trial_providers};
ghost use Rattle.hail_replay.specs.Counts.{counts_of, trial_lines};
ghost use Rattle.hail_replay.specs.Examples.{list_text, list_commands, list_before, list_behind, trial_seen, ended_with, closed_moments};
ghost use Rattle.hail_replay.specs.TrialLines.{TellsTrial};

use schedule_text::laws::bad_line_is_in_no_schedule;

/// Each trial tells of 225 events.
pub fn trial_tells_its_events(number: u64)
    ensures { (ms : List Moment) (text : List ℕ) → TellsTrial number ms text
        → text ≡ trial_lines number (record (counts_of (trial_bytes number) [] ms) { events = 225 }) }
{}

/// The lines of some counts, as they are read.
pub fn lines_as_read()
    ensures all { trial_lines 7
        (record {
          events = 225;
          gets = 6;
          right = 6;
          audits = 3;
          flagged = 2 ∷ 3 ∷ 4
              ∷ [];
          repairs = 3;
          stops = 2;
        })
        ≡ line (codes "trial 7") ++ line (codes "events 225") ++ line (codes "gets 6 right 6")
        ++ line (codes "audits 3 flagged 2 3 4")
        ++ line (codes "repairs 3") ++ line (codes "stops 2") }
    ensures none { trial_lines 0 (counts_of [] [] [])
        ≡ line (codes "trial 0") ++ line (codes "events 0") ++ line (codes "gets 0 right 0")
        ++ line (codes "audits 0 flagged")
        ++ line (codes "repairs 0") ++ line (codes "stops 0") }
{}

/// Where its source has a schedule of at most 2^24 bytes, each line of which is in the grammar, a `replay`
/// ends with 0, or finds no memory, unless the source or the sink failed.
pub fn replays_end_well()
    ensures { (text : List ℕ) (commands : List Instruction) (old new : Seen) (end : Ending)
        → AnswersReplay old new end → old.source ≡ Some text → IsSchedule text commands
        → length text ≤ longest_schedule → (Rose old.source_faults new.source_faults → ⊥)
        → (Rose old.sink_faults new.sink_faults → ⊥) → (end.status ≡ 0) ⊎ (end.status ≡ 70) }
{
    bad_line_is_in_no_schedule();
}

/// Where six providers are handed in a `trial` ends with 0, or finds no memory, unless the sink failed.
pub fn trials_end_well()
    ensures { (number : ℕ) (old new : Seen) (end : Ending) → AnswersTrial number old new end
        → trial_providers ≤ length old.providers → (Rose old.sink_faults new.sink_faults → ⊥)
        → (end.status ≡ 0) ⊎ (end.status ≡ 70) }
{}

/// Instances: over an empty disk a replay of `list` tells that no vault is open; a trial found no memory; and
/// one is told all whose events came to `closed`.
pub fn a_list_is_replayed()
    ensures spells { IsSchedule list_text list_commands }
    ensures replay { AnswersReplay list_before list_behind (ended_with 0) }
    ensures trial { AnswersTrial 7 trial_seen trial_seen (ended_with 70) }
    ensures told { (w : State) (number : ℕ) → TellsTrial number
        (closed_moments w (reverse (trial_commands number)))
        (trial_lines number (counts_of (trial_bytes number) (reverse (trial_commands number))
        (closed_moments w (reverse (trial_commands number))))) }
{}
