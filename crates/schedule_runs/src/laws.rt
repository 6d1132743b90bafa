//! What a replay and a trial suppose of their devices is met, and what they promise is used.
ghost use Rattle.std.specs.Prelude.{◌≡◌, ◌⊎◌, ℕ, List, [], ◌∷◌, Some, IsSome, reverse};
ghost use Rattle.std.specs.List.{AllByRecursion};
ghost use Rattle.schedule_text.specs.Spelling.{CanBeSpelled};
ghost use Rattle.line_laws.specs.Read.{AskForOneLine};
ghost use Rattle.hail_replay.specs.Replayed.{Replays};
ghost use Rattle.hail_replay.specs.declared.forms.Form.TheVariants.{Replay};
ghost use Rattle.hail_replay.specs.Trials.{RunsTrial, RunsTo};
ghost use Rattle.trial_maker.specs.Trials.{trial_commands};
ghost use Rattle.second_half_laws.specs.Own.{IsExact};
ghost use Rattle.schedule_runs.specs.Words.{Seen, Ending, sinking, set_up, SecondHalf, Moment, now, IsRun, scrubbed, State, IsStart, Instruction, fresh, start_of, IsSchedule, IsFirstBadLine, AreLeft, DoesSchedule, DoesTrial, devices_of_seen, KeepsTheHeadline, Form, name, IsOutright, other, IsFaulty};
ghost use Rattle.schedule_runs.specs.Left.{devices_left, GoesOnWith, KeepsItsFile, KeepsSecondHalf};
ghost use Rattle.schedule_runs.specs.Schedule.{stopped_schedule, stopped_text, bad_text, IsStoppedRun, upgraded_schedule, upgraded_text, upgraded_file, IsUpgradedRun, scrubbed_schedule, scrubbed_text, IsScrubbedRun, packed_schedule, packed_text, IsPackedRun};

use hail_client::laws::a_fresh_disk_has_a_start;
use line_laws::laws::events_write_one_line;
use schedule_text::laws::schedule_has_one_reading;

/// Each run has left devices that tell, whatever area its journal is in: those of its last state. So have the
/// run of no event, over a disk before its first use, and the runs given outright: one with damage, an
/// audit that finds it and a repair; one with calls of every device that fail, and a stop.
pub fn runs_leave_devices()
    ensures each { (start : State) (ms : List Moment) → IsStart start → IsRun 8 start ms
        → AreLeft start ms (devices_left (now start ms)) }
    ensures tell { (start : State) (ms : List Moment) → IsSome (devices_left (now start ms)).holds }
    ensures fresh { AreLeft (start_of fresh []) [] fresh }
    ensures damaged { (ms : List Moment) × IsOutright ms × AreLeft set_up ms (devices_left (now set_up ms)) }
    ensures faulty { (ms : List Moment) × IsFaulty ms × AreLeft set_up ms (devices_left (now set_up ms)) }
{
    a_fresh_disk_has_a_start();
}

/// A schedule as text, with lost blocks, an audit, a repair, a stop and gets: the commands that it spells are
/// carried out by a run, and the get behind the stop gives the file, though a provider has lost its block.
/// Another text has a line outside the grammar.
pub fn a_schedule_has_its_run()
    ensures spells { IsSchedule stopped_text (reverse stopped_schedule) }
    ensures fits { AllByRecursion CanBeSpelled (reverse stopped_schedule) }
    ensures bad_line { IsFirstBadLine bad_text 2 }
    ensures run { (ms : List Moment) × IsStoppedRun ms × AreLeft set_up ms (devices_left (now set_up ms)) }
    ensures used { (ms : List Moment) × IsStoppedRun ms
        × ((form : Form) (old new : Seen) (end : Ending)
        → devices_of_seen old ≡ devices_left (now set_up ms) → KeepsTheHeadline form old new end
        → KeepsItsFile set_up ms name (record { name = name; id = 1; size = 1; profile = 0 }) old new end) }
{}

/// So it is of a text with an upgrade, a put at a profile of its own, and a get, which gives the file; and
/// the file keeps its profile.
pub fn an_upgrade_has_its_run()
    ensures spells { IsSchedule upgraded_text (reverse upgraded_schedule) }
    ensures fits { AllByRecursion CanBeSpelled (reverse upgraded_schedule) }
    ensures run { (ms : List Moment) × IsUpgradedRun ms × AreLeft set_up ms (devices_left (now set_up ms)) }
    ensures used { (ms : List Moment) × IsUpgradedRun ms
        × ((form : Form) (old new : Seen) (end : Ending)
        → devices_of_seen old ≡ devices_left (now set_up ms) → KeepsTheHeadline form old new end
        → KeepsItsFile set_up ms name upgraded_file old new end) }
{}

/// So it is of a text with the same upgrade and put, an altered symbol, a scrub that finds and mends it, and
/// a get. The run is calm, counted from the scrub's begin, so the second half holds of it by scrubs, whatever
/// audits missed, and providers are exact; so it does of what a command makes of it that stays calm.
pub fn a_scrub_has_its_run()
    ensures spells { IsSchedule scrubbed_text (reverse scrubbed_schedule) }
    ensures fits { AllByRecursion CanBeSpelled (reverse scrubbed_schedule) }
    ensures run { (ms : List Moment) × IsScrubbedRun ms × AreLeft set_up ms (devices_left (now set_up ms)) }
    ensures half { (ms : List Moment) × IsScrubbedRun ms × SecondHalf set_up ms
        × IsExact set_up ms (scrubbed set_up ms) }
    ensures used { (ms : List Moment) × IsScrubbedRun ms
        × ((form : Form) (old new : Seen) (end : Ending)
        → devices_of_seen old ≡ devices_left (now set_up ms) → KeepsTheHeadline form old new end
        → KeepsSecondHalf set_up ms old new end) }
{}

/// So it is of a text with the same upgrade and put, a pack, and a get, which gives the file out of the
/// second area.
pub fn a_pack_has_its_run()
    ensures spells { IsSchedule packed_text (reverse packed_schedule) }
    ensures fits { AllByRecursion CanBeSpelled (reverse packed_schedule) }
    ensures run { (ms : List Moment) × IsPackedRun ms × AreLeft set_up ms (devices_left (now set_up ms)) }
    ensures used { (ms : List Moment) × IsPackedRun ms
        × ((form : Form) (old new : Seen) (end : Ending)
        → devices_of_seen old ≡ devices_left (now set_up ms) → KeepsTheHeadline form old new end
        → KeepsItsFile set_up ms name upgraded_file old new end) }
{}

/// So a replay or a trial over the devices that a run has left does nothing, or goes on with that very run,
/// and the headline holds of the whole.
pub fn commands_go_on_with_them()
    ensures each { (start : State) (ms : List Moment) (form : Form) (old new : Seen) (end : Ending)
        → IsStart start → IsRun 8 start ms → devices_of_seen old ≡ devices_left (now start ms)
        → KeepsTheHeadline form old new end
        → GoesOnWith start ms old new end }
    ensures fresh { (form : Form) (old new : Seen) (end : Ending) → devices_of_seen old ≡ fresh
        → KeepsTheHeadline form old new end → GoesOnWith (start_of fresh []) [] old new end }
    ensures damaged { (ms : List Moment) × IsOutright ms
        × ((form : Form) (old new : Seen) (end : Ending)
        → devices_of_seen old ≡ devices_left (now set_up ms) → KeepsTheHeadline form old new end
        → KeepsItsFile set_up ms name (record { name = name; id = 1; size = 1; profile = 0 }) old new end) }
    ensures faulty { (ms : List Moment) × IsFaulty ms
        × ((form : Form) (old new : Seen) (end : Ending)
        → devices_of_seen old ≡ devices_left (now set_up ms) → KeepsTheHeadline form old new end
        → KeepsItsFile set_up ms other (record { name = other; id = 3; size = 0; profile = 0 }) old new
        end) }
    ensures replay { (start : State) (ms : List Moment) (text : List ℕ) (old new : Seen) (end : Ending)
        → IsStart start → IsRun 8 start ms →
        devices_of_seen old ≡ devices_left (now start ms) → DoesSchedule text old new end →
        (commands : List Instruction) × IsSchedule text commands
        × Replays start ms commands end.status (sinking old new) end.heard (devices_of_seen new) }
    ensures trial { (start : State) (ms : List Moment) (number : ℕ) (old new : Seen) (end : Ending)
        → IsStart start → IsRun 8 start ms →
        devices_of_seen old ≡ devices_left (now start ms) → DoesTrial number old new end →
        RunsTrial number start ms end.status (sinking old new) end.heard (devices_of_seen new)
        ⊎ ((end.status ≡ 70) × (new.sink ≡ old.sink)
        × RunsTo start ms (trial_commands number) end.heard (devices_of_seen new)) }
{
    runs_leave_devices();
}

/// A replay that reads its schedule, does none of it and ends with status 0 does not keep the headline, where the
/// schedule's last command writes one line: none was written.
pub fn idle_replays_break_the_headline()
    ensures { (text : List ℕ) (command : Instruction) (older : List Instruction) (start : State)
        (before : List Moment) (old new : Seen) (end : Ending) (taken : List ℕ) → old.source ≡ Some text
        → new.source ≡ Some [] → IsSchedule text (reverse (command ∷ older)) → AskForOneLine (command ∷ [])
        → IsSome old.disk → AreLeft start before (devices_of_seen old) → end.status ≡ 0
        → old.sink ≡ Some taken → new.sink ≡ old.sink → KeepsTheHeadline Replay old new end → ⊥ }
{
    events_write_one_line();
    schedule_has_one_reading();
}
