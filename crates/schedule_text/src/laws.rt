//! What follows from the grammar of schedules.
ghost use Rattle.std.specs.Prelude.{◌≡◌, ◌≤◌, ◌+◌, ℕ, List, length};
ghost use Rattle.std.specs.List.{AllByRecursion};
ghost use Rattle.machine_defs.specs.Transcripts.{Instruction};
ghost use Rattle.schedule_text.specs.Schedules.{IsSchedule, IsFirstBadLine};
ghost use Rattle.schedule_text.specs.Spelling.{CanBeSpelled, schedule_bytes};

/// A text is the schedule of one list of commands at most.
pub fn schedule_has_one_reading()
    ensures { (text : List ℕ) (commands others : List Instruction) → IsSchedule text commands
        → IsSchedule text others → commands ≡ others }
{}

/// A text with a line outside the grammar is no schedule.
pub fn bad_line_is_in_no_schedule()
    ensures { (text : List ℕ) (number : ℕ) (commands : List Instruction) → IsFirstBadLine text number
        → IsSchedule text commands → ⊥ }
{}

/// A text has one first line outside the grammar at most.
pub fn first_bad_line_is_one()
    ensures { (text : List ℕ) (number other : ℕ) → IsFirstBadLine text number → IsFirstBadLine text other
        → number ≡ other }
{}

/// Each list of commands whose numbers fit, and whose names are words, is spelled by a text.
pub fn commands_have_a_spelling()
    ensures { (commands : List Instruction) → AllByRecursion CanBeSpelled commands
        → IsSchedule (schedule_bytes commands) commands }
{}

/// A text has at most one event more than it has bytes.
pub fn schedule_is_short()
    ensures { (text : List ℕ) (commands : List Instruction) → IsSchedule text commands
        → length commands ≤ length text + 1 }
{}
