//! What a transcript tells: where each command stands among the moments, what was begun, and what stands since.
ghost use Rattle.std.specs.Prelude.{◌≡◌, ◌∷◌, ◌++◌, ℕ, true, List, Option, None, Some, length};
ghost use Rattle.std.specs.List.{AllByRecursion};
ghost use Rattle.device_defs.specs.Told.{told_then};
ghost use Rattle.record_defs.specs.Table.{File, find_file};
ghost use Rattle.machine_defs.specs.Jobs.{GetJob, DropJob};
ghost use Rattle.machine_defs.specs.Answers.{Answer, Put, Dropped};
ghost use Rattle.machine_defs.specs.Events.{Event, Begin, Names, Outcome, Begun, Ended, Listed};
ghost use Rattle.machine_defs.specs.Began.{IsPutBegin};
ghost use Rattle.machine_defs.specs.Damaged.{DamagesOnly, AsksDamageOf};
ghost use Rattle.machine_defs.specs.Heard.{NoneContinues};
ghost use Rattle.machine_defs.specs.Runs.{Moment, IsRun, now};
ghost use Rattle.machine_defs.specs.States.{State, IsStart, file_in};
ghost use Rattle.machine_defs.specs.Transcripts.{Instruction, CarriesOut};
ghost use Rattle.machine_defs.specs.Untouched.{Relies, NoneUnderWay, IsFree, NoneBeganOn, NoneAsksOn};
ghost use Rattle.line_laws.specs.Read.{lines_of_all, EndsAs};
ghost use Rattle.run_laws.specs.Stories.{Stored, GetEnds};
ghost use Rattle.state_laws.specs.Sound.{IsLimit};
ghost use Rattle.effect_laws.specs.Puts.{PutsOnly, NoPutBegan, NoDropBegan, DroppedOut};
ghost use Rattle.effect_laws.specs.Lists.{IsListedAs, IsRead, IsToldByLines, NoneCalls, calls_none, ReadsAs};
ghost use Rattle.effect_laws.specs.Scrubs.{IsToldButBlocks, AreButBlocks};
ghost use Rattle.effect_laws.specs.Tests.{touches, puts_under, drops, asks_none, asks_puts_only};
ghost use Rattle.effect_laws.specs.Transcripts.{NonePuts, NoneDrops, AsksPutsOnly, LeavesFree, AreOver, AreOverOn, NoneIsBegun, CarriesApart, EndsApart, job_behind, TellsJob};

/// Where what a run of commands has written is what told outcomes write, as many as commands, lists of the names
/// among them, the commands ended as these are read. A list tells of each name whether a file is in effect under
/// it, and of which size.
pub fn texts_tell_lists()
    ensures whole { (limit : ℕ) (start : State) (base ms : List Moment) (commands : List Instruction)
        (bytes : List ℕ) (outcomes : List Outcome) → IsLimit limit → IsStart start
        → IsRun limit start (ms ++ base) → NoneCalls commands → CarriesOut commands ms bytes
        → AllByRecursion IsToldByLines outcomes → length outcomes ≡ length commands
        → bytes ≡ lines_of_all outcomes → ReadsAs commands ms outcomes }
    ensures lists { (limit : ℕ) (start : State) (m : Moment) (ms : List Moment) (told : List File)
        → IsRun limit start (m ∷ ms) → m.event ≡ Names → IsRead m.outcome (Listed told) → (name : List ℕ)
        → IsListedAs (file_in (now start ms) name) (find_file told name) }
{}

/// So it is of a text with scrubs. The line of one that ended well leaves its blocks out: the commands ended as
/// outcomes are read that are the told ones but for these.
pub fn texts_tell_scrubs()
    ensures { (limit : ℕ) (start : State) (base ms : List Moment) (commands : List Instruction)
        (bytes : List ℕ) (outcomes : List Outcome) → IsLimit limit → IsStart start
        → IsRun limit start (ms ++ base) → NoneCalls commands → CarriesOut commands ms bytes
        → AllByRecursion IsToldButBlocks outcomes → length outcomes ≡ length commands
        → bytes ≡ lines_of_all outcomes
        → (own : List Outcome) × AreButBlocks own outcomes × ReadsAs commands ms own }
{}

/// Commands behind others are carried out behind them. They end with outcomes, as many as commands, which wrote
/// their lines; and what they end with is read.
pub fn commands_come_apart()
    ensures carried { (own others : List Instruction) (ms : List Moment) (lines : List ℕ)
        → CarriesOut (own ++ others) ms lines → CarriesApart own others ms lines }
    ensures ends { (own others : List Instruction) (ms : List Moment) (outcomes before : List Outcome)
        → ReadsAs (own ++ others) ms (outcomes ++ before) → length outcomes ≡ length own
        → EndsApart own others ms outcomes before }
    ensures outcomes { (own others : List Instruction) (ms : List Moment) (outcomes : List Outcome)
        → ReadsAs (own ++ others) ms outcomes → (rs : List Outcome) × (ss : List Outcome)
        × (outcomes ≡ rs ++ ss) × (length rs ≡ length own) × EndsApart own others ms rs ss }
    ensures told { (commands : List Instruction) (ms : List Moment) (lines : List ℕ)
        → CarriesOut commands ms lines
        → (outcomes : List Outcome) × EndsAs commands ms outcomes × (lines ≡ lines_of_all outcomes) }
    ensures read { (commands : List Instruction) (ms : List Moment) (outcomes : List Outcome)
        → EndsAs commands ms outcomes → ReadsAs commands ms outcomes }
{}

/// What commands do not ask for, the moments that carry them out do not begin.
pub fn what_is_not_asked_is_not_begun()
    ensures neither { (name : List ℕ) (commands : List Instruction) (ms : List Moment)
        (outcomes : List Outcome) → ReadsAs commands ms outcomes → NoneAsksOn name commands
        → NoneBeganOn name ms }
    ensures puts { (name : List ℕ) (commands : List Instruction) (ms : List Moment) (outcomes : List Outcome)
        → ReadsAs commands ms outcomes → NonePuts name commands → NoPutBegan name ms }
    ensures drops { (name : List ℕ) (commands : List Instruction) (ms : List Moment) (outcomes : List Outcome)
        → ReadsAs commands ms outcomes → NoneDrops name commands → NoDropBegan name ms }
    ensures only { (name bytes : List ℕ) (commands : List Instruction) (ms : List Moment)
        (outcomes : List Outcome) → ReadsAs commands ms outcomes → AsksPutsOnly name bytes commands
        → PutsOnly name bytes ms }
    ensures damage { (ps : List ℕ) (commands : List Instruction) (ms : List Moment) (outcomes : List Outcome)
        → ReadsAs commands ms outcomes → AsksDamageOf ps commands → DamagesOnly ps ms }
    ensures call { (commands : List Instruction) (ms : List Moment) (outcomes : List Outcome)
        → ReadsAs commands ms outcomes → NoneCalls commands → NoneContinues ms }
{}

/// A test tells that no command is a later call of the program: of commands that are spelled out it holds by computing.
pub fn calls_are_tested()
    ensures { (commands : List Instruction) → calls_none commands ≡ true → NoneCalls commands }
{}

/// So tests tell that no command asks for a put or a drop of a name, for a put, for a drop, or for a put of it of other
/// bytes.
pub fn what_is_asked_is_tested()
    ensures neither { (name : List ℕ) (commands : List Instruction) → asks_none (touches name) commands ≡ true
        → NoneAsksOn name commands }
    ensures puts { (name : List ℕ) (commands : List Instruction) → asks_none (puts_under name) commands ≡ true
        → NonePuts name commands }
    ensures drops { (name : List ℕ) (commands : List Instruction) → asks_none (drops name) commands ≡ true
        → NoneDrops name commands }
    ensures only { (name bytes : List ℕ) (commands : List Instruction) → asks_puts_only name bytes commands ≡ true
        → AsksPutsOnly name bytes commands }
{}

/// A name that no put or drop under way holds stays free while none of it begins, and behind commands that leave
/// it so, or whose puts and drops of it are over.
pub fn free_names_stay_free()
    ensures moments { (name : List ℕ) (later ms : List Moment) → IsFree name ms → NoneBeganOn name later
        → IsFree name (later ++ ms) }
    ensures commands { (name : List ℕ) (commands : List Instruction) (ms base : List Moment)
        (outcomes : List Outcome) → ReadsAs commands ms outcomes → LeavesFree name commands
        → IsFree name base → IsFree name (ms ++ base) }
    ensures asked { (name : List ℕ) (commands : List Instruction) → NoneAsksOn name commands
        → LeavesFree name commands }
    ensures over { (name : List ℕ) (commands : List Instruction) (ms base : List Moment)
        (outcomes : List Outcome) → ReadsAs commands ms outcomes → AreOverOn name commands outcomes
        → IsFree name base → IsFree name (ms ++ base) }
    ensures leaves { (name : List ℕ) (commands : List Instruction) (ms : List Moment) (outcomes : List Outcome)
        → ReadsAs commands ms outcomes → LeavesFree name commands → AreOverOn name commands outcomes }
{}

/// No get and no repair is under way behind commands each of whose gets and repairs is over.
pub fn told_readers_are_over()
    ensures { (commands : List Instruction) (ms base : List Moment) (outcomes : List Outcome)
        → ReadsAs commands ms outcomes → AreOver commands outcomes → NoneUnderWay Relies base
        → NoneUnderWay Relies (ms ++ base) }
{}

/// A job that a command begins and a later one runs to its end stands among the moments so, with those of the
/// commands behind it and before it.
pub fn transcripts_tell_jobs()
    ensures { (middle between front : List Instruction) (event : Event) (number : ℕ) (how : Answer)
        (ms : List Moment) (rs ts us : List Outcome)
        → ReadsAs (job_behind middle between event number front) ms
        (rs ++ Ended how ∷ (ts ++ Begun number ∷ us)) → length rs ≡ length middle
        → length ts ≡ length between → NoneIsBegun number ts
        → TellsJob middle between front event number how ms rs us }
{}

/// What such a job leaves, where it ended well. A put has stored its file, where its name is free before it,
/// and no other put or drop of the name is asked for between its begin and its end, nor since. A drop has taken
/// its name out, where no put is asked for since. A get ended with its answer. Behind the end of a job, however it
/// ended, a name that was free before its begin is free again.
pub fn told_jobs_leave()
    ensures put { (middle between front : List Instruction) (event : Event) (number : ℕ)
        (name bytes : List ℕ) (ms base : List Moment) (rs us : List Outcome) → IsPutBegin event name bytes
        → (T : TellsJob middle between front event number Put ms rs us) → NoneAsksOn name middle
        → NoneAsksOn name between → IsFree name (T.older ++ base) → Stored (ms ++ base) name bytes }
    ensures drop { (middle between front : List Instruction) (number : ℕ) (name : List ℕ)
        (ms base : List Moment) (rs us : List Outcome)
        → (T : TellsJob middle between front (Begin (DropJob name)) number Dropped ms rs us)
        → NonePuts name middle → NoneAsksOn name between → IsFree name (T.older ++ base)
        → DroppedOut (ms ++ base) name }
    ensures get { (middle between front : List Instruction) (number : ℕ) (name : List ℕ) (how : Answer)
        (ms : List Moment) (rs us : List Outcome)
        → (T : TellsJob middle between front (Begin (GetJob name)) number how ms rs us)
        → GetEnds T.begin T.gap T.end number name how }
    ensures free { (middle between front : List Instruction) (event : Event) (number : ℕ) (how : Answer)
        (name : List ℕ) (ms base : List Moment) (rs us : List Outcome)
        → (T : TellsJob middle between front event number how ms rs us) → NoneAsksOn name middle
        → NoneAsksOn name between → IsFree name (T.older ++ base) → IsFree name (ms ++ base) }
{}

/// What was written behind what a sink had taken is told by what it holds.
pub fn written_texts_are_told()
    ensures { (old new : Option (List ℕ)) (lines taken text : List ℕ) → new ≡ told_then old lines
        → old ≡ Some taken → new ≡ Some (taken ++ text) → lines ≡ text }
{}
