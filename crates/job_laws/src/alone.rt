//! What the job of a command leaves, by the run that the command tells of.
ghost use Rattle.std.specs.Prelude.{◌≡◌, ℕ, List, length, Option};
ghost use Rattle.record_defs.specs.Records.{Record};
ghost use Rattle.machine_defs.specs.Jobs.{Kind, PutJob};
ghost use Rattle.machine_defs.specs.Answers.{Answer};
ghost use Rattle.machine_defs.specs.Events.{IsSpelledKind};
ghost use Rattle.machine_defs.specs.States.{State};
ghost use Rattle.machine_defs.specs.Heard.{Entry};
ghost use Rattle.command_defs.specs.Seen.{Seen};
ghost use Rattle.command_defs.specs.Opens as opens;
ghost use Rattle.opening_defs.specs.Opened.{IsJustOpened};
ghost use Rattle.lone_laws.specs.Walked.{MayName};
ghost use Rattle.command_defs.specs.Jobs.{RunsAlone, LeftAlone};
ghost use Rattle.command_defs.specs.GivenUp.{PartRuns, PartLeft};
ghost use Rattle.command_defs.specs.Packs.{PacksAlone, PackedAlone};

/// Over records that a start has read, with enough providers, there is a state that was just opened, in which
/// they are the whole history.
pub fn opened_states()
    ensures { (old : Seen) (records : List Record) (faults : ℕ) → (opened : opens.IsOpened old records)
        → (w : State) × IsJustOpened w opened.area records 1 faults old.providers × (w.records ≡ records) }
{}

/// What a job of any kind leaves whose command tells of its run.
pub fn told_jobs_leave()
    ensures { (records : List Record) (kind : Kind) (own : Option ℕ) (answer : Answer) (old new : Seen)
        (heard : List Entry) → (opened : opens.IsOpened old records) →
        IsSpelledKind kind → MayName kind own → length new.providers ≡ length old.providers
        → RunsAlone opened.area records kind own answer old new heard →
        LeftAlone opened.area records kind own answer old new heard }
{}

/// What a put leaves that stops before its last append, and whose command tells of its run.
pub fn told_parts_leave()
    ensures { (records : List Record) (name bytes : List ℕ) (own : Option ℕ) (old new : Seen)
        → (opened : opens.IsOpened old records) →
        IsSpelledKind (PutJob name bytes) → MayName (PutJob name bytes) own
        → length new.providers ≡ length old.providers → PartRuns opened.area records name bytes own old new →
        PartLeft opened.area records name bytes own old new }
{}

/// What a pack leaves whose command tells of its run.
pub fn told_packs_leave()
    ensures { (records : List Record) (answer : Answer) (old new : Seen)
        → (opened : opens.IsOpened old records) → length new.providers ≡ length old.providers
        → PacksAlone opened.area records answer old new → PackedAlone opened.area records answer old new }
{}
