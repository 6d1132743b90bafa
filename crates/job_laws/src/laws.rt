//! What a job leaves that runs alone, from a state whose vault was just opened.
ghost use Rattle.std.specs.Prelude.{ℕ, List, Option, None};
ghost use Rattle.machine_defs.specs.Jobs.{Kind, AuditJob, RepairJob};
ghost use Rattle.machine_defs.specs.Answers.{Answer};
ghost use Rattle.machine_defs.specs.Events.{IsSpelledKind};
ghost use Rattle.machine_defs.specs.States.{State};
ghost use Rattle.machine_defs.specs.Heard.{Entry};
ghost use Rattle.command_defs.specs.Ran.{ran_from};
ghost use Rattle.opening_defs.specs.Opened.{IsOpenAtRest};
ghost use Rattle.lone_laws.specs.Walked.{MayName};
ghost use Rattle.command_defs.specs.JobRuns.{RunsJob};
ghost use Rattle.command_defs.specs.Jobs.{Leaves};

/// What an audit leaves, however it ends.
pub fn audits_leave()
    ensures { (w new : State) (moment : ℕ) (answer : Answer) (heard : List Entry) → IsOpenAtRest w 1
        → RunsJob w moment AuditJob None answer heard new →
        Leaves (ran_from w new heard) AuditJob None answer }
{}

/// What a repair leaves, however it ends.
pub fn repairs_leave()
    ensures { (w new : State) (moment : ℕ) (answer : Answer) (heard : List Entry) → IsOpenAtRest w 1
        → RunsJob w moment RepairJob None answer heard new →
        Leaves (ran_from w new heard) RepairJob None answer }
{}

/// What a job of any kind leaves, however it ends.
pub fn jobs_leave()
    ensures { (w new : State) (moment : ℕ) (kind : Kind) (own : Option ℕ) (answer : Answer)
        (heard : List Entry) → IsOpenAtRest w 1 → IsSpelledKind kind → MayName kind own →
        RunsJob w moment kind own answer heard new → Leaves (ran_from w new heard) kind own answer }
{}
