//! A job that runs alone: its begin, its steps, and its last one.
ghost use Rattle.std.specs.Prelude.{◌≡◌, ℕ, Option, Some, None};
ghost use Rattle.machine_defs.specs.Jobs.{Kind, Job, job_of};
ghost use Rattle.machine_defs.specs.Actions.{Action};
ghost use Rattle.machine_defs.specs.Answers.{Answer};
ghost use Rattle.machine_defs.specs.Events.{Step, Begun, More, Ended, IsSpelledKind};
ghost use Rattle.machine_defs.specs.States.{State, setup_in};
ghost use Rattle.machine_defs.specs.Begins.{chosen, BeginsAt};
ghost use Rattle.machine_defs.specs.Steps.{next_action, holder_of, Acts};
ghost use Rattle.machine_defs.specs.Machine.{Happens};
ghost use Rattle.opening_defs.specs.Opened.{IsOpenAtRest};
ghost use Rattle.lone_laws.specs.Walked.{MayName, WalkedAt};

/// A job that begins in a state whose vault was just opened has made no step; a put has the profile that it
/// names, and else the setup's.
pub fn begins_walk()
    ensures { (moment number : ℕ) (start new : State) (kind : Kind) (own : Option ℕ) → IsOpenAtRest start 1
        → IsSpelledKind kind → MayName kind own →
        BeginsAt 8 moment start kind own (Begun number) new
        → (job : Job) × (number ≡ 1) × WalkedAt start kind (chosen (setup_in start) own) new job }
{}

/// A step that goes on goes one on.
pub fn steps_walk()
    ensures { (moment profile : ℕ) (start w new : State) (kind : Kind) (job : Job) → IsOpenAtRest start 1
        → WalkedAt start kind profile w job →
        Happens 8 moment w (Step 1) More new → (next : Job) × WalkedAt start kind profile new next }
{}

/// A step that ends the job makes its next action.
pub fn last_steps_act()
    ensures { (moment profile : ℕ) (start w new : State) (kind : Kind) (job : Job) (answer : Answer)
        → IsOpenAtRest start 1 → WalkedAt start kind profile w job →
        Happens 8 moment w (Step 1) (Ended answer) new →
        (job_of w.jobs 1 ≡ Some job)
        × ((action : Action) × (next_action w job ≡ Some action) × (holder_of w.append action ≡ None)
        × Acts w job action (Ended answer) new) }
{}
