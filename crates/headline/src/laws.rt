//! The main theorem of every run.
ghost use Rattle.std.specs.Prelude.{ℕ, List};
ghost use Rattle.machine_defs.specs.States.{State, IsStart};
ghost use Rattle.machine_defs.specs.Runs.{Moment, IsRun};
ghost use Rattle.headline.specs.Headline.{Headline};

/// The headline, of every run from a start at every limit of running jobs.
pub fn every_run_keeps_the_headline()
    ensures { (limit : ℕ) (start : State) (ms : List Moment) → IsStart start → IsRun limit start ms
        → Headline start ms }
{}
