//! Laws of jobs that go by turns.
ghost use Rattle.std.specs.Prelude.{◌≡◌, ℕ, List, Option};
ghost use Rattle.device_defs.specs.Images.{EachImage};
ghost use Rattle.record_defs.specs.Records.{Record};
ghost use Rattle.record_defs.specs.Areas.{Area, StandsActive};
ghost use Rattle.machine_defs.specs.Answers.{Answer};
ghost use Rattle.machine_defs.specs.Events.{Ended};
ghost use Rattle.machine_defs.specs.Heard.{Entry};
ghost use Rattle.machine_defs.specs.Jobs.{Kind};
ghost use Rattle.machine_defs.specs.States.{State};
ghost use Rattle.opening_defs.specs.Opened.{IsJustOpened};
ghost use Rattle.command_defs.specs.Jobs.{RunsAlone};
ghost use Rattle.command_defs.specs.Seen.{Seen};
ghost use Rattle.made_runs.specs.Turns.{Turn, told};
ghost use Rattle.turn_laws.specs.Turned.{MayBegin, GoesSo};

/// A job runs alone that goes by turns from every state just opened, and leaves what is seen.
pub fn jobs_by_turns_run_alone()
    ensures { (area : Area) (rs : List Record) (kind : Kind) (own : Option ℕ) (answer : Answer)
        (old new : Seen) (heard : List Entry) (see : (ℕ → List ℕ) → ℕ → List ℕ) (after : List Record)
        (turns : List Turn) (final : Turn) → told final ≡ Ended answer
        → ((w : State) → IsJustOpened w area rs 1 0 old.providers → see w.bytes ≡ w.bytes)
        → MayBegin area rs kind own old → EachImage new.disk (λ image. StandsActive image area after)
        → GoesSo area rs kind own answer old new heard see after turns final
        (RunsAlone area rs kind own answer old new heard) }
{}
