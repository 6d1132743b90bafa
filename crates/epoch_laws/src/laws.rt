//! Who may be damaged behind a scrub, or behind an audit and its repair, and what providers hold then.
ghost use Rattle.std.specs.Prelude.{◌≡◌, ◌≤◌, ◌∷◌, ◌++◌, ℕ, true, List, length, Some, is_some};
ghost use Rattle.record_defs.specs.Table.{setup_of};
ghost use Rattle.machine_defs.specs.Answers.{Answer};
ghost use Rattle.machine_defs.specs.Calm.{Mark, since};
ghost use Rattle.machine_defs.specs.Damaged.{DamagesOnly};
ghost use Rattle.machine_defs.specs.Halves.{AllTell};
ghost use Rattle.machine_defs.specs.Runs.{Moment, IsRun, now};
ghost use Rattle.machine_defs.specs.Scrubs.{IsScrubCalm, scrubbed};
ghost use Rattle.machine_defs.specs.States.{State, Scrub, Scrubbing, IsStart, setup_in};
ghost use Rattle.machine_defs.specs.Untouched.{Relies, NoneUnderWay};
ghost use Rattle.second_half_laws.specs.Epochs.{moved_mark};
ghost use Rattle.second_half_laws.specs.Flagging.{FindsAll};
ghost use Rattle.second_half_laws.specs.MarkedRuns.{IsMarkedRun, IsCalmRun};
ghost use Rattle.second_half_laws.specs.Mended.{IsMended};
ghost use Rattle.second_half_laws.specs.Sharp.{GivesOrIsLost};
ghost use Rattle.run_laws.specs.Stories.{GetEnds};
ghost use Rattle.epoch_laws.specs.Epochs.{IsSwept, AreExactBut, AreRightBut};
ghost use Rattle.epoch_laws.specs.Sweeping.{HasSweptSoFar};

use second_half_laws::laws::{few_damaged_providers_leave_runs_calm, flagging_audits_miss_none};

/// Behind a scrub that ended well others may go: where a run was calm, counted from finished scrubs, up to the
/// end of a scrub, and the alter and lose events since its begin name at most b providers, whoever was damaged
/// before, it is so on from there. Each provider that these do not name holds its own blocks exactly.
pub fn scrubs_begin_epochs()
    ensures first { (limit : ℕ) (start : State) (ms : List Moment) (ps : List ℕ) → IsStart start
        → IsRun limit start ms → DamagesOnly ps ms → length ps ≤ (setup_in (now start ms)).b
        → IsScrubCalm start ms }
    ensures mark { (limit : ℕ) (start : State) (older ms : List Moment) → IsStart start → IsRun limit start ms
        → IsSwept older ms → scrubbed start ms ≡ length older }
    ensures calm { (limit : ℕ) (start : State) (later recent older : List Moment) (qs : List ℕ)
        → IsStart start → IsRun limit start (later ++ (recent ++ older)) → IsScrubCalm start (recent ++ older)
        → IsSwept older (recent ++ older) → DamagesOnly qs (later ++ recent)
        → length qs ≤ (setup_in (now start (later ++ (recent ++ older)))).b
        → IsScrubCalm start (later ++ (recent ++ older)) }
    ensures exact { (limit : ℕ) (start : State) (later recent older : List Moment) (qs : List ℕ)
        → IsStart start → AllTell start → IsRun limit start (later ++ (recent ++ older))
        → IsScrubCalm start (later ++ (recent ++ older)) → IsSwept older (recent ++ older)
        → DamagesOnly qs (later ++ recent) → AreExactBut qs (now start (later ++ (recent ++ older))) }
{}

/// A scrub while it runs, in a run of providers that tell, calm counted from finished scrubs: it works on each file
/// in effect, has opened its stripes to the file's own symbols, and stores own blocks. Who was not replaced since
/// its begin holds what was fetched from it, or its own block by now; and of a stripe that the scrub has not to do any
/// more, its own block exactly.
pub fn running_scrubs_have_swept()
    ensures { (limit : ℕ) (start : State) (ms : List Moment) (scrub : Scrub) → IsStart start → AllTell start
        → IsRun limit start ms → IsScrubCalm start ms → (now start ms).alone ≡ Some (Scrubbing scrub)
        → HasSweptSoFar start ms scrub }
{}

/// Behind an audit and its repair that ended well others may go: in a calm run in which no audit missed damage,
/// while no get and no repair is under way at the repair's end, it is calm by the audit's begin from there, where
/// the alter and lose events since that begin name at most b providers. No provider that these do not name is
/// wrong. Calm it is, and no audit missed damage, where those who were named are few, and one audit flagged them.
pub fn repairs_begin_epochs()
    ensures calm { (limit : ℕ) (start : State) (ms : List Moment) (ps : List ℕ) → IsStart start
        → AllTell start → IsRun limit start ms → DamagesOnly ps ms → length ps ≤ (setup_in (now start ms)).b
        → FindsAll (setup_in (now start ms)).tolerance ps ms → IsCalmRun limit start ms }
    ensures marked { (limit : ℕ) (start : State) (later recent older : List Moment) (qs : List ℕ)
        → IsCalmRun limit start (recent ++ older) → IsMended older (recent ++ older)
        → NoneUnderWay Relies (recent ++ older) → IsRun limit start (later ++ (recent ++ older))
        → DamagesOnly qs (later ++ recent)
        → length qs ≤ (setup_in (now start (later ++ (recent ++ older)))).b
        → IsMarkedRun limit (moved_mark (length (recent ++ older)) (length older) (since start)) start
        (later ++ (recent ++ older)) }
    ensures right { (limit : ℕ) (start : State) (later recent older : List Moment) (qs : List ℕ)
        → IsCalmRun limit start (recent ++ older) → IsMended older (recent ++ older)
        → NoneUnderWay Relies (recent ++ older) → IsRun limit start (later ++ (recent ++ older))
        → DamagesOnly qs (later ++ recent)
        → length qs ≤ (setup_in (now start (later ++ (recent ++ older)))).b
        → AreRightBut qs (now start (later ++ (recent ++ older))) }
{
    few_damaged_providers_leave_runs_calm();
    flagging_audits_miss_none();
}

/// In a run that is calm by a mark a get, told by its begin and its end, gave the bytes that stood under its name at
/// its begin, or is lost by calls of providers that failed.
pub fn gets_give_what_stood()
    ensures { (limit : ℕ) (mark : Mark) (start : State) (ms gaps : List Moment) (c g : Moment) (get : ℕ)
        (name : List ℕ) (how : Answer) → IsMarkedRun limit mark start (g ∷ (gaps ++ c ∷ ms))
        → GetEnds c gaps g get name how → GivesOrIsLost (now start ms) g.state name how }
{}

/// A setup in effect stays so: behind a moment at which one is, how many providers may be wrong, and the tolerance, are
/// those of that moment.
pub fn setups_in_effect_stay()
    ensures { (limit : ℕ) (start : State) (later ms : List Moment) → IsStart start
        → IsRun limit start (later ++ ms) → is_some (setup_of (now start ms).records) ≡ true
        → setup_in (now start (later ++ ms)) ≡ setup_in (now start ms) }
{}
