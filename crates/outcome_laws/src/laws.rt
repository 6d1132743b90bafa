//! Laws over runs on outcomes: what a list of the names, a repair and an audit answer.
ghost use Rattle.std.specs.Prelude.{◌≡◌, ◌⊎◌, ℕ, List, ◌∷◌, ◌++◌, Some, true, false};
ghost use Rattle.hail_field.specs.Shape.{IsShape};
ghost use Rattle.column_defs.specs.Verdicts.{Sums};
ghost use Rattle.record_defs.specs.Acceptance.{AreAccepted};
ghost use Rattle.record_defs.specs.Packed.{AreAlike};
ghost use Rattle.record_defs.specs.Records.{Setup};
ghost use Rattle.record_defs.specs.Table.{Due, due_of, files_of};
ghost use Rattle.machine_defs.specs.Jobs.{AuditJob, RepairJob, Job};
ghost use Rattle.machine_defs.specs.Audits.{HasSums};
ghost use Rattle.machine_defs.specs.Answers.{Answer, Repaired, Memory};
ghost use Rattle.machine_defs.specs.Events.{Begin, Step, Names, Begun, Ended, Listed, Closed};
ghost use Rattle.machine_defs.specs.States.{State, Doubt, IsStart};
ghost use Rattle.machine_defs.specs.Runs.{Moment, IsRun, now};
ghost use Rattle.machine_defs.specs.Calm.{Mark};
ghost use Rattle.machine_defs.specs.Began.{NoneBegan};
ghost use Rattle.state_laws.specs.Sound.{IsLimit};
ghost use Rattle.second_half_laws.specs.MarkedRuns.{IsMarkedRun, IsCalmRun};
ghost use Rattle.outcome_laws.specs.RunEnds.{NoneRose, EndsRepair, EndsAudit};

/// A list of the names gives, while a vault is open, the files in effect of the records before it, in byte
/// order of their names; and where none is open it is closed.
pub fn listings_give_the_files()
    ensures opened { (limit : ℕ) (start : State) (m : Moment) (ms : List Moment) → IsRun limit start (m ∷ ms)
        → m.event ≡ Names → (now start ms).is_open ≡ true
        → m.outcome ≡ Listed (files_of (now start ms).records) }
    ensures closed { (limit : ℕ) (start : State) (m : Moment) (ms : List Moment) → IsRun limit start (m ∷ ms)
        → m.event ≡ Names → (now start ms).is_open ≡ false → m.outcome ≡ Closed }
{}

/// In a calm run in which no audit missed damage a repair that a step ends was for the audit that was due at
/// its begin, and says its number; or it is lost, and the count of failed fetches, asks and removals of a
/// provider rose since that begin; or the count of the disk, or of the stores of the provider that it names,
/// rose in that step; or it found no memory. So it is of each run that is calm by a mark; and where no count
/// rose since the begin, such a repair says that number or found no memory.
pub fn calm_repairs_end_well()
    ensures marked { (limit : ℕ) (mark : Mark) (start : State) (between older : List Moment) (m b : Moment)
        (number : ℕ) (answer : Answer) → IsMarkedRun limit mark start (m ∷ (between ++ b ∷ older))
        → b.event ≡ Begin RepairJob → b.outcome ≡ Begun number → NoneBegan number between
        → m.event ≡ Step number → m.outcome ≡ Ended answer
        → EndsRepair (now start older) (now start (between ++ b ∷ older)) m.state answer }
    ensures unfailed { (limit : ℕ) (mark : Mark) (start : State) (between older : List Moment) (m b : Moment)
        (number : ℕ) (answer : Answer) → IsMarkedRun limit mark start (m ∷ (between ++ b ∷ older))
        → b.event ≡ Begin RepairJob → b.outcome ≡ Begun number → NoneBegan number between
        → m.event ≡ Step number → m.outcome ≡ Ended answer → NoneRose (now start older) m.state
        → ((due : Due) × (due_of (now start older).records ≡ Some due) × (answer ≡ Repaired due.number))
        ⊎ (answer ≡ Memory) }
    ensures calm { (limit : ℕ) (start : State) (between older : List Moment) (m b : Moment) (number : ℕ)
        (answer : Answer) → IsCalmRun limit start (m ∷ (between ++ b ∷ older)) → b.event ≡ Begin RepairJob
        → b.outcome ≡ Begun number → NoneBegan number between → m.event ≡ Step number
        → m.outcome ≡ Ended answer
        → EndsRepair (now start older) (now start (between ++ b ∷ older)) m.state answer }
{}

/// In every run an audit that a step ends says the number that it drew, and the sums to which what its
/// asks gave, of the files in effect at its begin, is judged; or the count of the disk rose in that step, or
/// it found no memory. The sums hang on nothing else: those of two audits of one number, of the same files
/// and of the same answers, are one.
pub fn audits_tell_their_sums()
    ensures ends { (limit : ℕ) (start : State) (between older : List Moment) (m b : Moment) (number : ℕ)
        (answer : Answer) → IsStart start → IsRun limit start (m ∷ (between ++ b ∷ older))
        → b.event ≡ Begin AuditJob → b.outcome ≡ Begun number → NoneBegan number between
        → m.event ≡ Step number → m.outcome ≡ Ended answer
        → EndsAudit start older (between ++ b ∷ older) m.state answer }
    ensures one { (s : Setup) (x y : Job) (a b : Sums) → IsShape s.n s.l s.b → x.pinned ≡ y.pinned
        → x.subject ≡ y.subject → x.given ≡ y.given → HasSums s x a → HasSums s y b → a ≡ b }
{}

/// While a record is in doubt, the journal that the disk holds and the history stay alike with it on top: the
/// journal accepts it, and however it is settled, a pack loses nothing that a state says.
pub fn doubted_journals_are_alike()
    ensures accepted { (limit : ℕ) (start : State) (ms : List Moment) (doubt : Doubt) → IsLimit limit
        → IsStart start → IsRun limit start ms → (now start ms).doubt ≡ Some doubt
        → AreAccepted (doubt.entry ∷ (now start ms).journal) }
    ensures alike { (limit : ℕ) (start : State) (ms : List Moment) (doubt : Doubt) → IsLimit limit
        → IsStart start → IsRun limit start ms → (now start ms).doubt ≡ Some doubt
        → AreAlike (doubt.entry ∷ (now start ms).journal) (doubt.entry ∷ (now start ms).records) }
{}
