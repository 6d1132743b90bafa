//! Concrete values that meet what the laws suppose: the run with damage, its audit and its repair.
ghost use Rattle.std.specs.Prelude.{◌≡◌, ◌⊎◌, ℕ, List, [], ◌∷◌, ◌++◌, Some, true, false};
ghost use Rattle.record_defs.specs.Acceptance.{AreAccepted};
ghost use Rattle.record_defs.specs.Packed.{AreAlike};
ghost use Rattle.record_defs.specs.Records.{PutDone};
ghost use Rattle.record_defs.specs.Table.{Due, due_of};
ghost use Rattle.column_defs.specs.Verdicts.{Sums};
ghost use Rattle.machine_defs.specs.Audits.{HasSums};
ghost use Rattle.machine_defs.specs.States.{Doubt};
ghost use Rattle.damage_run.specs.Words.{setup_in, RepairJob, set_up, Moment, IsRun, now, since, IsMarkedRun};
ghost use Rattle.machine_defs.specs.Answers.{Repaired, Memory};
ghost use Rattle.machine_defs.specs.Events.{Begin, Step, Names, Begun, Ended, Listed, Closed};
ghost use Rattle.machine_defs.specs.Began.{NoneBegan};
ghost use Rattle.damage_run.specs.Schedule.{name, IsOutright};
ghost use Rattle.damage_run.specs.SecondLoss.{MovesMark};
ghost use Rattle.outcome_laws.specs.RunEnds.{NoneRose, TellsAudit};

use crate::laws::{
    audits_tell_their_sums, calm_repairs_end_well, doubted_journals_are_alike,
    listings_give_the_files,
};

/// Behind the run with damage a list gives its one file; before the first event it is closed.
pub fn a_list_is_given()
    ensures opened { (ms : List Moment) × (m : Moment) × IsOutright ms × IsRun 8 set_up (m ∷ ms)
        × (m.event ≡ Names) × ((now set_up ms).is_open ≡ true)
        × (m.outcome ≡ Listed (record { name = name; id = 1; size = 1; profile = 0 } ∷ [])) }
    ensures closed { (m : Moment) × IsRun 8 set_up (m ∷ []) × (m.event ≡ Names) × (set_up.is_open ≡ false)
        × (m.outcome ≡ Closed) }
{
    listings_give_the_files();
}

/// No count rises in the repair of that run, so it says its number or found no memory.
pub fn no_count_rises_in_the_repair()
    ensures { (m : Moment) × (b : Moment) × (between : List Moment) × (older : List Moment)
        × IsMarkedRun 8 (since set_up) set_up (m ∷ (between ++ b ∷ older)) × (b.event ≡ Begin RepairJob)
        × (b.outcome ≡ Begun 4) × NoneBegan 4 between × (m.event ≡ Step 4) × (m.outcome ≡ Ended (Repaired 1))
        × NoneRose (now set_up older) m.state
        × (((due : Due) × (due_of (now set_up older).records ≡ Some due) × (Repaired 1 ≡ Repaired due.number))
        ⊎ (Repaired 1 ≡ Memory)) }
{
    calm_repairs_end_well();
}

/// In the run with damage the audit tells its sums, which are the only ones, and the repair says the number
/// of the audit that is due.
pub fn an_audit_and_its_repair_end()
    ensures audit { (later recent older : List Moment) → (h : MovesMark later recent older)
        → TellsAudit set_up older (h.mended.auditing ++ h.mended.audit_begin ∷ older) h.mended.number
        h.mended.undecided h.mended.counts }
    ensures one { (later recent older : List Moment) → (h : MovesMark later recent older)
        → (t : TellsAudit set_up older (h.mended.auditing ++ h.mended.audit_begin ∷ older) h.mended.number
        h.mended.undecided h.mended.counts) → (sums : Sums)
        → HasSums (setup_in (now set_up (h.mended.auditing ++ h.mended.audit_begin ∷ older))) t.job sums
        → sums ≡ record { counts = h.mended.counts; undecided = h.mended.undecided } }
    ensures repair { (later recent older : List Moment) → (h : MovesMark later recent older)
        → (due : Due) × (due_of (now set_up (h.mended.between
        ++ h.mended.audit_end ∷ (h.mended.auditing ++ h.mended.audit_begin ∷ older))).records ≡ Some due)
        × (h.mended.number ≡ due.number) }
{
    audits_tell_their_sums();
    calm_repairs_end_well();
}

/// In the run with damage the end of the put is in doubt before its last move: journal and history are alike
/// with it.
pub fn a_put_in_doubt_is_alike()
    ensures { (ms : List Moment) × (doubt : Doubt) × IsRun 8 set_up ms
        × ((now set_up ms).doubt ≡ Some doubt) × (doubt.entry ≡ PutDone 1 1)
        × AreAccepted (doubt.entry ∷ (now set_up ms).journal)
        × AreAlike (doubt.entry ∷ (now set_up ms).journal) (doubt.entry ∷ (now set_up ms).records) }
{
    doubted_journals_are_alike();
}
