//! Worked rows: values of the definitions, computed by the checker.
ghost use Rattle.std.specs.Prelude.{◌≡◌, true, [], ◌∷◌, ◌++◌, length, codes, replicate, Some, None};
ghost use Rattle.record_defs.specs.Records.{SetUp, PutStart, PutDone};
ghost use Rattle.machine_defs.specs.Jobs.{PutJob, GetJob, DropJob, AuditJob, RepairJob};
ghost use Rattle.machine_defs.specs.Actions.{WriteBody, SyncBody, WriteGate, SyncGate, Store, Fetch, Work, End, actions_of};
ghost use Rattle.machine_defs.specs.Left.{left_alone, most_left};
ghost use Rattle.machine_defs.specs.Steps.{next_action};
ghost use Rattle.machine_defs.specs.Space.{reserved};
ghost use Rattle.machine_defs.specs.Begins.{begin_refusal};
ghost use Rattle.machine_defs.specs.Sights.{sight_of, names_taken};
ghost use Rattle.machine_defs.specs.Refusals.{MustReopen, Busy, BadName, NoSuchName, RepairDue, NothingDue, BadJournal};
ghost use Rattle.machine_defs.specs.Answers.{Got, Audited};
ghost use Rattle.machine_defs.specs.Events.{Refused, Waiting, Ended, Listed, Continued};
ghost use Rattle.machine_defs.specs.Lines.{lines_of};
ghost use Rattle.machine_defs.specs.Examples.{six, opened, one_file, flagged_file, hundred, beginning_job};

/// How many actions jobs have, those of a repair in order, and the first one of a drop.
#[tactic(auto, unfolding(crate::specs::Actions::actions_of, crate::specs::States::setup_in))]
pub fn actions()
    ensures put { length (actions_of six
        (beginning_job (opened (SetUp six ∷ []) []) (PutJob (codes "notes.txt") hundred))) ≡ 15 }
    ensures put_of_nothing { length (actions_of six (beginning_job (opened (SetUp six ∷ []) [])
        (PutJob (codes "empty") []))) ≡ 9 }
    ensures get { length (actions_of six
        (beginning_job (opened one_file hundred) (GetJob (codes "notes.txt")))) ≡ 8 }
    ensures audit { length (actions_of six (beginning_job (opened one_file hundred) AuditJob)) ≡ 33 }
    ensures audit_of_nothing { length
        (actions_of six (beginning_job
        (opened (PutDone 1 0 ∷ PutStart 1 (codes "empty") ∷ SetUp six ∷ []) []) AuditJob)) ≡ 9 }
    ensures repair { actions_of six (beginning_job (opened flagged_file hundred) RepairJob)
        ≡ Fetch 0 1 0 ∷ Fetch 1 1 0 ∷ Fetch 2 1 0 ∷ Fetch 3 1 0 ∷ Fetch 4 1 0 ∷ Fetch 5 1 0 ∷ Work 1 0
        ∷ Store 0 1 0
        ∷ WriteBody ∷ SyncBody ∷ WriteGate ∷ SyncGate ∷ End ∷ [] }
    ensures idle_drop { next_action (opened one_file hundred)
        (beginning_job (opened one_file hundred) (DropJob (codes "a"))) ≡ Some End }
    ensures drop { next_action (opened one_file hundred)
        (beginning_job (opened one_file hundred) (DropJob (codes "notes.txt"))) ≡ Some WriteBody }
{}

/// Steps left: alone, and at most.
#[tactic(auto, unfolding(crate::specs::Actions::actions_of, crate::specs::States::setup_in))]
pub fn steps_left()
    ensures put_alone { left_alone (opened (SetUp six ∷ []) [])
        (beginning_job (opened (SetUp six ∷ []) []) (PutJob (codes "notes.txt") hundred)) ≡ 15 }
    ensures put_at_most { most_left six
        (beginning_job (opened (SetUp six ∷ []) []) (PutJob (codes "notes.txt") hundred)) ≡ 21 }
    ensures put_over { left_alone (opened one_file hundred)
        (beginning_job (opened one_file hundred) (PutJob (codes "notes.txt") hundred)) ≡ 21 }
    ensures repair_alone { left_alone (opened flagged_file hundred)
        (beginning_job (opened flagged_file hundred) RepairJob) ≡ 13 }
    ensures repair_at_most { most_left six (beginning_job (opened flagged_file hundred) RepairJob) ≡ 13 }
    ensures idle_drop { left_alone (opened one_file hundred)
        (beginning_job (opened one_file hundred) (DropJob (codes "a"))) ≡ 1 }
{}

/// The room that a put reserves at its begin, once its first record is in effect, and once both are.
#[tactic(auto, unfolding(crate::specs::Actions::actions_of, crate::specs::States::setup_in))]
pub fn room()
    ensures begun { reserved 1 six (beginning_job (opened (SetUp six ∷ []) []) (PutJob (codes "a") hundred))
        ≡ 26 }
    ensures started { reserved 1 six (record (beginning_job (opened (SetUp six ∷ []) [])
        (PutJob (codes "a") hundred)) { place = 4 }) ≡ 14 }
    ensures done { reserved 1 six (record (beginning_job (opened (SetUp six ∷ []) [])
        (PutJob (codes "a") hundred)) { place = 14 }) ≡ 0 }
{}

/// Refusals of begins, with limits of one job and of eight, and the names that are taken.
#[tactic(auto, unfolding(crate::specs::Actions::actions_of, crate::specs::States::setup_in))]
pub fn refusals()
    ensures bad_name { begin_refusal 1 (opened one_file hundred) (PutJob (codes "a/b") []) ≡ Some BadName }
    ensures no_such_name { begin_refusal 1 (opened one_file hundred) (GetJob (codes "nope"))
        ≡ Some NoSuchName }
    ensures repair_due { begin_refusal 1 (opened flagged_file hundred) AuditJob ≡ Some RepairDue }
    ensures nothing_due { begin_refusal 1 (opened one_file hundred) RepairJob ≡ Some NothingDue }
    ensures busy { begin_refusal 1
        (record (opened one_file
        hundred) { jobs = beginning_job (opened one_file hundred) (GetJob (codes "notes.txt")) ∷ [] })
        (PutJob (codes "a") []) ≡ Some Busy }
    ensures must_reopen { begin_refusal 1 (record (opened one_file hundred) { is_barred = true })
        (GetJob (codes "nope")) ≡ Some MustReopen }
    ensures put_runs { begin_refusal 8
        (record (opened one_file
        hundred) { jobs = beginning_job (opened one_file hundred) (PutJob (codes "a") []) ∷ [] })
        AuditJob ≡ Some Busy }
    ensures audit_runs { begin_refusal 8
        (record (opened one_file hundred) { jobs = beginning_job (opened one_file hundred) AuditJob ∷ [] })
        (PutJob (codes "a") hundred) ≡ None }
    ensures names { names_taken (sight_of
        (record (opened one_file
        hundred) { jobs = beginning_job (opened one_file hundred) (PutJob (codes "a") []) ∷ [] }))
        ≡ codes "a" ∷ codes "notes.txt" ∷ [] }
{}

/// Lines.
pub fn lines()
    ensures got { lines_of (Ended (Got (111 ∷ 108 ∷ 100 ∷ []))) ≡ codes "got 6f6c64" ++ 10 ∷ [] }
    ensures got_nothing { lines_of (Ended (Got [])) ≡ codes "got -" ++ 10 ∷ [] }
    ensures audited { lines_of (Ended (Audited 1 0 (4 ∷ 0 ∷ [])))
        ≡ codes "audited 1 undecided 0 counts 4 0" ++ 10 ∷ [] }
    ensures bad_journal { lines_of (Refused (BadJournal 9)) ≡ codes "refused BadJournal 9" ++ 10 ∷ [] }
    ensures waiting { lines_of (Waiting 1) ≡ codes "waiting 1" ++ 10 ∷ [] }
    ensures names { lines_of (Listed (record { name = codes "a"; id = 3; size = 2; profile = 0 } ∷ []))
        ≡ codes "names 1" ++ 10 ∷ codes "a 2" ++ 10 ∷ [] }
    ensures continued { lines_of Continued ≡ [] }
{}
