//! Laws of sound states: events leave them sound, and what they give to a core and a vault.
ghost use Rattle.std.specs.Prelude.{◌≡◌, ℕ, ◌^◌, ◌<◌, ◌≤◌, true, false, IsTrue, List, [], ◌∷◌, length, None, Some};
ghost use Rattle.std.specs.List.{All, list_all};
ghost use Rattle.hail_field.specs.Shape.{IsShape};
ghost use Rattle.column_defs.specs.Verdicts.{Sums};
ghost use Rattle.record_defs.specs.Records.{Record, Setup, SetUp, Version, Resume, is_name, is_appended, is_in_grammar, largest_file, largest_journal, most_files};
ghost use Rattle.record_defs.specs.Table.{File, setup_of, version_of, next_id, next_audit, files_of};
ghost use Rattle.record_defs.specs.Acceptance.{AreAccepted};
ghost use Rattle.record_defs.specs.Packed.{AreAlike};
ghost use Rattle.record_defs.specs.Areas.{B};
ghost use Rattle.record_defs.specs.Examples.{four};
ghost use Rattle.machine_defs.specs.Jobs.{Kind, aim_of, Job, job_of};
ghost use Rattle.machine_defs.specs.Actions.{Action, WriteBody};
ghost use Rattle.machine_defs.specs.Events.{Event, Outcome, IsSpelled, AreBytes};
ghost use Rattle.machine_defs.specs.States.{State, Append, IsStart, setup_in, file_in};
ghost use Rattle.machine_defs.specs.Sights.{sight_of, are_numbers_used_up};
ghost use Rattle.machine_defs.specs.Audits.{HasSums};
ghost use Rattle.machine_defs.specs.Appends.{Writes, IsAt};
ghost use Rattle.machine_defs.specs.Steps.{next_action};
ghost use Rattle.machine_defs.specs.Machine.{Happens};
ghost use Rattle.machine_defs.specs.Runs.{Moment, IsRun, now};
ghost use Rattle.machine_defs.specs.Examples.{set_up};
ghost use Rattle.state_laws.specs.Orders.{moves_before};
ghost use Rattle.state_laws.specs.Follows.{MayFollowIn};
ghost use Rattle.state_laws.specs.SoundJobs.{IsPlainJob};
ghost use Rattle.state_laws.specs.Sound.{IsLimit, IsSound, IsAtRest};

/// A state before the first event is sound.
pub fn start_is_sound()
    ensures { (limit : ℕ) (w : State) → IsStart w → IsSound limit w }
{}

/// A state at rest is sound, whether a vault is open or not.
pub fn rest_is_sound()
    ensures { (limit : ℕ) (w : State) → IsAtRest w → IsSound limit w }
{}

/// Each event leaves a sound state sound, where 1 to 31 jobs can run: the last numbers then suffice for each
/// put that a begin lets in.
pub fn sound_states_stay_sound()
    ensures { (limit moment : ℕ) (old new : State) (event : Event) (outcome : Outcome) → IsLimit limit
        → IsSpelled event → IsSound limit old →
        Happens limit moment old event outcome new → IsSound limit new }
{}

/// So every state of a run from a start is sound.
pub fn runs_are_sound()
    ensures { (limit : ℕ) (start : State) (ms : List Moment) → IsLimit limit → IsStart start
        → IsRun limit start ms → IsSound limit (now start ms) }
{}

/// A setup in effect is in the grammar, so its providers are a shape; while a vault is open there is one.
pub fn setup_is_valid()
    ensures in_effect { (limit : ℕ) (w : State) (s : Setup) → IsSound limit w → setup_of w.records ≡ Some s
        → IsTrue (is_in_grammar (SetUp s)) }
    ensures opened { (limit : ℕ) (w : State) → IsSound limit w → w.is_open ≡ true
        → setup_of w.records ≡ Some (setup_in w) }
    ensures grammar { (limit : ℕ) (w : State) → IsSound limit w → w.is_open ≡ true
        → IsTrue (is_in_grammar (SetUp (setup_in w))) }
    ensures shape { (limit : ℕ) (w : State) → IsSound limit w → w.is_open ≡ true
        → IsShape (setup_in w).n (setup_in w).l (setup_in w).b }
{}

/// A file in effect has a name of the grammar, at most 2^22 bytes and a number that was drawn.
pub fn files_are_fit()
    ensures name { (limit : ℕ) (w : State) (name : List ℕ) (file : File) → IsSound limit w
        → file_in w name ≡ Some file → IsTrue (is_name name) }
    ensures size { (limit : ℕ) (w : State) (name : List ℕ) (file : File) → IsSound limit w
        → file_in w name ≡ Some file → file.size ≤ largest_file }
    ensures drawn { (limit : ℕ) (w : State) (name : List ℕ) (file : File) → IsSound limit w
        → file_in w name ≡ Some file →
        file.id < next_id w.records }
    ensures few { (limit : ℕ) (w : State) → IsSound limit w → length (files_of w.records) ≤ most_files }
{}

/// The next object number and the next audit number fit 64 bits. While no record of a journal is a packed one
/// they are far from their end: no begin is refused for them.
pub fn numbers_are_small()
    ensures objects { (limit : ℕ) (w : State) → IsSound limit w → next_id w.records < 2 ^ 64 }
    ensures audits { (limit : ℕ) (w : State) → IsSound limit w → next_audit w.records < 2 ^ 64 }
    ensures appended_objects { (limit : ℕ) (w : State) → IsSound limit w
        → IsTrue (list_all is_appended w.journal) → next_id w.records ≤ largest_journal }
    ensures appended_audits { (limit : ℕ) (w : State) → IsSound limit w
        → IsTrue (list_all is_appended w.journal) → next_audit w.records ≤ largest_journal }
    ensures unused { (limit : ℕ) (w : State) (kind : Kind) → IsSound limit w
        → IsTrue (list_all is_appended w.journal) → are_numbers_used_up (sight_of w) (aim_of kind) ≡ false }
{}

/// A job that runs has a next action, and runs while a vault is open; a move of an append but the first is
/// next where the append in flight is the job's and has made as many moves as come before it.
pub fn jobs_go_on()
    ensures open { (limit number : ℕ) (w : State) (job : Job) → IsSound limit w
        → job_of w.jobs number ≡ Some job → w.is_open ≡ true }
    ensures next { (limit number : ℕ) (w : State) (job : Job) → IsSound limit w
        → job_of w.jobs number ≡ Some job →
        (action : Action) × (next_action w job ≡ Some action) }
    ensures mover { (limit number : ℕ) (w : State) (job : Job) (action : Action) → IsSound limit w
        → job_of w.jobs number ≡ Some job →
        next_action w job ≡ Some action → 0 < moves_before action
        → (a : Append) × (w.append ≡ Some a) × IsAt a job (moves_before action) }
    ensures holder { (limit : ℕ) (w : State) (a : Append) → IsSound limit w → w.append ≡ Some a →
        (job : Job) × (job_of w.jobs a.job ≡ Some job)
        × ((action : Action) × (next_action w job ≡ Some action) × (a.moves ≡ moves_before action)) }
{}

/// The record that a job writes with its next action may come into effect next.
pub fn written_records_may_follow()
    ensures { (limit number : ℕ) (w : State) (job : Job) (entry : Record) → IsSound limit w
        → job_of w.jobs number ≡ Some job →
        next_action w job ≡ Some WriteBody → Writes w job job.kind entry → MayFollowIn w entry }
{}

/// The sums of an audit that runs have a count for each provider, and each of them fits 32 bits with room.
pub fn sums_are_small()
    ensures length { (limit number : ℕ) (w : State) (job : Job) (sums : Sums) → IsSound limit w
        → job_of w.jobs number ≡ Some job →
        HasSums (setup_in w) job sums → length sums.counts ≡ (setup_in w).n }
    ensures undecided { (limit number : ℕ) (w : State) (job : Job) (sums : Sums) → IsSound limit w
        → job_of w.jobs number ≡ Some job →
        HasSums (setup_in w) job sums → sums.undecided ≤ 2 ^ 16 }
    ensures counts { (limit number : ℕ) (w : State) (job : Job) (sums : Sums) → IsSound limit w
        → job_of w.jobs number ≡ Some job →
        HasSums (setup_in w) job sums → All (λ count. count ≤ 2 ^ 16) sums.counts }
{}

/// In every run the journal that the disk holds is accepted, and its table is that of the history: a pack
/// loses nothing that a state says of setup, files, numbers and the due audit.
pub fn journals_are_alike()
    ensures accepted { (limit : ℕ) (start : State) (ms : List Moment) → IsLimit limit → IsStart start
        → IsRun limit start ms → AreAccepted (now start ms).journal }
    ensures alike { (limit : ℕ) (start : State) (ms : List Moment) → IsLimit limit → IsStart start
        → IsRun limit start ms → AreAlike (now start ms).journal (now start ms).records }
{}

/// While no record of a journal is a packed one, the disk holds the whole history. Until the second version
/// nothing is packed, and each job and each file that it works on has the setup's profile.
pub fn unpacked_journals_are_whole()
    ensures whole { (limit : ℕ) (w : State) → IsSound limit w → IsTrue (list_all is_appended w.journal)
        → w.journal ≡ w.records }
    ensures first { (limit : ℕ) (w : State) → IsSound limit w → version_of w.records ≡ 1
        → IsTrue (list_all is_appended w.journal) }
    ensures files { (limit : ℕ) (w : State) (name : List ℕ) (file : File) → IsSound limit w
        → version_of w.records ≡ 1 → file_in w name ≡ Some file → file.profile ≡ (setup_in w).profile }
    ensures jobs { (limit number : ℕ) (w : State) (job : Job) → IsSound limit w → version_of w.records ≡ 1
        → job_of w.jobs number ≡ Some job → IsPlainJob (setup_in w) job }
{}

/// An instance: a store that was set up is opened, gets its second version and is packed. In that run each
/// state is sound; at its end area B holds the packed journal, beside a history that is as it was.
pub fn packed_run_is_sound()
    ensures run { (ms : List Moment) × IsRun 8 set_up ms × IsSound 8 (now set_up ms)
        × ((now set_up ms).records ≡ Version ∷ SetUp four ∷ [])
        × ((now set_up ms).journal ≡ Resume 1 1 ∷ Version ∷ SetUp four ∷ []) × ((now set_up ms).area ≡ B) }
    ensures start { IsStart set_up × IsSound 8 set_up × (version_of set_up.records ≡ 1)
        × IsTrue (list_all is_appended set_up.journal) }
{}
