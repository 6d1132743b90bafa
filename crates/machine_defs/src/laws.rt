//! Worked values of the definitions, and laws that follow from them alone.
ghost use Rattle.std.specs.Prelude.{◌≡◌, ◌↔◌, ℕ, ◌≤◌, ◌<◌, false, List, ◌∷◌, ◌++◌, length, Option, Some};
ghost use Rattle.std.specs.List.{Contains};
ghost use Rattle.column_defs.specs.Objects.{Object};
ghost use Rattle.column_defs.specs.Columns.{columns};
ghost use Rattle.record_defs.specs.Records.{Setup};
ghost use Rattle.record_defs.specs.Table.{file_as, next_id, next_audit, started_as};
ghost use Rattle.machine_defs.specs.Jobs.{Kind, PutJob, AuditJob, Pinned, Job, job_of};
ghost use Rattle.machine_defs.specs.States.{State, IsStart, setup_in, put_object};
ghost use Rattle.machine_defs.specs.Runs.{Moment, IsRun, now, first_moments, is_replaced_since};
ghost use Rattle.machine_defs.specs.Began.{IsBeginOf, IsBeginOfKind, NoneBegan, WasBegun, GivesUp, IsOfJob};
ghost use Rattle.machine_defs.specs.Answers.{Answer, Memory};
ghost use Rattle.machine_defs.specs.Events.{Init, Reopen, Step, Begun, Ended, Refused};
ghost use Rattle.machine_defs.specs.Refusals as refusal;
ghost use Rattle.machine_defs.specs.Machine.{Happens};
ghost use Rattle.machine_defs.specs.Failures.{Count, count_in};
ghost use Rattle.machine_defs.specs.Calm.{Mark, IsCalm, since, relies};
ghost use Rattle.machine_defs.specs.Missed.{NoneMissed};
ghost use Rattle.machine_defs.specs.Scrubs.{AreScrubsCalm};
ghost use Rattle.machine_defs.specs.Damaged.{DamagesOnly, AsksDamageOf};
ghost use Rattle.machine_defs.specs.JobEnds.{EndsSo};
ghost use Rattle.machine_defs.specs.Heard.{EndsJob, NoneContinues, heard_by, heard_in, given_to, HoldsForgery};
ghost use Rattle.machine_defs.specs.Halves.{GotIsOpened};
ghost use Rattle.machine_defs.specs.Survival.{IsAcknowledged, Survives, NeverTakenOut, IsKept, EndsPut};
ghost use Rattle.machine_defs.specs.Transcripts.{Instruction, GoOn, CarriesOut};
ghost use Rattle.machine_defs.specs.Untouched.{NoneBeganOn, NoneAsksOn, NoneOn, IsFree, IsUntouched};
ghost use Rattle.machine_defs.specs.Deeds.{HasStored, HasAsked, HasMadeStore, told_block};

/// What holds of a run held before its newest event.
pub fn run_before()
    ensures run { (limit : ℕ) (start : State) (m : Moment) (ms : List Moment) → IsRun limit start (m ∷ ms)
        → IsRun limit start ms }
    ensures calm { (start : State) (m : Moment) (ms : List Moment) →
        IsCalm relies (since start) (m ∷ ms) → IsCalm relies (since start) ms }
    ensures missed { (start : State) (m : Moment) (ms : List Moment) → NoneMissed start (m ∷ ms)
        → NoneMissed start ms }
{}

/// The first moments of a run are a run, calm and with nothing missed where the whole is; and they are as many
/// as they are.
pub fn first_moments_are_a_run()
    ensures run { (limit : ℕ) (start : State) (later ms : List Moment) → IsRun limit start (later ++ ms)
        → IsRun limit start ms }
    ensures calm { (mark : Mark) (later ms : List Moment) → IsCalm relies mark (later ++ ms)
        → IsCalm relies mark ms }
    ensures scrubs { (mark : Mark) (later ms : List Moment) → AreScrubsCalm mark (later ++ ms)
        → AreScrubsCalm mark ms }
    ensures missed { (start : State) (later ms : List Moment) → NoneMissed start (later ++ ms)
        → NoneMissed start ms }
    ensures first { (later ms : List Moment) → first_moments (length ms) (later ++ ms) ≡ ms }
{}

/// The next object number and the next audit number never fall.
pub fn numbers_never_fall()
    ensures objects { (limit : ℕ) (start : State) (m : Moment) (ms : List Moment) → IsStart start
        → IsRun limit start (m ∷ ms) →
        next_id (now start ms).records ≤ next_id m.state.records }
    ensures audits { (limit : ℕ) (start : State) (m : Moment) (ms : List Moment) → IsStart start
        → IsRun limit start (m ∷ ms) →
        next_audit (now start ms).records ≤ next_audit m.state.records }
{}

/// Every object number that a put has stored under, and every audit number that was asked, is below the next
/// one.
pub fn used_numbers_are_below()
    ensures objects { (limit : ℕ) (start : State) (ms : List Moment) (begun object : ℕ) → IsStart start
        → IsRun limit start ms →
        HasStored start ms begun object → object < next_id (now start ms).records }
    ensures audits { (limit : ℕ) (start : State) (ms : List Moment) (begun number object round : ℕ)
        → IsStart start → IsRun limit start ms →
        HasAsked start ms begun number object round → number < next_audit (now start ms).records }
{}

/// The stores of two puts never name one object number: puts that store under one number have one begin.
pub fn stores_name_their_own_object()
    ensures { (limit : ℕ) (start : State) (ms : List Moment) (begun other object : ℕ) → IsStart start
        → IsRun limit start ms →
        HasStored start ms begun object → HasStored start ms other object → begun ≡ other }
{}

/// No two audits make a challenge for one number, object and round: audits that ask under one number have one
/// begin.
pub fn challenges_are_made_once()
    ensures { (limit : ℕ) (start : State) (ms : List Moment) (begun other number object round : ℕ)
        → IsStart start → IsRun limit start ms →
        HasAsked start ms begun number object round → HasAsked start ms other number object round
        → begun ≡ other }
{}

/// What an audit works on changes only by replacements while it runs: of a provider that was not replaced
/// since the audit's begin, each block of a file that the audit works on is as it was at that begin.
pub fn audited_files_stay()
    ensures { (limit : ℕ) (start : State) (ms : List Moment) (number : ℕ) (job : Job) (file : Pinned)
        (j stripe : ℕ) →
        IsStart start → IsRun limit start ms → job_of (now start ms).jobs number ≡ Some job
        → job.kind ≡ AuditJob →
        Contains job.pinned file → is_replaced_since job.begun j ms ≡ false →
        told_block (now start ms) j file.id stripe
        ≡ told_block (now start (first_moments job.begun ms)) j file.id stripe }
{}

/// What a put has stored is its columns until its last record is in effect: of a provider that tells what it
/// holds and was not replaced since the put's begin, each block that the put has stored is the provider's
/// own.
pub fn stored_blocks_are_columns()
    ensures { (limit : ℕ) (start : State) (ms : List Moment) (number : ℕ) (job : Job) (name bytes : List ℕ)
        (j object stripe : ℕ) (block : Option (List ℕ)) →
        IsStart start → IsRun limit start ms → job_of (now start ms).jobs number ≡ Some job
        → job.kind ≡ PutJob name bytes →
        started_as (now start ms).records job.subject ≡ Some name
        → HasMadeStore (setup_in (now start ms)) job j object stripe →
        is_replaced_since job.begun j ms ≡ false → told_block (now start ms) j object stripe ≡ Some block →
        block ≡ Some (columns (put_object (now start ms) job object) bytes j stripe) }
{}

/// A put that ended well had brought its file into effect, under its name, with its number and length.
pub fn ended_puts_came_in()
    ensures { IsAcknowledged }
{}

/// A file that has come into effect stays so, in the records and in these with the one in doubt added, at
/// every later moment, until a record that takes it out has come to the third move of its append.
pub fn acknowledged_files_survive()
    ensures { Survives }
{}

/// A get that ended with bytes gave what its fetches open to: the accepted rows of every stripe of the file
/// that was in effect under its name at its begin, in layout order and cut to that file's length.
pub fn got_bytes_are_opened()
    ensures { GotIsOpened }
{}

/// What a report has of a job, from the job's end on until a later call of the program begins, is what that
/// job heard, however many jobs ended besides; so where its fetches hold a forgery the report's entries hold
/// it, and the other way round.
pub fn reports_have_what_jobs_heard()
    ensures given { (limit : ℕ) (start : State) (later ms : List Moment) (m : Moment) (job : Job)
        → IsStart start →
        IsRun limit start (later ++ m ∷ ms) → EndsJob start m ms job → NoneContinues later →
        given_to job.number (heard_in start (later ++ m ∷ ms)) ≡ given_to job.number (heard_by (Some job)) }
    ensures forgeries { (limit : ℕ) (start : State) (later ms : List Moment) (m : Moment) (job : Job)
        (o : Object) (bytes : List ℕ) →
        IsStart start → IsRun limit start (later ++ m ∷ ms) → EndsJob start m ms job → NoneContinues later →
        HoldsForgery o bytes job.number (heard_by (Some job)) ↔ HoldsForgery o bytes job.number
        (heard_in start (later ++ m ∷ ms)) }
{}

/// A running job is the one that the last begin of its number began: of its kind, and of a put that names a
/// profile with this one; and the job that runs with the number of a begin, behind which no begin came to
/// that number, is the one begun there.
pub fn running_jobs_were_begun()
    ensures job { (limit : ℕ) (start : State) (ms : List Moment) (number : ℕ) (job : Job) → IsStart start
        → IsRun limit start ms → job_of (now start ms).jobs number ≡ Some job → WasBegun ms number job }
    ensures begin { (limit : ℕ) (start : State) (later before : List Moment) (m : Moment) (number : ℕ)
        (job : Job) → IsStart start → IsRun limit start (later ++ m ∷ before) → m.outcome ≡ Begun number
        → NoneBegan number later → job_of (now start (later ++ m ∷ before)).jobs number ≡ Some job
        → (job.begun ≡ length before) × IsBeginOf m.event job }
{}

/// A step that ended as a job ends that did what it was for is one of a running job; and so is each that ended,
/// whatever the answer, of the number that the begin of a job came to last.
pub fn ended_steps_are_of_jobs()
    ensures well { (limit : ℕ) (start : State) (m : Moment) (ms : List Moment) (number : ℕ) (answer : Answer)
        → IsRun limit start (m ∷ ms) → m.event ≡ Step number → m.outcome ≡ Ended answer → IsOfJob answer
        → (job : Job) × (job_of (now start ms).jobs number ≡ Some job) × (job.number ≡ number) }
    ensures begun { (limit : ℕ) (start : State) (between older : List Moment) (m b : Moment) (kind : Kind)
        (number : ℕ) (answer : Answer) → IsStart start → IsRun limit start (m ∷ (between ++ b ∷ older))
        → IsBeginOfKind b.event kind → b.outcome ≡ Begun number → NoneBegan number between
        → m.event ≡ Step number → m.outcome ≡ Ended answer
        → (job : Job) × (job_of (now start (between ++ b ∷ older)).jobs number ≡ Some job)
        × (job.number ≡ number) × (job.kind ≡ kind) × (job.begun ≡ length older) }
{}

/// A step that ends a job does so as its kind may: with what it was for, or lost at a row, of a get or a repair,
/// or by a failed store, of a put or a repair, or by a failed disk or want of memory, of all but a get; and a
/// fault has its cause, a count that rose in this step or stands at its last value. So a put or a drop ends well
/// where no count did and memory was there.
pub fn jobs_end_so()
    ensures { (limit : ℕ) (start : State) (between older : List Moment) (m b : Moment) (kind : Kind)
        (number : ℕ) (answer : Answer) → IsStart start → IsRun limit start (m ∷ (between ++ b ∷ older))
        → IsBeginOfKind b.event kind → b.outcome ≡ Begun number → NoneBegan number between
        → m.event ≡ Step number → m.outcome ≡ Ended answer
        → EndsSo (now start (between ++ b ∷ older)) m.state kind answer }
{}

/// A step that ends for want of memory counts no fault, nor does a reopening or an init that is refused for it:
/// the disk's count stays as it was, and so do those of each provider.
pub fn want_of_memory_is_no_fault()
    ensures steps { (limit moment : ℕ) (old new : State) (number : ℕ) (count : Count)
        → Happens limit moment old (Step number) (Ended Memory) new → count_in count new ≡ count_in count old }
    ensures reopenings { (limit moment : ℕ) (old new : State) (count : Count)
        → Happens limit moment old Reopen (Refused refusal.Memory) new → count_in count new ≡ count_in count old }
    ensures inits { (limit moment : ℕ) (old new : State) (setup : Setup) (count : Count)
        → Happens limit moment old (Init setup) (Refused refusal.Memory) new
        → count_in count new ≡ count_in count old }
{}

/// While no job that puts or drops a name begins, none on it runs where none did, and no record in doubt takes
/// its file out.
pub fn names_stay_untouched()
    ensures none_ran { (limit : ℕ) (start : State) (ms : List Moment) (name : List ℕ) → IsStart start
        → IsRun limit start ms → NoneBeganOn name ms → NoneOn name (now start ms) }
    ensures none_runs { (limit : ℕ) (start : State) (later ms : List Moment) (name : List ℕ) → IsStart start
        → IsRun limit start (later ++ ms) → NoneOn name (now start ms) → NoneBeganOn name later
        → NoneOn name (now start (later ++ ms)) }
    ensures none_takes { (limit : ℕ) (start : State) (later ms : List Moment) (name : List ℕ) → IsStart start
        → IsRun limit start (later ++ ms) → IsUntouched name (now start ms) → NoneBeganOn name later
        → NeverTakenOut name later }
{}

/// The steps of a command that runs a job begin no job, and commands of which none is the begin of a put or a
/// drop of a name begin none.
pub fn commands_begin_none()
    ensures commands { (name : List ℕ) (commands : List Instruction) (ms : List Moment) (lines : List ℕ)
        → CarriesOut commands ms lines → NoneAsksOn name commands → NoneBeganOn name ms }
    ensures steps { (job number : ℕ) (name : List ℕ) (ms : List Moment) → GoOn job ms
        → NoneBegan number ms × NoneBeganOn name ms }
{}

/// The steps of a command that runs a job damage no provider, and commands only those that they name.
pub fn commands_damage_only()
    ensures commands { (ps : List ℕ) (commands : List Instruction) (ms : List Moment) (lines : List ℕ)
        → CarriesOut commands ms lines → AsksDamageOf ps commands → DamagesOnly ps ms }
    ensures steps { (ps : List ℕ) (job : ℕ) (ms : List Moment) → GoOn job ms → DamagesOnly ps ms }
    ensures both { (ps : List ℕ) (later ms : List Moment) → DamagesOnly ps later → DamagesOnly ps ms
        → DamagesOnly ps (later ++ ms) }
{}

/// No job that puts or drops a name runs behind the end of the one that did, however it ended, nor behind an
/// event that gives up all jobs; so none does where the events and outcomes tell that the name is free.
pub fn names_come_free()
    ensures ended { (limit : ℕ) (start : State) (between older : List Moment) (m b : Moment) (number : ℕ)
        (answer : Answer) (name : List ℕ) → IsStart start → IsRun limit start (m ∷ (between ++ b ∷ older))
        → NoneOn name (now start older) → NoneBeganOn name between → b.outcome ≡ Begun number
        → m.event ≡ Step number → m.outcome ≡ Ended answer → NoneOn name m.state }
    ensures given_up { (limit : ℕ) (start : State) (m : Moment) (ms : List Moment) (name : List ℕ)
        → IsRun limit start (m ∷ ms) → GivesUp m.event → NoneOn name m.state }
    ensures told { (limit : ℕ) (start : State) (ms : List Moment) (name : List ℕ) → IsStart start
        → IsRun limit start ms → IsFree name ms → NoneOn name (now start ms) }
{}

/// The file of a put that ended well is in effect, also with the record in doubt added, while no put or drop
/// of its name begins but for its own: where none ran at its begin, none began between that and its end, and
/// none since.
pub fn put_files_are_kept()
    ensures { (limit : ℕ) (start : State) (later between older : List Moment) (m b : Moment) (job : Job)
        (name bytes : List ℕ) → IsStart start → IsRun limit start (later ++ m ∷ (between ++ b ∷ older))
        → NoneOn name (now start older) → NoneBeganOn name between
        → EndsPut start m (between ++ b ∷ older) job name bytes → NoneBeganOn name later
        → (b.outcome ≡ Begun job.number) × IsKept (now start (later ++ m ∷ (between ++ b ∷ older))) name
        (file_as name job.subject (length bytes) job.profile) }
{}
