//! Laws over runs for the second half of the main theorem: what holds in calm runs and in others, what a job
//! has done by the time that it comes to a place in its list of actions, and what providers hold since a
//! mark.
ghost use Rattle.std.specs.Prelude.{◌≡◌, ◌⊎◌, ℕ, ◌<◌, ◌≤◌, List, ◌∷◌, ◌++◌, length, Option, Some, IsTrue, suc, ◌+◌, ◌==◌, false, slice_get, true, None};
ghost use Rattle.std.specs.List.{Contains};
ghost use Rattle.hail_field.specs.Shape.{IsShape};
ghost use Rattle.code_defs.specs.Points.{upto, values_at};
ghost use Rattle.code_defs.specs.Profiles.{profile_of};
ghost use Rattle.column_defs.specs.Objects.{Object, stripes, symbols_in};
ghost use Rattle.column_defs.specs.Columns.{primary_row, columns, is_wrong_block};
ghost use Rattle.column_defs.specs.Opened.{SeenBlock, AllOpen, AcceptsRow, GivesSymbols, block_at};
ghost use Rattle.column_defs.specs.Forgeries.{count_of, IsRow};
ghost use Rattle.column_defs.specs.Verdicts.{is_flagged};
ghost use Rattle.record_defs.specs.Records.{is_name, Setup, Record, AuditDone, RepairDone};
ghost use Rattle.record_defs.specs.Table.{File, setup_of, Due, due_of};
ghost use Rattle.machine_defs.specs.Jobs.{GetJob, Pinned, Fetched, Job, job_of, PutJob, RepairJob, Answered, AuditJob, Worked};
ghost use Rattle.machine_defs.specs.Refusals.{Refusal};
ghost use Rattle.machine_defs.specs.Answers.{Answer, Got, Lost};
ghost use Rattle.machine_defs.specs.Events.{Init, Begin, Step, Ready, Refused, Ended, More};
ghost use Rattle.machine_defs.specs.States.{State, IsStart, file_object, file_in, Append, Doubt, setup_in, object_in, pinned_object, worked_object};
ghost use Rattle.machine_defs.specs.Runs.{Moment, IsRun, now, first_moments, came, is_replaced_since};
ghost use Rattle.machine_defs.specs.Failures.{Count, count_in, HasFailures, RoseBy};
ghost use Rattle.machine_defs.specs.Halves.{IsGetRefusal, AllTell, begun_of, SecondHalf, SecondHalfHolds};
ghost use Rattle.machine_defs.specs.Actions.{Fetch, Action, Store, Work, store_actions, repair_actions, actions_of};
ghost use Rattle.machine_defs.specs.Deeds.{Makes, told_block, HasMadeStore};
ghost use Rattle.machine_defs.specs.Appends.{done_record};
ghost use Rattle.machine_defs.specs.Given.{block_given, symbols_given};
ghost use Rattle.machine_defs.specs.Steps.{next_action};
ghost use Rattle.machine_defs.specs.Left.{most_left};
ghost use Rattle.machine_defs.specs.Heard.{heard_by, HoldsForgery};
ghost use Rattle.machine_defs.specs.Calm.{Mark, since, relies, IsCalm};
ghost use Rattle.machine_defs.specs.Missed.{is_wrong_now, NoneMissed};
ghost use Rattle.machine_defs.specs.Scrubs.{scrubbed, AreScrubsCalm, IsScrubCalm};
ghost use Rattle.second_half_laws.specs.FewWrong.{is_wrong_seen, IsFewWrong};
ghost use Rattle.second_half_laws.specs.Stays.{IsScrubbed, Stays};
ghost use Rattle.second_half_laws.specs.Fetching.{GaveFetched};
ghost use Rattle.second_half_laws.specs.Origins.{CameOf};
ghost use Rattle.second_half_laws.specs.Made.{WasMade};
ghost use Rattle.second_half_laws.specs.Own.{own_blocks, IsExact};
ghost use Rattle.second_half_laws.specs.Gave.{WasFetched, WasAsked, WasOpened};
ghost use Rattle.second_half_laws.specs.Skips.{SkipsRemovals};
ghost use Rattle.second_half_laws.specs.Whole.{PutIsWhole, RepairIsWhole, AuditIsWhole};
ghost use Rattle.second_half_laws.specs.Damage.{IsBad, IsReplaced, RoseSince};
ghost use Rattle.second_half_laws.specs.Marks.{WasWrong, Remains, IsEndOfPut, PrecedesPuts, IsMark};
ghost use Rattle.second_half_laws.specs.MarkedRuns.{BeginsNoScrub, IsMarkedRun, IsCalmRun};
ghost use Rattle.second_half_laws.specs.Sharp.{IsLostByFaults, GivesOrIsLost};
ghost use Rattle.machine_defs.specs.Damaged.{DamagesOnly};
ghost use Rattle.machine_defs.specs.Untouched.{Relies, NoneBeganFor, NoneUnderWay};
ghost use Rattle.second_half_laws.specs.Epochs.{moved_mark};
ghost use Rattle.second_half_laws.specs.Mended.{IsMended};
ghost use Rattle.second_half_laws.specs.Flagging.{IsAudit, FindsAll};
ghost use Rattle.run_laws.specs.Stories.{Stored, GetEnds};

/// In every run a name in effect is a name of the grammar.
pub fn stored_names_are_names()
    ensures { (limit : ℕ) (start : State) (ms : List Moment) (name : List ℕ) (file : File) → IsStart start
        → IsRun limit start ms →
        file_in (now start ms) name ≡ Some file → IsTrue (is_name name) }
{}

/// In every run the begin of a get of a name in effect is refused for MustReopen, Busy or Memory alone.
pub fn stored_names_begin()
    ensures { (limit : ℕ) (start : State) (m : Moment) (ms : List Moment) (name : List ℕ) (file : File)
        (why : Refusal) → IsStart start →
        IsRun limit start (m ∷ ms) → m.event ≡ Begin (GetJob name) → m.outcome ≡ Refused why →
        file_in (now start ms) name ≡ Some file → IsGetRefusal why }
{}

/// A get that a step ends, ends with bytes or is lost: no disk fault, no provider's fault and no want of
/// memory ends one.
pub fn gets_end_so()
    ensures { (limit : ℕ) (start : State) (m : Moment) (ms : List Moment) (job : Job) (name : List ℕ)
        (how : Answer) → IsStart start →
        IsRun limit start (m ∷ ms) → m.event ≡ Step job.number → m.outcome ≡ Ended how
        → job_of (now start ms).jobs job.number ≡ Some job →
        job.kind ≡ GetJob name → ((bytes : List ℕ) × (how ≡ Got bytes))
        ⊎ ((stripe : ℕ) × (row : ℕ) × (how ≡ Lost stripe row)) }
{}

/// Few wrong blocks leave a get its file: where of each stripe at most b providers gave it a wrong block or
/// none, the bytes that it ended with are those that were in effect under its name at its begin; and it is
/// not lost at a stripe of which so few did.
pub fn few_wrong_blocks_give_file()
    ensures bytes { (limit : ℕ) (start : State) (m : Moment) (ms : List Moment) (job : Job)
        (name bytes : List ℕ) (file : File) →
        IsStart start → IsRun limit start (m ∷ ms) → m.event ≡ Step job.number
        → m.outcome ≡ Ended (Got bytes) →
        job_of (now start ms).jobs job.number ≡ Some job → job.kind ≡ GetJob name →
        file_in (now start (first_moments job.begun ms)) name ≡ Some file →
        ((stripe : ℕ) → stripe < stripes (file_object (now start (first_moments job.begun ms)) file)
        (length ((now start (first_moments job.begun ms)).bytes file.id)) →
        IsFewWrong (now start (first_moments job.begun ms)) file job stripe) →
        bytes ≡ (now start (first_moments job.begun ms)).bytes file.id }
    ensures not_lost { (limit : ℕ) (start : State) (m : Moment) (ms : List Moment) (job : Job)
        (name : List ℕ) (file : File) (stripe row : ℕ) →
        IsStart start → IsRun limit start (m ∷ ms) → m.event ≡ Step job.number
        → m.outcome ≡ Ended (Lost stripe row) →
        job_of (now start ms).jobs job.number ≡ Some job → job.kind ≡ GetJob name →
        file_in (now start (first_moments job.begun ms)) name ≡ Some file →
        IsFewWrong (now start (first_moments job.begun ms)) file job stripe → ⊥ }
{}

/// What a provider tells of a block of a file in effect, or of a file that a running get, audit or repair
/// works on, changes in an event only by a replacement of that provider, or by a store with which a running
/// repair rewrites the block: no put stores under the file's number, and no job that takes an object away
/// takes this one. While no job runs, a scrub may store the block of a file in effect that it opened.
pub fn kept_blocks_stay()
    ensures in_effect { (limit : ℕ) (start : State) (m : Moment) (ms : List Moment) (name : List ℕ)
        (file : File) (j stripe : ℕ) →
        IsStart start → IsRun limit start (m ∷ ms) → file_in (now start ms) name ≡ Some file
        → Stays (now start ms) m j file.id stripe ⊎ IsScrubbed (now start ms) m j file.id stripe }
    ensures worked_on { (limit : ℕ) (start : State) (m : Moment) (ms : List Moment) (number : ℕ) (job : Job)
        (file : Pinned) (j stripe : ℕ) →
        IsStart start → IsRun limit start (m ∷ ms) → job_of (now start ms).jobs number ≡ Some job
        → Contains job.pinned file →
        Stays (now start ms) m j file.id stripe }
{}

/// In every event the count of the disk and the two counts of each provider never fall.
pub fn counts_never_fall()
    ensures disk { (limit : ℕ) (start : State) (m : Moment) (ms : List Moment) → IsRun limit start (m ∷ ms) →
        (now start ms).disk_faults ≤ m.state.disk_faults }
    ensures stores { (limit : ℕ) (start : State) (m : Moment) (ms : List Moment) (j : ℕ)
        → IsRun limit start (m ∷ ms) →
        ((now start ms).providers j).store_faults ≤ (m.state.providers j).store_faults }
    ensures others { (limit : ℕ) (start : State) (m : Moment) (ms : List Moment) (j : ℕ)
        → IsRun limit start (m ∷ ms) →
        ((now start ms).providers j).other_faults ≤ (m.state.providers j).other_faults }
{}

/// A device's failed calls are at most as many as its count rose, in any part of a run: of the disk the
/// events that ended in its fault, of a provider the stores that ended so, and the fetches, asks and removals
/// of jobs that gave or left something else than those that go well.
pub fn failed_calls_are_counted()
    ensures { (limit : ℕ) (start : State) (later ms : List Moment) (count : Count) (n : ℕ)
        → IsRun limit start (later ++ ms) →
        HasFailures count (now start ms) later n
        → RoseBy (count_in count (now start ms)) (count_in count (now start (later ++ ms))) n }
{}

/// Where every provider tells what it holds before the first event, every one does at each moment of the run.
pub fn telling_goes_on()
    ensures { (limit : ℕ) (start : State) (ms : List Moment) → AllTell start → IsRun limit start ms
        → AllTell (now start ms) }
{}

/// A step in which a job makes a fetch gives it what the provider holds then: the held block if it is of the
/// size, or none; or none and the provider's count of failed calls rose. Of a provider that does not tell
/// what it holds it is any block of the size or none.
pub fn fetches_give_held_blocks()
    ensures { (limit : ℕ) (start : State) (m : Moment) (ms : List Moment) (job : Job) (j object stripe : ℕ)
        → IsRun limit start (m ∷ ms) →
        Makes (now start ms) m job (Fetch j object stripe)
        → GaveFetched (now start ms) m.state job j object stripe }
{}

/// Blocks that are absent do no harm to accepted rows: where at most b providers' blocks of a stripe are
/// there and wrong, however many are absent, each accepted row has the file's own primary symbols, and what
/// the blocks give, if anything, are the file's symbols.
pub fn absent_blocks_leave_rows_right()
    ensures rows { (o : Object) (bytes : List ℕ) (number stripe place : ℕ) (seen opened : List SeenBlock)
        (p : List ℕ) →
        o.profile ≡ profile_of number → IsShape o.shape.n o.shape.l o.shape.b → IsRow o bytes stripe place →
        count_of (λ j. is_wrong_seen o bytes j stripe (block_at seen j)) (upto o.shape.n) ≤ o.shape.b →
        AllOpen o stripe 0 seen opened → AcceptsRow o opened place p →
        values_at (upto o.shape.l) p ≡ primary_row o (symbols_in o bytes stripe) place }
    ensures symbols { (o : Object) (bytes : List ℕ) (number stripe : ℕ) (seen : List SeenBlock)
        (symbols : List ℕ) →
        o.profile ≡ profile_of number → IsShape o.shape.n o.shape.l o.shape.b
        → stripe < stripes o (length bytes) →
        count_of (λ j. is_wrong_seen o bytes j stripe (block_at seen j)) (upto o.shape.n) ≤ o.shape.b →
        GivesSymbols o stripe seen symbols → symbols ≡ symbols_in o bytes stripe }
{}

/// Each block or none that a running job was given by a fetch, it was given at a moment since its begin: what
/// the provider held then, if it was of the size, or none and the provider's count of failed calls rose. Of a
/// provider that does not tell what it holds it is any block of the size or none.
pub fn given_blocks_were_held()
    ensures { (limit : ℕ) (start : State) (ms : List Moment) (number : ℕ) (job : Job) (j object stripe : ℕ)
        (block : Option (List ℕ)) →
        IsStart start → IsRun limit start ms → job_of (now start ms).jobs number ≡ Some job →
        Contains job.given (Fetched j object stripe block)
        → CameOf start ms job.begun job.pinned j object stripe block }
{}

/// A setup in effect stays in effect.
pub fn setups_stay()
    ensures { (limit : ℕ) (start : State) (later ms : List Moment) (s : Setup) → IsStart start
        → IsRun limit start (later ++ ms) →
        setup_of (now start ms).records ≡ Some s → setup_of (now start (later ++ ms)).records ≡ Some s }
{}

/// Each action before the place of a running job it made at a moment since its begin, and went on; also each
/// action before the place of the move by which a job put a record in doubt, whether it runs on or has ended.
pub fn passed_actions_were_made()
    ensures running { (limit : ℕ) (start : State) (ms : List Moment) (number : ℕ) (job : Job) (place : ℕ)
        (action : Action) →
        IsStart start → IsRun limit start ms → job_of (now start ms).jobs number ≡ Some job
        → place < job.place →
        slice_get (actions_of (setup_in (now start ms)) job) place ≡ Some action
        → WasMade start ms job action }
    ensures in_doubt { (limit : ℕ) (start : State) (ms : List Moment) (d : Doubt) (job : Job) (place : ℕ)
        (action : Action) →
        IsStart start → IsRun limit start ms → (now start ms).doubt ≡ Some d → d.maker ≡ Some job
        → suc place < job.place →
        slice_get (actions_of (setup_in (now start ms)) job) place ≡ Some action
        → WasMade start ms job action }
{}

/// Each block or none that a running job was given, it was given by a fetch that it made at a moment since
/// its begin; and each answer by an ask.
pub fn given_things_were_made()
    ensures blocks { (limit : ℕ) (start : State) (ms : List Moment) (number : ℕ) (job : Job)
        (j object stripe : ℕ)
        (block : Option (List ℕ)) → IsStart start → IsRun limit start ms
        → job_of (now start ms).jobs number ≡ Some job →
        Contains job.given (Fetched j object stripe block) → WasFetched start ms job j object stripe block }
    ensures answers { (limit : ℕ) (start : State) (ms : List Moment) (number : ℕ) (job : Job)
        (j object round : ℕ)
        (symbol : Option ℕ) → IsStart start → IsRun limit start ms
        → job_of (now start ms).jobs number ≡ Some job →
        Contains job.given (Answered j object round symbol) → WasAsked start ms job j object round symbol }
{}

/// At the work of a running job on a stripe, and after it, each of the n providers was asked for its block of
/// the stripe: what the job was given of each it was given by a fetch that it made since its begin.
pub fn work_has_its_fetches()
    ensures given { (limit : ℕ) (start : State) (ms : List Moment) (number : ℕ) (job : Job)
        (place j object stripe : ℕ) → IsStart start →
        IsRun limit start ms → job_of (now start ms).jobs number ≡ Some job → place ≤ job.place →
        slice_get (actions_of (setup_in (now start ms)) job) place ≡ Some (Work object stripe)
        → j < (setup_in (now start ms)).n →
        Contains job.given (Fetched j object stripe (block_given job.given object stripe j)) }
    ensures fetched { (limit : ℕ) (start : State) (ms : List Moment) (number : ℕ) (job : Job)
        (place j object stripe : ℕ) → IsStart start →
        IsRun limit start ms → job_of (now start ms).jobs number ≡ Some job → place ≤ job.place →
        slice_get (actions_of (setup_in (now start ms)) job) place ≡ Some (Work object stripe)
        → j < (setup_in (now start ms)).n →
        WasFetched start ms job j object stripe (block_given job.given object stripe j) }
{}

/// A get that ends with bytes was given, of each stripe and each of the n providers, what a fetch gave that
/// it made since its begin; one that is lost at a stripe, so of that stripe.
pub fn ended_gets_fetched()
    ensures with_bytes { (limit : ℕ) (start : State) (m : Moment) (ms : List Moment) (job : Job)
        (name bytes : List ℕ) (file : File)
        (j stripe : ℕ) → IsStart start → IsRun limit start (m ∷ ms) → m.event ≡ Step job.number
        → m.outcome ≡ Ended (Got bytes) →
        job_of (now start ms).jobs job.number ≡ Some job → job.kind ≡ GetJob name →
        file_in (now start (first_moments job.begun ms)) name ≡ Some file → j < (setup_in (now start ms)).n →
        stripe < stripes (file_object (now start (first_moments job.begun ms)) file)
        (length ((now start (first_moments job.begun ms)).bytes file.id)) →
        WasFetched start ms job j file.id stripe (block_given job.given file.id stripe j) }
    ensures is_lost { (limit : ℕ) (start : State) (m : Moment) (ms : List Moment) (job : Job)
        (name : List ℕ) (file : File)
        (j stripe row : ℕ) → IsStart start → IsRun limit start (m ∷ ms) → m.event ≡ Step job.number →
        m.outcome ≡ Ended (Lost stripe row) → job_of (now start ms).jobs job.number ≡ Some job
        → job.kind ≡ GetJob name →
        file_in (now start (first_moments job.begun ms)) name ≡ Some file → j < (setup_in (now start ms)).n →
        WasFetched start ms job j file.id stripe (block_given job.given file.id stripe j) }
{}

/// The symbols that a running job's work on a stripe gave are those that blocks open to, each of which a
/// fetch gave that the job made since its begin; so it is of what a repair stores.
pub fn work_opened_what_was_fetched()
    ensures passed { (limit : ℕ) (start : State) (ms : List Moment) (number : ℕ) (job : Job)
        (place object stripe : ℕ) →
        IsStart start → IsRun limit start ms → job_of (now start ms).jobs number ≡ Some job
        → place < job.place →
        slice_get (actions_of (setup_in (now start ms)) job) place ≡ Some (Work object stripe) →
        WasOpened start ms job object stripe (symbols_given job.given object stripe) }
    ensures stored { (limit : ℕ) (start : State) (ms : List Moment) (number : ℕ) (job : Job)
        (j object stripe : ℕ) →
        IsStart start → IsRun limit start ms → job_of (now start ms).jobs number ≡ Some job
        → job.kind ≡ RepairJob →
        next_action (now start ms) job ≡ Some (Store j object stripe) →
        WasOpened start ms job object stripe (symbols_given job.given object stripe) }
{}

/// A running put that has come past its stores made its store of each stripe on each provider since its
/// begin; and so did the put whose end stands in doubt, whether it runs on or has ended, and that whose end
/// comes into effect, by its own step or by being settled. Its object number stands for its bytes, and from
/// the moment at which its end comes into effect it does so for ever. Its profile is that of the record, or
/// the setup's where the record has none.
pub fn done_puts_are_whole()
    ensures running { (limit : ℕ) (start : State) (ms : List Moment) (number : ℕ) (job : Job)
        (name bytes : List ℕ) → IsStart start →
        IsRun limit start ms → job_of (now start ms).jobs number ≡ Some job → job.kind ≡ PutJob name bytes →
        4 + length (store_actions (setup_in (now start ms)) job bytes) ≤ job.place →
        PutIsWhole start ms job job.subject (length bytes) job.profile }
    ensures in_doubt { (limit : ℕ) (start : State) (ms : List Moment) (d : Doubt)
        (version id size profile : ℕ) → IsStart start →
        IsRun limit start ms → (now start ms).doubt ≡ Some d →
        d.entry ≡ done_record version id size profile →
        ((version == 2) ≡ false → profile ≡ (setup_in (now start ms)).profile) →
        (job : Job) × (d.maker ≡ Some job) × PutIsWhole start ms job id size profile }
    ensures came { (limit : ℕ) (start : State) (m : Moment) (ms : List Moment)
        (version id size profile : ℕ) → IsStart start →
        IsRun limit start (m ∷ ms) →
        came (now start ms) m.state ≡ Some (done_record version id size profile) →
        ((version == 2) ≡ false → profile ≡ (setup_in (now start ms)).profile) →
        (job : Job) × PutIsWhole start ms job id size profile }
    ensures stay { (limit : ℕ) (start : State) (later ms : List Moment) (m : Moment)
        (version id size profile : ℕ) → IsStart start →
        IsRun limit start (later ++ m ∷ ms) →
        came (now start ms) m.state ≡ Some (done_record version id size profile) →
        ((version == 2) ≡ false → profile ≡ (setup_in (now start ms)).profile) →
        (job : Job) × (put : PutIsWhole start ms job id size profile)
        × ((now start (later ++ m ∷ ms)).bytes id ≡ put.bytes) }
{}

/// The same of a repair: it made its store of each stripe of each of its files on each flagged provider,
/// after its work on that stripe.
pub fn done_repairs_are_whole()
    ensures running { (limit : ℕ) (start : State) (ms : List Moment) (number : ℕ) (job : Job)
        → IsStart start →
        IsRun limit start ms → job_of (now start ms).jobs number ≡ Some job → job.kind ≡ RepairJob →
        length (repair_actions (setup_in (now start ms)) job) ≤ job.place
        → RepairIsWhole start ms job job.subject }
    ensures in_doubt { (limit : ℕ) (start : State) (ms : List Moment) (d : Doubt) (id : ℕ) → IsStart start →
        IsRun limit start ms → (now start ms).doubt ≡ Some d → d.entry ≡ RepairDone id →
        (job : Job) × (d.maker ≡ Some job) × RepairIsWhole start ms job id }
    ensures came { (limit : ℕ) (start : State) (m : Moment) (ms : List Moment) (id : ℕ) → IsStart start →
        IsRun limit start (m ∷ ms) → came (now start ms) m.state ≡ Some (RepairDone id) →
        (job : Job) × RepairIsWhole start ms job id }
{}

/// The same of an audit: it made each of its asks, and its record has its sums over what it was given.
pub fn done_audits_are_whole()
    ensures in_flight { (limit : ℕ) (start : State) (ms : List Moment) (a : Append) (id undecided : ℕ)
        (counts : List ℕ) →
        (job : Job) → IsStart start → IsRun limit start ms → (now start ms).append ≡ Some a
        → a.entry ≡ AuditDone id undecided counts →
        job_of (now start ms).jobs a.job ≡ Some job → AuditIsWhole start ms job id undecided counts }
    ensures in_doubt { (limit : ℕ) (start : State) (ms : List Moment) (d : Doubt) (id undecided : ℕ)
        (counts : List ℕ) →
        IsStart start → IsRun limit start ms → (now start ms).doubt ≡ Some d
        → d.entry ≡ AuditDone id undecided counts →
        (job : Job) × (d.maker ≡ Some job) × AuditIsWhole start ms job id undecided counts }
    ensures came { (limit : ℕ) (start : State) (m : Moment) (ms : List Moment) (id undecided : ℕ)
        (counts : List ℕ) →
        IsStart start → IsRun limit start (m ∷ ms)
        → came (now start ms) m.state ≡ Some (AuditDone id undecided counts) →
        (job : Job) × AuditIsWhole start ms job id undecided counts }
{}

/// Steps left fall: a step of a job that goes on lowers the largest number of steps that may remain by one,
/// or, where the job decides in it that it takes no object away, by the removals that it counted, one from
/// each provider, and one. No other event that leaves the job running changes it, and it is never 0.
pub fn steps_left_fall()
    ensures step { (limit : ℕ) (start : State) (m : Moment) (ms : List Moment) (before job : Job)
        → IsStart start →
        IsRun limit start (m ∷ ms) → m.event ≡ Step before.number → m.outcome ≡ More →
        job_of (now start ms).jobs before.number ≡ Some before
        → job_of m.state.jobs before.number ≡ Some job →
        (most_left (setup_in (now start ms)) before ≡ suc (most_left (setup_in m.state) job))
        ⊎ (SkipsRemovals (setup_in m.state) before job
        × (most_left (setup_in (now start ms)) before
        ≡ suc (most_left (setup_in m.state) job + (setup_in m.state).n))) }
    ensures other { (limit : ℕ) (start : State) (m : Moment) (ms : List Moment) (before job : Job)
        → IsStart start →
        IsRun limit start (m ∷ ms) → job_of (now start ms).jobs before.number ≡ Some before →
        job_of m.state.jobs before.number ≡ Some job → (m.event ≡ Step before.number → m.outcome ≡ More → ⊥) →
        most_left (setup_in m.state) job ≡ most_left (setup_in (now start ms)) before }
    ensures some { (limit : ℕ) (start : State) (ms : List Moment) (number : ℕ) (job : Job) → IsStart start
        → IsRun limit start ms →
        job_of (now start ms).jobs number ≡ Some job → 1 ≤ most_left (setup_in (now start ms)) job }
{}

/// The own blocks of all providers of a stripe open to the file's symbols of the stripe, in each profile and
/// each shape.
pub fn own_blocks_give_symbols()
    ensures { (o : Object) (bytes : List ℕ) (number stripe : ℕ) → o.profile ≡ profile_of number →
        IsShape o.shape.n o.shape.l o.shape.b
        → GivesSymbols o stripe (own_blocks o bytes stripe) (symbols_in o bytes stripe) }
{}

/// The second half of the main theorem: in every calm run, with calm scrubs, in which no audit missed damage,
/// of providers that tell what they hold, every get of a stored name that a step ended gave the bytes that
/// were in effect under it at its begin, unless the count of the disk or of a provider rose since; and its
/// begin was refused for MustReopen, Busy or Memory alone.
pub fn second_half()
    ensures { SecondHalfHolds }
{}

/// Any mark will do in place of the begin of the last settled audit: the second half holds of each run that
/// is calm by a mark which at each moment is one, whatever audits missed.
pub fn any_mark_will_do()
    ensures { (limit : ℕ) (mark : Mark) (start : State) (ms : List Moment) → IsMarkedRun limit mark start ms
        → SecondHalf start ms }
{}

/// In a run that is calm by a mark, whatever counts rose, no fetched row of a get is a forgery; a get that
/// ends with bytes gives those that were in effect under its name at its begin; and it is lost only where the
/// count of failed calls of a provider rose since that begin.
pub fn gets_give_or_are_lost()
    ensures no_forgery { (limit : ℕ) (mark : Mark) (start : State) (ms : List Moment) (number : ℕ)
        (job : Job) (name : List ℕ) (file : File) →
        IsMarkedRun limit mark start ms → job_of (now start ms).jobs number ≡ Some job
        → job.kind ≡ GetJob name →
        file_in (now start (first_moments job.begun ms)) name ≡ Some file →
        HoldsForgery (file_object (now start (first_moments job.begun ms)) file)
        ((now start (first_moments job.begun ms)).bytes file.id)
        job.number (heard_by (Some job)) → ⊥ }
    ensures ends { (limit : ℕ) (mark : Mark) (start : State) (m : Moment) (ms : List Moment) (job : Job)
        (name : List ℕ) (how : Answer) →
        IsMarkedRun limit mark start (m ∷ ms) → m.event ≡ Step job.number → m.outcome ≡ Ended how →
        job_of (now start ms).jobs job.number ≡ Some job → job.kind ≡ GetJob name →
        GivesOrIsLost (now start (first_moments job.begun ms)) m.state name how }
    ensures rows { (limit : ℕ) (mark : Mark) (start : State) (ms : List Moment) (number : ℕ) (job : Job)
        (name : List ℕ) (object stripe : ℕ)
        (symbols : List ℕ) → IsMarkedRun limit mark start ms → job_of (now start ms).jobs number ≡ Some job
        → job.kind ≡ GetJob name →
        Contains job.given (Worked object stripe symbols) →
        symbols ≡ symbols_in (worked_object (now start ms) job object) ((now start ms).bytes object) stripe }
{}

/// In every run, calm or not, a moment before which no put began that works stays one in each event; and in a
/// run that is calm by any mark, for scrubs too, so does one since which, moreover, all damage of files in
/// effect is new.
pub fn marks_stay()
    ensures before_puts { (limit : ℕ) (start : State) (m : Moment) (ms : List Moment) (from : ℕ)
        → IsStart start → IsRun limit start (m ∷ ms) →
        PrecedesPuts start ms from → PrecedesPuts start (m ∷ ms) from }
    ensures marks { (limit : ℕ) (mark : Mark) (start : State) (m : Moment) (ms : List Moment) (from : ℕ)
        → IsMarkedRun limit mark start ms → AreScrubsCalm mark ms →
        IsRun limit start (m ∷ ms) → IsMark start ms from → IsMark start (m ∷ ms) from }
{}

/// In a calm run in which no audit missed damage, the begin of the last settled audit is at each moment a
/// mark.
pub fn settled_audits_are_marks()
    ensures { (limit : ℕ) (start : State) (ms : List Moment) → IsCalmRun limit start ms
        → IsMarkedRun limit (since start) start ms }
{}

/// The start of the run is a mark, in each run that is calm by it: where for no get, repair or scrub more
/// than b providers were replaced since the start, audits need not settle anything.
pub fn the_start_is_a_mark()
    ensures { (limit : ℕ) (start : State) (ms : List Moment) → IsStart start → AllTell start
        → IsRun limit start ms →
        IsCalm relies (λ moments. 0) ms → AreScrubsCalm (λ moments. 0) ms
        → IsMarkedRun limit (λ moments. 0) start ms }
{}

/// A provider that is wrong for a file in effect was replaced since the mark, which in a calm run in which no
/// audit missed damage is the begin of the last settled audit.
pub fn damage_in_effect_is_new()
    ensures { (limit : ℕ) (mark : Mark) (start : State) (ms : List Moment) (name : List ℕ) (file : File)
        (j : ℕ) →
        IsMarkedRun limit mark start ms → file_in (now start ms) name ≡ Some file
        → j < (setup_in (now start ms)).n →
        is_wrong_now (now start ms) file j ≡ true → IsReplaced (mark ms) j ms }
{}

/// In every run, calm or not, no settled audit begins after a put that runs, or whose record is in doubt.
pub fn puts_begin_after_settled_audits()
    ensures running { (limit : ℕ) (start : State) (ms : List Moment) (number : ℕ) (job : Job)
        (name bytes : List ℕ) → IsStart start →
        IsRun limit start ms → job_of (now start ms).jobs number ≡ Some job → job.kind ≡ PutJob name bytes
        → since start ms ≤ job.begun }
    ensures in_doubt { (limit : ℕ) (start : State) (ms : List Moment) (d : Doubt)
        (version id size profile : ℕ) → IsStart start → IsRun limit start ms →
        (now start ms).doubt ≡ Some d → d.entry ≡ done_record version id size profile
        → since start ms ≤ begun_of d.maker }
{}

/// In every run, calm or not, while a put's last record is in doubt, whether its job runs on or has ended,
/// and where it comes into effect, be it at its gate or as it is settled, each block of its file is the
/// provider's own column, unless the provider was replaced since the put's begin.
pub fn done_puts_are_columns()
    ensures in_doubt { (limit : ℕ) (start : State) (ms : List Moment) (d : Doubt)
        (id size profile j stripe : ℕ) (block : Option (List ℕ)) →
        IsStart start → IsRun limit start ms → (now start ms).doubt ≡ Some d
        → IsEndOfPut (now start ms).records d.entry id size profile →
        j < (setup_in (now start ms)).n
        → stripe < stripes (object_in (now start ms) profile id) (length ((now start ms).bytes id)) →
        is_replaced_since (begun_of d.maker) j ms ≡ false
        → told_block (now start ms) j id stripe ≡ Some block →
        block ≡ Some (columns (object_in (now start ms) profile id) ((now start ms).bytes id) j stripe) }
    ensures came { (limit : ℕ) (start : State) (m : Moment) (ms : List Moment) (r : Record)
        (id size profile : ℕ) → IsStart start → IsRun limit start (m ∷ ms) →
        came (now start ms) m.state ≡ Some r → IsEndOfPut (now start ms).records r id size profile
        → (d : Doubt) × ((now start ms).doubt ≡ Some d) × (d.entry ≡ r)
        × ((j stripe : ℕ) (block : Option (List ℕ)) → j < (setup_in m.state).n →
        stripe < stripes (object_in m.state profile id) (length (m.state.bytes id))
        → is_replaced_since (begun_of d.maker) j (m ∷ ms) ≡ false →
        told_block m.state j id stripe ≡ Some block
        → block ≡ Some (columns (object_in m.state profile id) (m.state.bytes id) j stripe)) }
{}

/// What a repair has stored, one that runs or whose record is in doubt, is the provider's own column, unless
/// the provider was replaced since the repair's begin: the symbols that its work gave are the file's.
pub fn repairs_store_columns()
    ensures stored { (limit : ℕ) (mark : Mark) (start : State) (ms : List Moment) (number : ℕ) (job : Job)
        (j object stripe : ℕ)
        (block : Option (List ℕ)) → IsMarkedRun limit mark start ms
        → job_of (now start ms).jobs number ≡ Some job → job.kind ≡ RepairJob →
        HasMadeStore (setup_in (now start ms)) job j object stripe
        → is_replaced_since job.begun j ms ≡ false →
        told_block (now start ms) j object stripe ≡ Some block →
        block
        ≡ Some (columns (worked_object (now start ms) job object) ((now start ms).bytes object) j stripe) }
    ensures in_doubt { (limit : ℕ) (mark : Mark) (start : State) (ms : List Moment) (d : Doubt) (job : Job)
        (j object stripe : ℕ)
        (block : Option (List ℕ)) → IsMarkedRun limit mark start ms → (now start ms).doubt ≡ Some d
        → d.maker ≡ Some job →
        job.kind ≡ RepairJob → HasMadeStore (setup_in (now start ms)) job j object stripe
        → is_replaced_since job.begun j ms ≡ false →
        told_block (now start ms) j object stripe ≡ Some block →
        block
        ≡ Some (columns (worked_object (now start ms) job object) ((now start ms).bytes object) j stripe) }
    ensures worked { (limit : ℕ) (mark : Mark) (start : State) (ms : List Moment) (number : ℕ) (job : Job)
        (object stripe : ℕ)
        (symbols : List ℕ) → IsMarkedRun limit mark start ms → job_of (now start ms).jobs number ≡ Some job
        → job.kind ≡ RepairJob →
        Contains job.given (Worked object stripe symbols) →
        symbols ≡ symbols_in (worked_object (now start ms) job object) ((now start ms).bytes object) stripe }
{}

/// In a calm run in which no audit missed damage, while a repair runs, each provider with a bad block of a
/// file in effect was replaced since the begin of its audit, or is flagged and the store of the block is
/// still to come; and once its record is in doubt, was replaced.
pub fn repairs_leave_new_damage()
    ensures running { (limit : ℕ) (start : State) (ms : List Moment) (number : ℕ) (job : Job)
        (name : List ℕ) (file : File) (j stripe : ℕ) →
        IsCalmRun limit start ms → job_of (now start ms).jobs number ≡ Some job → job.kind ≡ RepairJob →
        file_in (now start ms) name ≡ Some file → j < (setup_in (now start ms)).n →
        stripe < stripes (file_object (now start ms) file) (length ((now start ms).bytes file.id))
        → IsBad (now start ms) file.profile file.id j stripe →
        IsReplaced ((now start ms).audits job.subject) j ms ⊎ Remains (now start ms) job j file.id stripe }
    ensures in_doubt { (limit : ℕ) (start : State) (ms : List Moment) (d : Doubt) (number : ℕ)
        (name : List ℕ) (file : File) (j : ℕ) →
        IsCalmRun limit start ms → (now start ms).doubt ≡ Some d → d.entry ≡ RepairDone number →
        file_in (now start ms) name ≡ Some file → j < (setup_in (now start ms)).n
        → is_wrong_now (now start ms) file j ≡ true →
        IsReplaced ((now start ms).audits number) j ms }
{}

/// In a calm run in which no audit missed damage, while a repair is due, each provider that is wrong for a
/// file in effect was replaced since the begin of the audit, or is flagged by it.
pub fn damage_while_a_repair_is_due()
    ensures { (limit : ℕ) (start : State) (ms : List Moment) (u : Due) (name : List ℕ) (file : File) (j : ℕ)
        → IsCalmRun limit start ms →
        due_of (now start ms).records ≡ Some u → file_in (now start ms) name ≡ Some file
        → j < (setup_in (now start ms)).n →
        is_wrong_now (now start ms) file j ≡ true →
        IsReplaced ((now start ms).audits u.number) j ms
        ⊎ (is_flagged (setup_in (now start ms)).tolerance u.counts j ≡ true) }
{}

/// In a calm run in which no audit missed damage, while an audit runs or its last record is in doubt, each
/// provider that is wrong for a file in effect was replaced since its begin, or was wrong for it already at
/// that begin.
pub fn damage_while_an_audit_runs()
    ensures running { (limit : ℕ) (start : State) (ms : List Moment) (number : ℕ) (job : Job)
        (name : List ℕ) (file : File) (j : ℕ) →
        IsCalmRun limit start ms → job_of (now start ms).jobs number ≡ Some job → job.kind ≡ AuditJob →
        file_in (now start ms) name ≡ Some file → j < (setup_in (now start ms)).n
        → is_wrong_now (now start ms) file j ≡ true →
        IsReplaced job.begun j ms ⊎ WasWrong (now start (first_moments job.begun ms)) j file.id }
    ensures in_doubt { (limit : ℕ) (start : State) (ms : List Moment) (d : Doubt) (number undecided : ℕ)
        (counts : List ℕ) (name : List ℕ)
        (file : File) (j : ℕ) → IsCalmRun limit start ms → (now start ms).doubt ≡ Some d
        → d.entry ≡ AuditDone number undecided counts →
        file_in (now start ms) name ≡ Some file → j < (setup_in (now start ms)).n
        → is_wrong_now (now start ms) file j ≡ true →
        IsReplaced ((now start ms).audits number) j ms
        ⊎ WasWrong (now start (first_moments ((now start ms).audits number) ms)) j file.id }
{}

/// Of a file that a running job works on, each provider with a bad block was replaced since the mark as it
/// stood at the job's begin; and so was each that gave the job a wrong block, or it gave none and its count
/// of failed calls rose since that begin.
pub fn damage_of_pinned_files_is_new()
    ensures held { (limit : ℕ) (mark : Mark) (start : State) (ms : List Moment) (number : ℕ) (job : Job)
        (file : Pinned) (j stripe : ℕ) →
        IsMarkedRun limit mark start ms → job_of (now start ms).jobs number ≡ Some job
        → Contains job.pinned file →
        j < (setup_in (now start ms)).n
        → stripe < stripes (pinned_object (now start ms) file) (length ((now start ms).bytes file.id)) →
        IsBad (now start ms) file.profile file.id j stripe
        → IsReplaced (mark (first_moments job.begun ms)) j ms }
    ensures fetched { (limit : ℕ) (mark : Mark) (start : State) (ms : List Moment) (number : ℕ) (job : Job)
        (file : Pinned) (j stripe : ℕ)
        (block : Option (List ℕ)) → IsMarkedRun limit mark start ms
        → job_of (now start ms).jobs number ≡ Some job →
        Contains job.pinned file → j < (setup_in (now start ms)).n →
        stripe < stripes (pinned_object (now start ms) file) (length ((now start ms).bytes file.id)) →
        Contains job.given (Fetched j file.id stripe block) →
        is_wrong_block (pinned_object (now start ms) file) ((now start ms).bytes file.id) j stripe block
        ≡ true →
        IsReplaced (mark (first_moments job.begun ms)) j ms
        ⊎ ((block ≡ None) × RoseSince (now start (first_moments job.begun ms)) (now start ms) j) }
{}

/// In every run, calm or not, also while an audit's record is in doubt, whether its job runs on or has ended,
/// what providers tell of the files that it worked on is what they told at its begin, unless they were
/// replaced since.
pub fn audited_files_stay_in_doubt()
    ensures { (limit : ℕ) (start : State) (ms : List Moment) (d : Doubt) (job : Job) (file : Pinned)
        (j stripe : ℕ) → IsStart start →
        IsRun limit start ms → (now start ms).doubt ≡ Some d → d.maker ≡ Some job → job.kind ≡ AuditJob
        → Contains job.pinned file →
        is_replaced_since job.begun j ms ≡ false →
        told_block (now start ms) j file.id stripe
        ≡ told_block (now start (first_moments job.begun ms)) j file.id stripe }
{}

/// A finished scrub is a mark as well: in a run of providers that tell what they hold, calm counted from
/// finished scrubs for gets, repairs and scrubs, the begin of the last scrub that ended Ok is at each moment
/// a mark, and the second half holds, whatever audits missed; and at each moment from the scrub's end on, each
/// provider that was not replaced since that begin holds its own column exactly, of each stripe of each file
/// in effect.
pub fn finished_scrubs_are_marks()
    ensures marks { (limit : ℕ) (start : State) (ms : List Moment) → IsStart start → AllTell start
        → IsRun limit start ms → IsScrubCalm start ms → IsMarkedRun limit (scrubbed start) start ms }
    ensures half { (limit : ℕ) (start : State) (ms : List Moment) → IsStart start → AllTell start
        → IsRun limit start ms → IsScrubCalm start ms → SecondHalf start ms }
    ensures exact { (limit : ℕ) (start : State) (later ms : List Moment) → IsStart start → AllTell start
        → IsRun limit start (later ++ ms) → IsScrubCalm start (later ++ ms)
        → IsExact start (later ++ ms) (scrubbed start ms) }
{}

/// Where no scrub begins, calm scrubs ask nothing.
pub fn unscrubbed_runs_are_scrub_calm()
    ensures { (limit : ℕ) (mark : Mark) (start : State) (ms : List Moment) → IsStart start
        → IsRun limit start ms → BeginsNoScrub ms → AreScrubsCalm mark ms }
{}

/// From an init that came to ready on its setup is the one in effect, and with it how many providers may be
/// wrong.
pub fn inits_set_up()
    ensures { (limit : ℕ) (start : State) (later ms : List Moment) (m : Moment) (s : Setup) → IsStart start
        → IsRun limit start (later ++ m ∷ ms) → m.event ≡ Init s → m.outcome ≡ Ready
        → setup_in (now start (later ++ m ∷ ms)) ≡ s }
{}

/// Few damaged providers leave a run calm, told by events: where its alter and lose events name at most b
/// different providers, of the setup in effect, it is calm by every mark, for scrubs too, whatever came of
/// these events; and of providers that tell what they hold, its start is a mark.
pub fn few_damaged_providers_leave_runs_calm()
    ensures jobs { (limit : ℕ) (mark : Mark) (start : State) (ms : List Moment) (ps : List ℕ) → IsStart start
        → IsRun limit start ms → DamagesOnly ps ms → length ps ≤ (setup_in (now start ms)).b
        → IsCalm relies mark ms }
    ensures scrubs { (limit : ℕ) (mark : Mark) (start : State) (ms : List Moment) (ps : List ℕ)
        → IsStart start → IsRun limit start ms → DamagesOnly ps ms
        → length ps ≤ (setup_in (now start ms)).b → AreScrubsCalm mark ms }
    ensures marked { (limit : ℕ) (start : State) (ms : List Moment) (ps : List ℕ) → IsStart start
        → AllTell start → IsRun limit start ms → DamagesOnly ps ms
        → length ps ≤ (setup_in (now start ms)).b → IsMarkedRun limit (λ moments. 0) start ms }
{}

/// No audit missed damage, told by events and outcomes: where at most b providers are named for damage, and one
/// audit alone began, which ended with counts that flag each of them; and where no audit began, whoever is
/// damaged.
pub fn flagging_audits_miss_none()
    ensures flagged { (limit : ℕ) (start : State) (ms : List Moment) (ps : List ℕ) → IsStart start
        → AllTell start → IsRun limit start ms → DamagesOnly ps ms
        → length ps ≤ (setup_in (now start ms)).b → FindsAll (setup_in (now start ms)).tolerance ps ms
        → NoneMissed start ms }
    ensures unaudited { (limit : ℕ) (start : State) (ms : List Moment) → IsStart start
        → IsRun limit start ms → NoneBeganFor IsAudit ms → NoneMissed start ms }
{}

/// In a calm run in which no audit missed damage, told by events and outcomes: where an audit ended well and
/// the repair of its number ended well, the audit's begin is a mark at the end of the repair.
pub fn mended_stores_have_a_mark()
    ensures { (limit : ℕ) (start : State) (older ms : List Moment) → IsCalmRun limit start ms
        → IsMended older ms → IsMark start ms (length older) }
{}

/// A mark may move: to a moment since which all damage of files in effect is new, while no get and no repair
/// is under way. The run goes on calm by it, where the alter and lose events since that moment name at most b
/// providers, whoever was damaged before; no scrub begins in it.
pub fn marks_may_move()
    ensures { (limit : ℕ) (mark : Mark) (start : State) (later recent older : List Moment) (ps : List ℕ)
        → IsMarkedRun limit mark start (recent ++ older) → IsMark start (recent ++ older) (length older)
        → NoneUnderWay Relies (recent ++ older) → IsRun limit start (later ++ (recent ++ older))
        → BeginsNoScrub (later ++ (recent ++ older)) → DamagesOnly ps (later ++ recent)
        → length ps ≤ (setup_in (now start (later ++ (recent ++ older)))).b
        → IsMarkedRun limit (moved_mark (length (recent ++ older)) (length older) mark) start
        (later ++ (recent ++ older)) }
{}

/// What was put is got in a run that is calm by a mark, told by events and outcomes: a get of a stored file
/// that begins now and that a step ends gives the bytes that were put, or is lost, and then the count of
/// failed calls of a provider rose since; its begin is refused for MustReopen, Busy or Memory alone.
pub fn stored_files_are_got()
    ensures ends { (limit : ℕ) (mark : Mark) (start : State) (ms gaps : List Moment) (c g : Moment) (get : ℕ)
        (name bytes : List ℕ) (how : Answer) → IsMarkedRun limit mark start (g ∷ (gaps ++ c ∷ ms))
        → Stored ms name bytes → GetEnds c gaps g get name how
        → (how ≡ Got bytes) ⊎ IsLostByFaults (now start ms) g.state how }
    ensures begins { (limit : ℕ) (start : State) (ms : List Moment) (c : Moment) (name bytes : List ℕ)
        (why : Refusal) → IsStart start → IsRun limit start (c ∷ ms) → Stored ms name bytes
        → c.event ≡ Begin (GetJob name) → c.outcome ≡ Refused why → IsGetRefusal why }
{}
