//! What a scrub leaves that runs alone, from a state whose vault was just opened.
ghost use Rattle.std.specs.Prelude.{◌≡◌, ℕ, [], List, length, None};
ghost use Rattle.record_defs.specs.Records.{Record};
ghost use Rattle.machine_defs.specs.Alone.{alone_refusal};
ghost use Rattle.machine_defs.specs.Answers.{Answer};
ghost use Rattle.machine_defs.specs.States.{State};
ghost use Rattle.command_defs.specs.Opens as opens;
ghost use Rattle.command_defs.specs.Ran.{ran_from};
ghost use Rattle.command_defs.specs.Scrubs.{ScrubLeaves, RunsScrub, ScrubsAlone, ScrubbedAlone};
ghost use Rattle.command_defs.specs.Seen.{Seen};
ghost use Rattle.opening_defs.specs.Opened.{IsOpenAtRest};
ghost use Rattle.scrub_laws.specs.Ended.{IsOfScrub, IsPastScrub};

/// A vault that was just opened refuses no scrub.
pub fn open_vaults_refuse_no_scrub()
    ensures { (w : State) → IsOpenAtRest w 1 → alone_refusal w [] ≡ None }
{}

/// What a scrub leaves, however it ends: blocks on providers and their counts, and nothing else of the state.
pub fn scrubs_leave()
    ensures left { (w new : State) (moment : ℕ) (answer : Answer) → IsOpenAtRest w 1
        → RunsScrub w moment answer new → ScrubLeaves (ran_from w new []) answer }
    ensures past { (w new : State) (moment : ℕ) (answer : Answer) → IsOpenAtRest w 1
        → RunsScrub w moment answer new → IsPastScrub w new }
    ensures answers { (w new : State) (moment : ℕ) (answer : Answer) → IsOpenAtRest w 1
        → RunsScrub w moment answer new → IsOfScrub answer }
{}

/// What a scrub leaves whose command tells of its run.
pub fn told_scrubs_leave()
    ensures { (records : List Record) (answer : Answer) (old new : Seen)
        → (opened : opens.IsOpened old records)
        → length new.providers ≡ length old.providers → ScrubsAlone opened.area records answer old new →
        ScrubbedAlone records answer old new }
{}
