//! A file over scrubs, audits and repairs, as a transcript of a run tells it.
ghost use Rattle.std.specs.Prelude.{◌≡◌, ◌++◌, ◌∷◌, [], ℕ, true, List, Option, None, length};
ghost use Rattle.algebra_laws.specs.Lists.{In};
ghost use Rattle.column_defs.specs.Verdicts.{is_flagged};
ghost use Rattle.machine_defs.specs.Answers.{Answer, Put, Audited, Repaired, Scrubbed};
ghost use Rattle.machine_defs.specs.Damaged.{DamagesOnly, AsksDamageOf};
ghost use Rattle.machine_defs.specs.Events.{Begin, BeginScrub, Outcome, Begun, Ended, put_event};
ghost use Rattle.machine_defs.specs.Halves.{AllTell};
ghost use Rattle.machine_defs.specs.Jobs.{GetJob, AuditJob, RepairJob};
ghost use Rattle.machine_defs.specs.Runs.{Moment, IsRun, now};
ghost use Rattle.machine_defs.specs.Scrubs.{IsScrubCalm, scrubbed};
ghost use Rattle.machine_defs.specs.States.{State, IsStart, setup_in};
ghost use Rattle.machine_defs.specs.Transcripts.{Instruction};
ghost use Rattle.machine_defs.specs.Untouched.{Relies, NoneUnderWay, NoneBeganFor, IsFree, NoneAsksOn};
ghost use Rattle.second_half_laws.specs.Flagging.{IsAudit};
ghost use Rattle.second_half_laws.specs.MarkedRuns.{IsMarkedRun};
ghost use Rattle.state_laws.specs.Sound.{IsLimit};
ghost use Rattle.effect_laws.specs.Lists.{ReadsAs};
ghost use Rattle.effect_laws.specs.Transcripts.{NoneAsksFor, AreOver, AreOverOn};
ghost use Rattle.epoch_laws.specs.Epochs.{AreExactBut, AreRightBut};
ghost use Rattle.epoch_laws.specs.Told.{done_by, AreFew, GotBack, IsWhole, ByScrubs, oldest};

/// A put, a scrub that ended well, and a get, with other commands between that begin no put and no drop of the name.
/// While at most b providers are damaged up to the scrub's end, and at most b since its begin, the get gave the bytes
/// that were put, or is lost by calls of providers that failed; and each provider that was not damaged since the
/// scrub's begin holds its own blocks exactly, of every file.
pub fn scrubbed_files_are_got()
    ensures { (limit : ℕ) (start : State) (base ms : List Moment) (front middle behind : List Instruction)
        (us ts rs : List Outcome) (name bytes : List ℕ) (own : Option ℕ) (p s g stripes : ℕ)
        (symbols blocks ps qs : List ℕ) (how : Answer) → IsStart start → AllTell start
        → IsRun limit start (ms ++ base)
        → ReadsAs (done_by (Begin (GetJob name)) g (behind ++ done_by BeginScrub s
        (middle ++ done_by (put_event own name bytes) p front))) ms
        (Ended how ∷ Begun g ∷ (rs ++ Ended (Scrubbed stripes symbols blocks) ∷ Begun s
        ∷ (ts ++ Ended Put ∷ Begun p ∷ us)))
        → length rs ≡ length behind → length ts ≡ length middle → AreOverOn name front us → IsFree name base
        → NoneAsksOn name middle → NoneAsksOn name behind → DamagesOnly ps base
        → AsksDamageOf ps (middle ++ done_by (put_event own name bytes) p front) → AsksDamageOf qs behind
        → (G : GotBack base ms name bytes g how) × (AreFew (ps ∷ qs ∷ []) (now start (ms ++ base))
        → IsWhole start G × AreExactBut qs (now start (ms ++ base))) }
{}

/// A put, an audit whose counts flag each provider that was damaged, its repair, and a get, with other commands
/// between that begin no put and no drop of the name. While at most b providers are damaged up to the repair's end,
/// and at most b since the audit's begin, the get gave the bytes that were put, or is lost by calls of providers that
/// failed; and no provider that was not damaged since the audit's begin is wrong for any file: the repaired ones are
/// right. No audit came before, and gets and other repairs are over when the repair begins.
pub fn repaired_files_are_got()
    ensures { (limit : ℕ) (start : State) (base ms : List Moment)
        (front middle between behind : List Instruction) (us ts vs rs : List Outcome) (name bytes : List ℕ)
        (own : Option ℕ) (p a r g number undecided : ℕ) (counts ps qs : List ℕ) (how : Answer)
        → IsLimit limit → IsStart start → AllTell start → IsRun limit start (ms ++ base)
        → ReadsAs (done_by (Begin (GetJob name)) g (behind ++ done_by (Begin RepairJob) r
        (between ++ done_by (Begin AuditJob) a (middle ++ done_by (put_event own name bytes) p front)))) ms
        (Ended how ∷ Begun g ∷ (rs ++ Ended (Repaired number) ∷ Begun r
        ∷ (vs ++ Ended (Audited number undecided counts) ∷ Begun a ∷ (ts ++ Ended Put ∷ Begun p ∷ us))))
        → length rs ≡ length behind → length vs ≡ length between → length ts ≡ length middle
        → AreOverOn name front us → IsFree name base → NoneAsksOn name middle → NoneAsksOn name between
        → NoneAsksOn name behind → NoneBeganFor IsAudit base → NoneUnderWay Relies base
        → NoneAsksFor IsAudit front → NoneAsksFor IsAudit middle → NoneAsksFor IsAudit between
        → AreOver (between ++ done_by (Begin AuditJob) a
        (middle ++ done_by (put_event own name bytes) p front))
        (vs ++ Ended (Audited number undecided counts) ∷ Begun a ∷ (ts ++ Ended Put ∷ Begun p ∷ us))
        → DamagesOnly ps base → AsksDamageOf ps (between ++ done_by (Begin AuditJob) a
        (middle ++ done_by (put_event own name bytes) p front)) → AsksDamageOf qs between
        → AsksDamageOf qs behind
        → (G : GotBack base ms name bytes g how) × (AreFew (ps ∷ qs ∷ []) (now start (ms ++ base))
        → ((j : ℕ) → In j ps
        → is_flagged (setup_in (now start (ms ++ base))).tolerance counts j ≡ true)
        → IsWhole start G × AreRightBut qs (now start (ms ++ base))) }
{}

/// A put and a get, with any commands between that begin no put and no drop of the name: audits, repairs, scrubs,
/// packs, upgrades, stops and reopenings. While at most b providers are damaged in all the get gave the bytes that were
/// put, or is lost by calls of providers that failed.
pub fn kept_files_are_got()
    ensures { (limit : ℕ) (start : State) (base ms : List Moment) (front middle : List Instruction)
        (us ts : List Outcome) (name bytes : List ℕ) (own : Option ℕ) (p g : ℕ) (ps : List ℕ) (how : Answer)
        → IsStart start → AllTell start → IsRun limit start (ms ++ base)
        → ReadsAs (done_by (Begin (GetJob name)) g (middle ++ done_by (put_event own name bytes) p front)) ms
        (Ended how ∷ Begun g ∷ (ts ++ Ended Put ∷ Begun p ∷ us)) → length ts ≡ length middle
        → AreOverOn name front us → IsFree name base → NoneAsksOn name middle → DamagesOnly ps base
        → AsksDamageOf ps (middle ++ done_by (put_event own name bytes) p front)
        → (G : GotBack base ms name bytes g how) × (AreFew (ps ∷ []) (now start (ms ++ base))
        → IsWhole start G) }
{}

/// Scrubs that ended well, one behind the other, with any commands between: while at most b providers are damaged
/// between each and the next, whoever they are, the run is calm, counted from finished scrubs, and so by a mark; and
/// each provider that was not damaged since the last one's begin holds its own blocks exactly, of every file.
pub fn scrubs_in_a_row_begin_epochs()
    ensures calm { (limit : ℕ) (start : State) (base ms : List Moment) (commands : List Instruction)
        (outcomes : List Outcome) (named : List (List ℕ)) → IsStart start → IsRun limit start (ms ++ base)
        → ReadsAs commands ms outcomes → ByScrubs named commands outcomes → DamagesOnly (oldest named) base
        → AreFew named (now start (ms ++ base)) → IsScrubCalm start (ms ++ base) }
    ensures marked { (limit : ℕ) (start : State) (base ms : List Moment) (commands : List Instruction)
        (outcomes : List Outcome) (named : List (List ℕ)) → IsStart start → AllTell start
        → IsRun limit start (ms ++ base) → ReadsAs commands ms outcomes → ByScrubs named commands outcomes
        → DamagesOnly (oldest named) base → AreFew named (now start (ms ++ base))
        → IsMarkedRun limit (scrubbed start) start (ms ++ base) }
    ensures exact { (limit : ℕ) (start : State) (base ms : List Moment) (commands : List Instruction)
        (outcomes : List Outcome) (qs ps : List ℕ) (named : List (List ℕ)) → IsStart start → AllTell start
        → IsRun limit start (ms ++ base) → ReadsAs commands ms outcomes
        → ByScrubs (qs ∷ ps ∷ named) commands outcomes → DamagesOnly (oldest (ps ∷ named)) base
        → AreFew (qs ∷ ps ∷ named) (now start (ms ++ base)) → AreExactBut qs (now start (ms ++ base)) }
{}

/// So a put and a get, with any number of such scrubs before, between and behind: while at most b providers are
/// damaged between each and the next the get gave the bytes that were put, or is lost by calls of providers that
/// failed. Other commands may stand between, but no begin of a put or a drop of the name.
pub fn files_behind_scrubs_are_got()
    ensures { (limit : ℕ) (start : State) (base ms : List Moment) (front middle : List Instruction)
        (us ts : List Outcome) (name bytes : List ℕ) (own : Option ℕ) (p g : ℕ) (named : List (List ℕ))
        (how : Answer) → IsStart start → AllTell start → IsRun limit start (ms ++ base)
        → ReadsAs (done_by (Begin (GetJob name)) g (middle ++ done_by (put_event own name bytes) p front)) ms
        (Ended how ∷ Begun g ∷ (ts ++ Ended Put ∷ Begun p ∷ us)) → length ts ≡ length middle
        → AreOverOn name front us → IsFree name base → NoneAsksOn name middle
        → ByScrubs named (done_by (Begin (GetJob name)) g (middle ++ done_by (put_event own name bytes) p front))
        (Ended how ∷ Begun g ∷ (ts ++ Ended Put ∷ Begun p ∷ us)) → DamagesOnly (oldest named) base
        → (G : GotBack base ms name bytes g how) × (AreFew named (now start (ms ++ base)) → IsWhole start G) }
{}
