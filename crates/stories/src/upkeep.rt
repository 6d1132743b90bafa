//! A file over audits, repairs, scrubs, packs, upgrades and stops of a replay, told by its text and by what it
//! wrote.
ghost use Rattle.std.specs.Prelude.{◌≡◌, ◌++◌, ◌∷◌, [], ◌+◌, ℕ, List, String, Option, None, Some, length};
ghost use Rattle.std.specs.declared.alloc.Global.{Global};
ghost use Rattle.record_defs.specs.Table.{find_file};
ghost use Rattle.machine_defs.specs.Jobs.{DropJob, AuditJob, RepairJob};
ghost use Rattle.machine_defs.specs.Answers.{Dropped, Audited, Repaired, Scrubbed, Packed, Upgraded};
ghost use Rattle.machine_defs.specs.Events.{BeginScrub, BeginPack, Stop, Names, Listed, put_event};
ghost use Rattle.machine_defs.specs.Untouched.{NoneBeganFor};
ghost use Rattle.effect_laws.specs.Transcripts.{NoneAsksFor, NonePuts, AsksPutsOnly, AreOver, AreOverOn, NoneIsBegun, job_behind};
ghost use Rattle.effect_laws.specs.Puts.{NoPutBegan};
ghost use Rattle.second_half_laws.specs.Flagging.{IsAudit};
ghost use Rattle.stories.specs.Words.{DamagesOnly, AsksDamageOf, AllTell, File, Answer, Put, Event, Begin, Begun, Ended, Outcome, Reopen, GetJob, UpgradeJob, IsToldAnswer, Moment, State, Instruction, Once, NoneAsksOn, Seen, Ending, called_behind};
ghost use Rattle.stories.specs.Files.{put_of, got_behind};
ghost use Rattle.epoch_laws.specs.Told.{done_by, ByScrubs, oldest};
ghost use Rattle.stories.specs.Told.{IsToldReplay};
ghost use Rattle.stories.specs.Beside.{GivesOldOrNew};
ghost use Rattle.stories.specs.Upkeep.{IsExactBehind, IsRightBehind, IsGotOver, IsKeptOver, IsUpkeep, AreSteps, GivesOrLoses, TellsNames};

use crate::texts::told_replays_are_read;
use epoch_laws::laws::gets_give_what_stood;
use epoch_laws::transcripts;
use hail_client::laws::images_of_devices;
use run_laws::laws::stored_files_are_kept;
use state_laws::laws::runs_are_sound;

/// Whatever comes between a put and its get but a put or a drop of the name: audits, repairs, scrubs, packs, upgrades,
/// lists, stops and reopenings, in any order. While at most b providers are damaged the get gives the bytes that were
/// put, or is lost by calls of providers that failed.
pub fn kept_files_are_got()
    ensures { (words : List (String Global)) (text : List ℕ) (front middle : List Instruction)
        (us ts : List Outcome) (name bytes : List ℕ) (own : Option ℕ) (p g : ℕ) (ps : List ℕ) (how : Answer)
        (start : State) (ms : List Moment) (old new : Seen) (end : Ending)
        → IsToldReplay words text (got_behind (middle ++ put_of front name bytes own p) name g)
        (Ended how ∷ Begun g ∷ (ts ++ Ended Put ∷ Begun p ∷ us)) start ms old new end
        → length ts ≡ length middle → IsToldAnswer how → AreOverOn name front us → NoneAsksOn name middle
        → AllTell start → DamagesOnly ps ms → AsksDamageOf ps (middle ++ put_of front name bytes own p)
        → IsGotOver start (called_behind start ms) new end name bytes g how (ps ∷ []) }
{
    files_behind_scrubs_are_got();
}

/// A scrub that ended well, then all others may go. A file is put; at most b providers are damaged; a scrub ends
/// well; then at most b are damaged, whichever they are. A get gives the bytes that were put, or is lost by calls of
/// providers that failed; and each provider that was not damaged since the scrub holds its own blocks exactly, of
/// every file. Other commands may stand between, but no begin of a put or a drop of the name.
pub fn scrubbed_files_are_got()
    ensures { (words : List (String Global)) (text : List ℕ) (front middle behind : List Instruction)
        (us ts rs : List Outcome) (name bytes : List ℕ) (own : Option ℕ) (p s g stripes : ℕ)
        (symbols blocks ps qs : List ℕ) (how : Answer) (start : State) (ms : List Moment) (old new : Seen)
        (end : Ending)
        → IsToldReplay words text
        (got_behind (behind ++ done_by BeginScrub s (middle ++ put_of front name bytes own p)) name g)
        (Ended how ∷ Begun g ∷ (rs ++ Ended (Scrubbed stripes symbols blocks) ∷ Begun s
        ∷ (ts ++ Ended Put ∷ Begun p ∷ us))) start ms old new end
        → length rs ≡ length behind → length ts ≡ length middle → IsToldAnswer how → AreOverOn name front us
        → NoneAsksOn name middle → NoneAsksOn name behind → AllTell start → DamagesOnly ps ms
        → AsksDamageOf ps (middle ++ put_of front name bytes own p) → AsksDamageOf qs behind
        → IsExactBehind start (called_behind start ms) new end name bytes g how ps qs }
{
    told_replays_are_read();
    transcripts::scrubbed_files_are_got();
}

/// An audit that flags, a repair, then others may go. A file is put; at most b providers are damaged; one audit is
/// run, whose counts flag each of them, and its repair; then at most b are damaged, whichever they are. A get gives
/// the bytes that were put, or is lost by calls of providers that failed; and no provider that was not damaged since
/// the audit began is wrong for any file: so the repaired ones are right. No audit came before, and gets and other
/// repairs are over by then.
pub fn repaired_files_are_got()
    ensures { (words : List (String Global)) (text : List ℕ) (front middle between behind : List Instruction)
        (us ts vs rs : List Outcome) (name bytes : List ℕ) (own : Option ℕ) (p a r g number undecided : ℕ)
        (counts ps qs : List ℕ) (how : Answer) (start : State) (ms : List Moment) (old new : Seen)
        (end : Ending)
        → IsToldReplay words text (got_behind (behind ++ done_by (Begin RepairJob) r
        (between ++ done_by (Begin AuditJob) a (middle ++ put_of front name bytes own p))) name g)
        (Ended how ∷ Begun g ∷ (rs ++ Ended (Repaired number) ∷ Begun r
        ∷ (vs ++ Ended (Audited number undecided counts) ∷ Begun a ∷ (ts ++ Ended Put ∷ Begun p ∷ us))))
        start ms old new end
        → length rs ≡ length behind → length vs ≡ length between → length ts ≡ length middle
        → IsToldAnswer how → AreOverOn name front us → NoneAsksOn name middle → NoneAsksOn name between
        → NoneAsksOn name behind → NoneBeganFor IsAudit ms → NoneAsksFor IsAudit front
        → NoneAsksFor IsAudit middle → NoneAsksFor IsAudit between
        → AreOver (between ++ done_by (Begin AuditJob) a (middle ++ put_of front name bytes own p))
        (vs ++ Ended (Audited number undecided counts) ∷ Begun a ∷ (ts ++ Ended Put ∷ Begun p ∷ us))
        → AllTell start → DamagesOnly ps ms → AsksDamageOf ps
        (between ++ done_by (Begin AuditJob) a (middle ++ put_of front name bytes own p))
        → AsksDamageOf qs between → AsksDamageOf qs behind
        → IsRightBehind start (called_behind start ms) new end name bytes g how counts ps qs }
{
    told_replays_are_read();
    transcripts::repaired_files_are_got();
}

/// A pack and an upgrade between a put and its get. A file is put; the journal is given its second version and
/// packed, so the get reads the file's record from the other area: it gives the bytes that were put, or is lost by
/// calls of providers that failed, where at most b providers are damaged.
pub fn packed_files_are_got()
    ensures { (words : List (String Global)) (text : List ℕ) (front middle between behind : List Instruction)
        (us ts vs rs : List Outcome) (name bytes : List ℕ) (own : Option ℕ) (p u k g full short : ℕ)
        (ps : List ℕ) (how : Answer) (start : State) (ms : List Moment) (old new : Seen) (end : Ending)
        → IsToldReplay words text (got_behind (behind ++ done_by BeginPack k
        (between ++ done_by (Begin UpgradeJob) u (middle ++ put_of front name bytes own p))) name g)
        (Ended how ∷ Begun g ∷ (rs ++ Ended (Packed full short) ∷ Begun k
        ∷ (vs ++ Ended Upgraded ∷ Begun u ∷ (ts ++ Ended Put ∷ Begun p ∷ us)))) start ms old new end
        → length rs ≡ length behind → length vs ≡ length between → length ts ≡ length middle
        → IsToldAnswer how → AreOverOn name front us → NoneAsksOn name middle → NoneAsksOn name between
        → NoneAsksOn name behind → AllTell start → DamagesOnly ps ms → AsksDamageOf ps behind
        → AsksDamageOf ps between → AsksDamageOf ps (middle ++ put_of front name bytes own p)
        → IsGotOver start (called_behind start ms) new end name bytes g how (ps ∷ []) }
{
    kept_files_are_got();
}

/// A stop in the middle of an audit, a repair, an upgrade, a scrub or a pack, after any number of its steps, and a
/// reopening: what was put before is got, whole where at most b providers are damaged, and each image of the disk
/// has it.
pub fn files_survive_cut_upkeep()
    ensures { (words : List (String Global)) (text : List ℕ) (front middle cut : List Instruction)
        (us ts rs : List Outcome) (event : Event) (k : ℕ) (picks : List ℕ) (name bytes : List ℕ)
        (own : Option ℕ) (p g : ℕ) (ps : List ℕ) (how : Answer) (start : State) (ms : List Moment)
        (old new : Seen) (end : Ending)
        → IsToldReplay words text (got_behind (Once Reopen ∷ Once (Stop picks)
        ∷ (cut ++ Once event ∷ (middle ++ put_of front name bytes own p))) name g)
        (Ended how ∷ Begun g ∷ (rs ++ (ts ++ Ended Put ∷ Begun p ∷ us))) start ms old new end
        → IsUpkeep event → AreSteps k cut → length rs ≡ 3 + length cut → length ts ≡ length middle
        → IsToldAnswer how → AreOverOn name front us → NoneAsksOn name middle → AllTell start → DamagesOnly ps ms
        → AsksDamageOf ps (middle ++ put_of front name bytes own p)
        → IsKeptOver start (called_behind start ms) new end name bytes g how ps }
{
    kept_files_are_got();
    stored_files_are_kept();
    runs_are_sound();
    images_of_devices();
}

/// While at most b providers are damaged each get of a replay ends well, wherever it stands, whoever runs beside
/// it, and whatever audits answered, also where rounds were undecided: it gave the bytes that stood under its name at
/// its begin, or is lost by calls of providers that failed.
pub fn every_get_ends_well()
    ensures { (words : List (String Global)) (text : List ℕ) (front between behind : List Instruction)
        (us ts rs : List Outcome) (name : List ℕ) (g : ℕ) (ps : List ℕ) (how : Answer) (start : State)
        (ms : List Moment) (old new : Seen) (end : Ending)
        → IsToldReplay words text (job_behind behind between (Begin (GetJob name)) g front)
        (rs ++ Ended how ∷ (ts ++ Begun g ∷ us)) start ms old new end → length rs ≡ length behind
        → length ts ≡ length between → NoneIsBegun g ts → IsToldAnswer how → AllTell start → DamagesOnly ps ms
        → AsksDamageOf ps (job_behind behind between (Begin (GetJob name)) g front)
        → GivesOrLoses start (called_behind start ms) new g name how (ps ∷ []) }
{
    every_get_behind_scrubs_ends_well();
}

/// Any number of scrubs that ended well, before the put, between it and its get, or behind: while at most b providers
/// are damaged between each and the next, whoever they are, the get gives the bytes that were put, or is lost by calls of
/// providers that failed.
pub fn files_behind_scrubs_are_got()
    ensures { (words : List (String Global)) (text : List ℕ) (front middle : List Instruction)
        (us ts : List Outcome) (name bytes : List ℕ) (own : Option ℕ) (p g : ℕ) (named : List (List ℕ))
        (how : Answer) (start : State) (ms : List Moment) (old new : Seen) (end : Ending)
        → IsToldReplay words text (got_behind (middle ++ put_of front name bytes own p) name g)
        (Ended how ∷ Begun g ∷ (ts ++ Ended Put ∷ Begun p ∷ us)) start ms old new end
        → length ts ≡ length middle → IsToldAnswer how → AreOverOn name front us → NoneAsksOn name middle
        → AllTell start → DamagesOnly (oldest named) ms
        → ByScrubs named (got_behind (middle ++ put_of front name bytes own p) name g)
        (Ended how ∷ Begun g ∷ (ts ++ Ended Put ∷ Begun p ∷ us))
        → IsGotOver start (called_behind start ms) new end name bytes g how named }
{
    told_replays_are_read();
    transcripts::files_behind_scrubs_are_got();
}

/// So each get of such a replay ends well, wherever it stands and whoever runs beside it: it gave the bytes that stood
/// under its name at its begin, or is lost by calls of providers that failed.
pub fn every_get_behind_scrubs_ends_well()
    ensures { (words : List (String Global)) (text : List ℕ) (front between behind : List Instruction)
        (us ts rs : List Outcome) (name : List ℕ) (g : ℕ) (named : List (List ℕ)) (how : Answer)
        (start : State) (ms : List Moment) (old new : Seen) (end : Ending)
        → IsToldReplay words text (job_behind behind between (Begin (GetJob name)) g front)
        (rs ++ Ended how ∷ (ts ++ Begun g ∷ us)) start ms old new end → length rs ≡ length behind
        → length ts ≡ length between → NoneIsBegun g ts → IsToldAnswer how → AllTell start
        → DamagesOnly (oldest named) ms
        → ByScrubs named (job_behind behind between (Begin (GetJob name)) g front)
        (rs ++ Ended how ∷ (ts ++ Begun g ∷ us))
        → GivesOrLoses start (called_behind start ms) new g name how named }
{
    told_replays_are_read();
    transcripts::scrubs_in_a_row_begin_epochs();
    gets_give_what_stood();
}

/// A put, and behind it any commands whose puts of the name are all of the same other bytes: cut by stops, run beside
/// others, dropped in between. A get, wherever it stands and whoever runs beside it, gave the ones or the others, whole,
/// or what it heard holds a forgery against them; while at most b providers are damaged it gave them, or is lost by
/// calls of providers that failed.
pub fn gets_give_old_or_new()
    ensures { (words : List (String Global)) (text : List ℕ)
        (front beside middle between behind : List Instruction) (us vs ts ws rs : List Outcome)
        (name bytes other : List ℕ) (own : Option ℕ) (p g : ℕ) (ps : List ℕ) (how : Answer) (start : State)
        (ms : List Moment) (old new : Seen) (end : Ending)
        → IsToldReplay words text (job_behind behind between (Begin (GetJob name)) g
        (job_behind middle beside (put_event own name bytes) p front))
        (rs ++ Ended how ∷ (ws ++ Begun g ∷ (ts ++ Ended Put ∷ (vs ++ Begun p ∷ us)))) start ms old new end
        → length rs ≡ length behind → length ws ≡ length between → length ts ≡ length middle
        → length vs ≡ length beside → NoneIsBegun g ws → NoneIsBegun p vs → IsToldAnswer how
        → AreOverOn name front us → NoneAsksOn name beside → AsksPutsOnly name other middle → AllTell start
        → DamagesOnly ps ms → AsksDamageOf ps (job_behind behind between (Begin (GetJob name)) g
        (job_behind middle beside (put_event own name bytes) p front))
        → GivesOldOrNew start (called_behind start ms) new end g name bytes other how (ps ∷ []) }
{
    gets_behind_scrubs_give_old_or_new();
}

/// So it is with any number of scrubs that ended well, while at most b providers are damaged between each and the next,
/// whoever they are.
pub fn gets_behind_scrubs_give_old_or_new()
    ensures { (words : List (String Global)) (text : List ℕ)
        (front beside middle between behind : List Instruction) (us vs ts ws rs : List Outcome)
        (name bytes other : List ℕ) (own : Option ℕ) (p g : ℕ) (named : List (List ℕ)) (how : Answer)
        (start : State) (ms : List Moment) (old new : Seen) (end : Ending)
        → IsToldReplay words text (job_behind behind between (Begin (GetJob name)) g
        (job_behind middle beside (put_event own name bytes) p front))
        (rs ++ Ended how ∷ (ws ++ Begun g ∷ (ts ++ Ended Put ∷ (vs ++ Begun p ∷ us)))) start ms old new end
        → length rs ≡ length behind → length ws ≡ length between → length ts ≡ length middle
        → length vs ≡ length beside → NoneIsBegun g ws → NoneIsBegun p vs → IsToldAnswer how
        → AreOverOn name front us → NoneAsksOn name beside → AsksPutsOnly name other middle → AllTell start
        → DamagesOnly (oldest named) ms
        → ByScrubs named (job_behind behind between (Begin (GetJob name)) g
        (job_behind middle beside (put_event own name bytes) p front))
        (rs ++ Ended how ∷ (ws ++ Begun g ∷ (ts ++ Ended Put ∷ (vs ++ Begun p ∷ us))))
        → GivesOldOrNew start (called_behind start ms) new end g name bytes other how named }
{
    told_replays_are_read();
    transcripts::scrubs_in_a_row_begin_epochs();
    gets_give_what_stood();
}

/// A list of the names in a replay tells of each name whether a file was in effect under it, and of which size: of one
/// that was put, and neither put nor dropped since, the size of its bytes; of one that was dropped, and not put since,
/// none; and none of one that nobody put. What comes behind the list is as it may be.
pub fn lists_tell_what_stands()
    ensures every { (words : List (String Global)) (text : List ℕ) (commands behind : List Instruction)
        (outcomes rs : List Outcome) (told : List File) (start : State) (ms : List Moment) (old new : Seen)
        (end : Ending)
        → IsToldReplay words text (behind ++ Once Names ∷ commands) (rs ++ Listed told ∷ outcomes) start ms old
        new end → length rs ≡ length behind → TellsNames start (called_behind start ms) new told }
    ensures put { (words : List (String Global)) (text : List ℕ) (front middle behind : List Instruction)
        (us ts rs : List Outcome) (told : List File) (name bytes : List ℕ) (own : Option ℕ) (p : ℕ)
        (start : State) (ms : List Moment) (old new : Seen) (end : Ending)
        → IsToldReplay words text (behind ++ Once Names ∷ (middle ++ put_of front name bytes own p))
        (rs ++ Listed told ∷ (ts ++ Ended Put ∷ Begun p ∷ us)) start ms old new end
        → length rs ≡ length behind → length ts ≡ length middle → AreOverOn name front us
        → NoneAsksOn name middle
        → (file : File) × (find_file told name ≡ Some file) × (file.size ≡ length bytes) }
    ensures drop { (words : List (String Global)) (text : List ℕ) (front middle behind : List Instruction)
        (us ts rs : List Outcome) (told : List File) (name : List ℕ) (d : ℕ) (start : State) (ms : List Moment)
        (old new : Seen) (end : Ending)
        → IsToldReplay words text (behind ++ Once Names ∷ (middle ++ done_by (Begin (DropJob name)) d front))
        (rs ++ Listed told ∷ (ts ++ Ended Dropped ∷ Begun d ∷ us)) start ms old new end
        → length rs ≡ length behind → length ts ≡ length middle → AreOverOn name front us
        → NonePuts name middle → find_file told name ≡ None }
    ensures none { (words : List (String Global)) (text : List ℕ) (commands behind : List Instruction)
        (outcomes rs : List Outcome) (told : List File) (name : List ℕ) (start : State) (ms : List Moment)
        (old new : Seen) (end : Ending)
        → IsToldReplay words text (behind ++ Once Names ∷ commands) (rs ++ Listed told ∷ outcomes) start ms old
        new end → length rs ≡ length behind → NonePuts name commands → NoPutBegan name ms
        → find_file told name ≡ None }
{
    told_replays_are_read();
}
