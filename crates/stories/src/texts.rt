//! A file over a replay, read from two texts: the schedule's, and what was written.
ghost use Rattle.std.specs.Prelude.{◌≡◌, ◌⊎◌, ◌≤◌, ◌++◌, ℕ, List, ◌∷◌, String, Option, Some, true, is_some, length, reverse};
ghost use Rattle.std.specs.declared.alloc.Global.{Global};
ghost use Rattle.stories.specs.Words.{EachImage, File, Answer, Got, DamagesOnly, AsksDamageOf, AllTell, HoldsForgery, Moment, now, Outcome, State, setup_in, file_in, file_object, Instruction, NoneAsksOn, LeavesFree, Seen, Ending, IsSchedule, IsLostByFaults, ImageHasFile, devices_of_seen, IsReplayForm, AreLeft, called_behind, AnswersWords};
ghost use Rattle.stories.specs.Files.{put_of, got_behind, IsGot, IsGotWhole};
ghost use Rattle.stories.specs.Said.{SaysPut, SaysGot};
ghost use Rattle.stories.specs.Told.{IsToldReplay, WasTold};
ghost use Rattle.effect_laws.specs.Scrubs.{AreButBlocks};

use crate::laws::replays_go_on;
use crate::schedules::{
    few_damaged_providers_do_no_harm, what_is_put_is_got, what_is_put_survives,
};
use effect_laws::transcripts::{texts_tell_scrubs, written_texts_are_told};

/// A replay that is told by its text and by what it wrote: moments carry out its commands, which ended as told, but
/// for the blocks of a scrub, which its line leaves out.
pub fn told_replays_are_read()
    ensures { (words : List (String Global)) (text : List ℕ) (commands : List Instruction)
        (outcomes : List Outcome) (start : State) (ms : List Moment) (old new : Seen) (end : Ending)
        → IsToldReplay words text commands outcomes start ms old new end
        → (own : List Outcome) × AreButBlocks own outcomes × WasTold commands own start ms new end }
{
    replays_go_on();
    texts_tell_scrubs();
    written_texts_are_told();
}

/// The stories of a file over a replay, where what was written says that its put ended well, and its get with
/// an answer: bytes that were got are those that were put, or the report holds a forgery; while at most b
/// providers are damaged they are those bytes, or the get is lost by calls that failed; and each image that a
/// stop may leave of the disk has the file.
pub fn texts_tell_the_stories()
    ensures got { (words : List (String Global)) (text : List ℕ) (front middle : List Instruction)
        (name bytes : List ℕ) (own : Option ℕ) (p g : ℕ) (start : State) (ms : List Moment)
        (old new : Seen) (end : Ending)
        (taken said got : List ℕ)
        → AnswersWords words old new end → IsReplayForm words → old.source ≡ Some text
        → IsSchedule text (reverse (got_behind (middle ++ put_of front name bytes own p) name g))
        → LeavesFree name front → NoneAsksOn name middle → end.status ≡ 0 → is_some old.disk ≡ true
        → AreLeft start ms (devices_of_seen old)
        → old.sink ≡ Some taken → new.sink ≡ Some (taken ++ said) → SaysGot said front p g middle (Got got)
        → (G : IsGot front middle own start (called_behind start ms) old new end p g name bytes) × ((got ≡ bytes) ⊎ ((file : File)
        × (file_in (now start (G.before ++ called_behind start ms)) name ≡ Some file)
        × HoldsForgery (file_object (now start (G.before ++ called_behind start ms)) file) bytes g end.heard)) }
    ensures whole { (words : List (String Global)) (text : List ℕ) (front middle : List Instruction)
        (name bytes : List ℕ) (own : Option ℕ) (p g : ℕ) (ps : List ℕ) (start : State) (ms : List Moment)
        (old new : Seen) (end : Ending) (taken said : List ℕ) (how : Answer)
        → AnswersWords words old new end → IsReplayForm words → old.source ≡ Some text
        → IsSchedule text (reverse (got_behind (middle ++ put_of front name bytes own p) name g))
        → LeavesFree name front → NoneAsksOn name middle → end.status ≡ 0 → is_some old.disk ≡ true
        → AreLeft start ms (devices_of_seen old) → AllTell start → DamagesOnly ps ms
        → AsksDamageOf ps (middle ++ put_of front name bytes own p)
        → old.sink ≡ Some taken → new.sink ≡ Some (taken ++ said) → SaysGot said front p g middle how
        → (W : IsGotWhole front middle own start (called_behind start ms) old new end p g ps name bytes)
        × (length ps
        ≤ (setup_in (now start (W.got.last ∷ (W.got.gaps ++ W.got.begin
        ∷ (W.got.before ++ called_behind start ms))))).b
        → (how ≡ Got bytes) ⊎ IsLostByFaults (now start (W.got.before ++ called_behind start ms)) W.got.last.state how) }
    ensures survives { (words : List (String Global)) (text : List ℕ) (front middle : List Instruction)
        (name bytes : List ℕ) (own : Option ℕ) (p : ℕ) (start : State) (ms : List Moment)
        (old new : Seen) (end : Ending)
        (taken said : List ℕ)
        → AnswersWords words old new end → IsReplayForm words → old.source ≡ Some text
        → IsSchedule text (reverse (middle ++ put_of front name bytes own p)) → LeavesFree name front
        → NoneAsksOn name middle → end.status ≡ 0 → is_some old.disk ≡ true → AreLeft start ms (devices_of_seen old)
        → old.sink ≡ Some taken → new.sink ≡ Some (taken ++ said) → SaysPut said front p middle
        → (file : File) × (file.size ≡ length bytes) × EachImage new.disk (ImageHasFile name file) }
{
    what_is_put_is_got();
    few_damaged_providers_do_no_harm();
    what_is_put_survives();
}
