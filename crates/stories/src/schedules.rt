//! A file over a replay: what is put is got, and survives every stop.
ghost use Rattle.std.specs.Prelude.{◌≡◌, ◌++◌, ℕ, List, String, Option, Some, true, is_some, reverse};
ghost use Rattle.std.specs.declared.alloc.Global.{Global};
ghost use Rattle.stories.specs.Words.{DamagesOnly, AsksDamageOf, AllTell, Moment, State, Instruction, NoneAsksOn, LeavesFree, AsksPutsOnly, NoneCalls, Seen, Ending, IsSchedule, devices_of_seen, IsReplayForm, AreLeft, called_behind, AnswersWords};
ghost use Rattle.stories.specs.Beside.{IsBeside};
ghost use Rattle.stories.specs.Files.{put_of, got_behind, IsGot, IsGotWhole, Survives};

use crate::laws::replays_go_on;
use hail_client::laws::images_of_devices;
use machine_defs::laws::commands_damage_only;
use run_laws::laws::stored_files_are_kept;
use second_half_laws::laws::{few_damaged_providers_leave_runs_calm, stored_files_are_got};
use state_laws::laws::runs_are_sound;

/// What is put is got. A schedule puts a file under a name that no put or drop before it holds; then come any
/// events, losses, alterations, lists and stops at any step among them, but no begin of a put or a drop of the
/// name; then a get of it. Over devices that any run has left, where the lines tell that the put ended well and
/// the get gave bytes, these are the bytes that were put, or what the get heard holds a forgery against them.
pub fn what_is_put_is_got()
    ensures { (words : List (String Global)) (text : List ℕ) (front middle : List Instruction)
        (name bytes : List ℕ) (own : Option ℕ) (p g : ℕ) (start : State) (ms : List Moment)
        (old new : Seen) (end : Ending)
        → AnswersWords words old new end → IsReplayForm words → old.source ≡ Some text
        → IsSchedule text (reverse (got_behind (middle ++ put_of front name bytes own p) name g))
        → LeavesFree name front → NoneAsksOn name middle → end.status ≡ 0 → is_some old.disk ≡ true
        → AreLeft start ms (devices_of_seen old) → IsGot front middle own start (called_behind start ms) old new end p g name bytes }
{
    replays_go_on();
}

/// While at most b providers are damaged, what is put is got whole: where the alter and lose events of the
/// schedule, and of the run before it, name at most b providers, all of which tell what they hold, a get that
/// ends gives the bytes that were put, or is lost, and then a call of a provider failed since its begin.
pub fn few_damaged_providers_do_no_harm()
    ensures { (words : List (String Global)) (text : List ℕ) (front middle : List Instruction)
        (name bytes : List ℕ) (own : Option ℕ) (p g : ℕ) (ps : List ℕ) (start : State) (ms : List Moment)
        (old new : Seen) (end : Ending)
        → AnswersWords words old new end → IsReplayForm words → old.source ≡ Some text
        → IsSchedule text (reverse (got_behind (middle ++ put_of front name bytes own p) name g))
        → LeavesFree name front → NoneAsksOn name middle → end.status ≡ 0 → is_some old.disk ≡ true
        → AreLeft start ms (devices_of_seen old) → AllTell start → DamagesOnly ps ms
        → AsksDamageOf ps (middle ++ put_of front name bytes own p)
        → IsGotWhole front middle own start (called_behind start ms) old new end p g ps name bytes }
{
    replays_go_on();
    commands_damage_only();
    few_damaged_providers_leave_runs_calm();
    stored_files_are_got();
}

/// What is put survives a stop at any step: behind such a put and such events, wherever among the steps of
/// other jobs the schedule ends or stops the client, each image that a stop may leave of the disk has the
/// file, and its number stands for the bytes that were put.
pub fn what_is_put_survives()
    ensures { (words : List (String Global)) (text : List ℕ) (front middle : List Instruction)
        (name bytes : List ℕ) (own : Option ℕ) (p : ℕ) (start : State) (ms : List Moment)
        (old new : Seen) (end : Ending)
        → AnswersWords words old new end → IsReplayForm words → old.source ≡ Some text
        → IsSchedule text (reverse (middle ++ put_of front name bytes own p)) → LeavesFree name front
        → NoneAsksOn name middle → end.status ≡ 0 → is_some old.disk ≡ true → AreLeft start ms (devices_of_seen old)
        → Survives front middle own start (called_behind start ms) old new p name bytes }
{
    replays_go_on();
    stored_files_are_kept();
    runs_are_sound();
    images_of_devices();
}

/// Gets beside puts of the same name give the old bytes or the new ones, whole. A schedule puts a file; then come
/// any commands, up to eight jobs beside each other, stops and reopenings, whose puts of the name are all of the
/// same other bytes. Where the put ended well, each get of the name that began among them, and ended with bytes,
/// gave the ones or the others, or what it heard holds a forgery against them; and while none of them drops the
/// name it has a file.
pub fn gets_beside_puts_give_old_or_new()
    ensures { (words : List (String Global)) (text : List ℕ) (front behind : List Instruction)
        (name bytes other : List ℕ) (own : Option ℕ) (p : ℕ) (start : State) (ms : List Moment)
        (old new : Seen) (end : Ending)
        → AnswersWords words old new end → IsReplayForm words → old.source ≡ Some text
        → IsSchedule text (reverse (behind ++ put_of front name bytes own p)) → LeavesFree name front
        → AsksPutsOnly name other behind → NoneCalls behind → end.status ≡ 0 → is_some old.disk ≡ true
        → AreLeft start ms (devices_of_seen old)
        → IsBeside front behind own start (called_behind start ms) old new end p name bytes other }
{
    replays_go_on();
}
