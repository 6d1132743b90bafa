//! Each command goes on with the run that left its devices.
ghost use Rattle.std.specs.Prelude.{◌≡◌, ◌++◌, ℕ, List, [], String, Option, Some, true, is_some};
ghost use Rattle.std.specs.declared.alloc.Global.{Global};
ghost use Rattle.command_laws.specs.Pieces.{IsCall};
ghost use Rattle.hail_replay.specs.declared.forms.Form.{Form};
ghost use Rattle.stories.specs.Words.{Moment, now, State, Instruction, Command, Numbers, RowOf, InitWith, GetOf, IsForm, Seen, Ending, opens_store, held_name, empty_devices, ends, IsSchedule, start_of, devices_of_seen, list_before, list_behind, ended_with, IsFormOf, IsReplayForm, AreLeft, AnswersWords};
ghost use Rattle.stories.specs.Went.{WentOn};

use command_laws::instances::there_are_answers;
use command_laws::pieces::{commands_are_runs, forms_are_spelled};
use command_words::laws::words_spell_one_command;
use hail_replay::laws::a_list_is_replayed;
use state_laws::laws::runs_are_sound;

/// The devices that a command leaves, at any status, over devices that a run has left are left by a run
/// again: those of a command over a store by the moments that the machine makes of it, those of an init by
/// none or by its event, those of a replay or a trial by a later call of the program and its events, and
/// those of a row as they were.
pub fn commands_leave_devices()
    ensures stores { (words : List (String Global)) (command : Command) (start : State) (ms : List Moment)
        (old new : Seen) (end : Ending) → AnswersWords words old new end → IsForm words command
        → opens_store command ≡ true → is_some old.disk ≡ true → AreLeft start ms (devices_of_seen old)
        → (own : List Moment) × IsCall command old new end (now start ms) own
        × AreLeft start (own ++ ms) (devices_of_seen new) }
    ensures init { (words : List (String Global)) (numbers : Numbers) (start : State) (ms : List Moment)
        (old new : Seen) (end : Ending) → AnswersWords words old new end
        → IsForm words (InitWith numbers) → is_some old.disk ≡ true → AreLeft start ms (devices_of_seen old)
        → (own : List Moment) × AreLeft start (own ++ ms) (devices_of_seen new) }
    ensures carried { (words : List (String Global)) (form : Form) (start : State) (ms : List Moment)
        (old new : Seen) (end : Ending) → AnswersWords words old new end → IsFormOf words form
        → is_some old.disk ≡ true → AreLeft start ms (devices_of_seen old)
        → (own : List Moment) × AreLeft start (own ++ ms) (devices_of_seen new) }
    ensures row { (words : List (String Global)) (n l b : ℕ) (symbols : List (Option ℕ)) (start : State)
        (ms : List Moment) (old new : Seen) (end : Ending) → AnswersWords words old new end
        → IsForm words (RowOf n l b symbols) → AreLeft start ms (devices_of_seen old)
        → AreLeft start ms (devices_of_seen new) }
{
    runs_are_sound();
    commands_are_runs();
    forms_are_spelled();
}

/// A replay of status 0, over devices that a run has left, has done the commands that its text spells.
pub fn replays_go_on()
    ensures { (words : List (String Global)) (text : List ℕ) (commands : List Instruction)
        (start : State) (ms : List Moment) (old new : Seen) (end : Ending) → AnswersWords words old new end
        → IsReplayForm words → old.source ≡ Some text → IsSchedule text commands → end.status ≡ 0
        → is_some old.disk ≡ true → AreLeft start ms (devices_of_seen old)
        → WentOn start ms commands old new end }
{}

/// Instances: words that spell a replay, where the source has `list` and the disk is empty, and words that
/// spell a get of a name, where nothing is set up. Both are answered; devices with an empty disk are left by
/// the run of no event.
pub fn a_list_and_a_get_go_on()
    ensures replay { (words : List (String Global)) → IsReplayForm words
        → AnswersWords words list_before list_behind (ended_with 0) }
    ensures get { (words : List (String Global)) → IsForm words (GetOf held_name)
        → AnswersWords words empty_devices empty_devices (ends 9) }
    ensures left { AreLeft (start_of (devices_of_seen list_before) []) [] (devices_of_seen list_before)
        × AreLeft (start_of (devices_of_seen empty_devices) []) [] (devices_of_seen empty_devices) }
{
    a_list_is_replayed();
    there_are_answers();
    words_spell_one_command();
}
