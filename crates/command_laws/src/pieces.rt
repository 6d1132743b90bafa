//! Commands as pieces of one run: each is a later call of the program, a reopening, the begin of its job, of
//! a scrub or of a pack, and its steps, from any moment.
ghost use Rattle.std.specs.Prelude.{◌≡◌, true, List, ◌++◌, String};
ghost use Rattle.machine_defs.specs.Runs.{Moment, now, IsRun};
ghost use Rattle.machine_defs.specs.States.{State};
ghost use Rattle.record_defs.specs.Records.{Record};
ghost use Rattle.std.specs.declared.alloc.Global.{Global};
ghost use Rattle.command_defs.specs.Forms.{Command, IsForm};
ghost use Rattle.command_defs.specs.Seen.{Seen, Ending, NoCountFalls};
ghost use Rattle.command_defs.specs.Commands.{Answers};
ghost use Rattle.command_laws.specs.Ends.{opens_store};
ghost use Rattle.command_laws.specs.After.{IsSure};
ghost use Rattle.command_laws.specs.Pieces.{IsStore, IsSpelledCommand, IsCall, IsLater, AreBetween, Call, last_seen, IsChain, AreCalls};

/// Commands that look at a store go on with the run that left their devices, whatever comes of them; so do
/// stops and replacements between commands. So commands one after the other are one run of the machine. Over
/// each known store there is a state from which such a run begins.
pub fn commands_are_runs()
    ensures call { (start : State) (ms : List Moment) (command : Command) (old new : Seen) (end : Ending)
        → IsRun 8 start ms →
        IsStore (now start ms) old → opens_store command ≡ true → IsSpelledCommand command
        → Answers command old new end → NoCountFalls old new →
        (own : List Moment) × IsCall command old new end (now start ms) own × IsRun 8 start (own ++ ms)
        × IsStore (now start (own ++ ms)) new }
    ensures later { (start : State) (ms : List Moment) (new next : Seen) → IsRun 8 start ms
        → IsStore (now start ms) new → IsLater new next →
        (own : List Moment) × AreBetween own × IsRun 8 start (own ++ ms)
        × IsStore (now start (own ++ ms)) next }
    ensures known { (s : Seen) (records : List Record) → IsSure s records → (w : State) × IsStore w s }
    ensures chain { (start : State) (ms : List Moment) (first : Seen) (calls : List Call) → IsRun 8 start ms
        → IsStore (now start ms) first →
        IsChain first calls →
        (own : List Moment) × AreCalls (now start ms) calls own × IsRun 8 start (own ++ ms)
        × IsStore (now start (own ++ ms)) (last_seen first calls) }
{}

/// The words of a command are text, so the name in them is of bytes, and the number of a profile is below
/// 256.
pub fn forms_are_spelled()
    ensures { (words : List (String Global)) (command : Command) → IsForm words command
        → IsSpelledCommand command }
{}
