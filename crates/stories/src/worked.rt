//! A story worked out, as one that uses these laws would write it.
ghost use Rattle.std.specs.Prelude.{◌≤◌, ◌++◌, List, String};
ghost use Rattle.std.specs.declared.alloc.Global.{Global};
ghost use Rattle.epoch_laws.specs.Epochs.{AreExactBut};
ghost use Rattle.epoch_laws.specs.Told.{IsWhole};
ghost use Rattle.stories.specs.Words.{DamagesOnly, AllTell, Got, Moment, now, State, setup_in, Seen, Ending, named, byte, called_behind};
ghost use Rattle.stories.specs.Told.{IsToldReplay, IsGotBack};
ghost use Rattle.stories.specs.Replays.{damaged2, damaged0, swept_text, swept_commands, swept_outcomes};

use crate::upkeep::scrubbed_files_are_got;

/// A file is put, provider 2 loses its block, a scrub ends well, provider 0 loses its own, and a get gives the byte: so
/// says what a replay wrote, over whatever store, of whose providers at least one may be wrong, and before it at most
/// provider 2 was damaged. So the byte is the one that was put, whole, and each provider but 0 holds its own blocks
/// exactly, of every file.
pub fn a_file_outlives_two_losses()
    ensures { (words : List (String Global)) (start : State) (ms : List Moment) (old new : Seen) (end : Ending)
        → IsToldReplay words swept_text swept_commands swept_outcomes start ms old new end
        → AllTell start → DamagesOnly damaged2 ms
        → (G : IsGotBack start (called_behind start ms) new end named byte 3 (Got byte))
        × (1 ≤ (setup_in (now start (G.ms ++ called_behind start ms))).b → IsWhole start G.get
        × AreExactBut damaged0 (now start (G.ms ++ called_behind start ms))) }
{
    scrubbed_files_are_got();
}
