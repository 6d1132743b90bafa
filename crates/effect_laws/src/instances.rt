//! Instances: what the laws of the other modules suppose, met by values.
ghost use Rattle.std.specs.Prelude.{◌≡◌, ◌∷◌, ◌++◌, [], ℕ, true, List, Some};
ghost use Rattle.std.specs.List.{AllByRecursion};
ghost use Rattle.record_defs.specs.Table.{File};
ghost use Rattle.machine_defs.specs.Examples.{set_up};
ghost use Rattle.machine_defs.specs.Runs.{IsRun, now};
ghost use Rattle.machine_defs.specs.States.{IsStart, file_in};
ghost use Rattle.machine_defs.specs.Transcripts.{CarriesOut};
ghost use Rattle.line_laws.specs.Read.{lines_of_all};
ghost use Rattle.effect_laws.specs.Puts.{NoPutBegan, DroppedOut, MayStand};
ghost use Rattle.effect_laws.specs.Lists.{IsToldByLines, NoneCalls, calls_none, ReadsAs};
ghost use Rattle.effect_laws.specs.Tests.{touches, puts_under, drops, asks_none, asks_puts_only};
ghost use Rattle.effect_laws.specs.Transcripts.{AreOverOn};
ghost use Rattle.effect_laws.specs.Instances.{name, byte, other, put_commands, again_commands, commands, outcomes, moments, PutsAgain};

use crate::laws::stored_files_give_way_to_puts;

/// A store was set up; a file of one byte is put, then another under its name, the names are listed, the name is
/// dropped, and the names are listed again. Its lines are read, and the puts and the drop are over. Behind the second put
/// a file may stand under the name; the drop has taken it out; nobody put another name. So tests tell of the commands.
pub fn a_name_is_put_again_and_dropped()
    ensures run { IsStart set_up × IsRun 8 set_up moments }
    ensures lines { NoneCalls commands × CarriesOut commands moments (lines_of_all outcomes)
        × AllByRecursion IsToldByLines outcomes }
    ensures reads { ReadsAs commands moments outcomes }
    ensures over { AreOverOn name commands outcomes × (calls_none commands ≡ true) }
    ensures again { (P : PutsAgain) × (file : File) × MayStand (now set_up (P.later ++ P.older)) name file }
    ensures tested { (asks_none (touches (98 ∷ [])) commands ≡ true)
        × (asks_none (puts_under (98 ∷ [])) commands ≡ true) × (asks_none (drops name) put_commands ≡ true)
        × (asks_puts_only name other again_commands ≡ true) }
    ensures dropped { DroppedOut moments name × NoPutBegan (98 ∷ []) moments }
{
    stored_files_give_way_to_puts();
}
