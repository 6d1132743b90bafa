//! From a text back to the outcomes that wrote it.
ghost use Rattle.std.specs.Prelude.{◌≡◌, ◌++◌, ℕ, List, length};
ghost use Rattle.std.specs.List.{AllByRecursion};
ghost use Rattle.machine_defs.specs.Events.{Event, Outcome};
ghost use Rattle.machine_defs.specs.Lines.{line, lines_of};
ghost use Rattle.machine_defs.specs.Machine.{Happens};
ghost use Rattle.machine_defs.specs.Runs.{Moment, IsRun};
ghost use Rattle.machine_defs.specs.Transcripts.{Instruction, CarriesOut};
ghost use Rattle.machine_defs.specs.States.{State};
ghost use Rattle.line_laws.specs.Read.{lines_of_all, AskForOneLine, EndsAs};
ghost use Rattle.line_laws.specs.Told.{IsToldByLine, AsksForOneLine, WritesOneLine, HasNoNewline, IsOfLines};

/// The line of an outcome tells it: no other outcome writes what it writes.
pub fn lines_tell_outcomes()
    ensures { (r s : Outcome) → IsToldByLine s → lines_of r ≡ lines_of s → r ≡ s }
{}

/// The last line of a text is that of the outcome that wrote last, behind the text of those before: so a text
/// is read from its end, an outcome a line.
pub fn last_lines_tell_outcomes()
    ensures written { (r : Outcome) (front other x : List ℕ) → WritesOneLine r → IsOfLines front →
        IsOfLines other → HasNoNewline x → front ++ lines_of r ≡ other ++ line x
        → (front ≡ other) × (lines_of r ≡ line x) }
    ensures told { (r s : Outcome) (front other : List ℕ) → WritesOneLine r → IsToldByLine s →
        IsOfLines front → IsOfLines other → front ++ lines_of r ≡ other ++ lines_of s
        → (front ≡ other) × (r ≡ s) }
{}

/// Each event but a list of the names and a later call of the program writes one line.
pub fn events_write_one_line()
    ensures { (limit moment : ℕ) (old new : State) (event : Event) (outcome : Outcome) → AsksForOneLine event
        → Happens limit moment old event outcome new → WritesOneLine outcome }
{}

/// What a run of commands has written is of whole lines.
pub fn runs_write_lines()
    ensures { (commands : List Instruction) (ms : List Moment) (bytes : List ℕ) → CarriesOut commands ms bytes
        → IsOfLines bytes }
{}

/// Where a run carries out commands of one line each, and what it has written is what told outcomes write,
/// the commands ended with these outcomes. So it is behind any text of whole lines, where there are as many
/// outcomes as commands; and what stands before them is that text.
pub fn texts_tell_outcomes()
    ensures whole { (limit : ℕ) (start : State) (base ms : List Moment) (commands : List Instruction)
        (bytes : List ℕ) (outcomes : List Outcome) → IsRun limit start (ms ++ base) → AskForOneLine commands
        → CarriesOut commands ms bytes → AllByRecursion IsToldByLine outcomes → bytes ≡ lines_of_all outcomes
        → EndsAs commands ms outcomes }
    ensures behind { (limit : ℕ) (start : State) (base ms : List Moment) (commands : List Instruction)
        (bytes front other : List ℕ) (outcomes : List Outcome) → IsRun limit start (ms ++ base)
        → AskForOneLine commands → CarriesOut commands ms bytes → AllByRecursion IsToldByLine outcomes
        → length outcomes ≡ length commands → IsOfLines front → IsOfLines other
        → front ++ bytes ≡ other ++ lines_of_all outcomes → (front ≡ other) × EndsAs commands ms outcomes }
{}
