//! Concrete values that meet what the laws suppose: a text of five lines, and a step at a closed vault.
ghost use Rattle.std.specs.Prelude.{◌≡◌, ◌++◌, ℕ, List, [], ◌∷◌, codes};
ghost use Rattle.std.specs.List.{AllByRecursion, flat_map};
ghost use Rattle.record_defs.specs.Table.{File};
ghost use Rattle.machine_defs.specs.Answers.{Put, Got};
ghost use Rattle.machine_defs.specs.Events.{Outcome, Step, Opened, Begun, Ended, Listed, Closed};
ghost use Rattle.machine_defs.specs.Examples.{set_up};
ghost use Rattle.machine_defs.specs.Lines.{line, lines_of};
ghost use Rattle.machine_defs.specs.Machine.{Happens};
ghost use Rattle.machine_defs.specs.Runs.{Moment, IsRun};
ghost use Rattle.machine_defs.specs.Transcripts.{RunJob, CarriesOut};
ghost use Rattle.line_laws.specs.Read.{lines_of_all, AskForOneLine};
ghost use Rattle.line_laws.specs.Told.{IsToldByLine, AsksForOneLine, WritesOneLine, HasNoNewline, IsOfLines};

/// The lines of a put and a get of one byte are read; who knows that the last is no list reads it alone. A
/// list may end as another outcome does, so it has to be known that none was asked for.
pub fn a_text_is_read()
    ensures text { (outcomes : List Outcome)
        × (outcomes ≡ Ended (Got (111 ∷ [])) ∷ Begun 2 ∷ Ended Put ∷ Begun 1 ∷ Opened ∷ [])
        × AllByRecursion IsToldByLine outcomes
        × (lines_of_all outcomes
        ≡ flat_map line
        (codes "opened" ∷ codes "job 1" ∷ codes "put" ∷ codes "job 2" ∷ codes "got 6f" ∷ [])) }
    ensures line_of_it { HasNoNewline (codes "got 6f") × IsOfLines (line (codes "job 2")) }
    ensures got { (r : Outcome) → lines_of r ≡ line (codes "got 6f") → r ≡ Ended (Got (111 ∷ [])) }
    ensures last { (r : Outcome) (front : List ℕ) → WritesOneLine r → IsOfLines front →
        front ++ lines_of r ≡ line (codes "job 2") ++ line (codes "got 6f")
        → (front ≡ line (codes "job 2")) × (r ≡ Ended (Got (111 ∷ []))) }
    ensures list { (file : File)
        × (lines_of (Listed (file ∷ [])) ≡ line (codes "names 1") ++ lines_of (Begun 2)) }
{}

/// A step at a closed vault is a run of one command that asks for one line.
pub fn a_step_is_closed()
    ensures { (m : Moment) × (m.event ≡ Step 1) × AsksForOneLine m.event
        × Happens 8 0 set_up m.event Closed m.state × IsRun 8 set_up (m ∷ [])
        × AskForOneLine (RunJob 1 ∷ []) × CarriesOut (RunJob 1 ∷ []) (m ∷ []) (line (codes "closed"))
        × (lines_of_all (Closed ∷ []) ≡ line (codes "closed")) × AllByRecursion IsToldByLine (Closed ∷ []) }
{}
