//! What holds of every journal of one area.
ghost use Rattle.std.specs.Prelude.{◌≡◌, ◌++◌, ◌∷◌, ℕ, List, [], IsTrue};
ghost use Rattle.std.specs.List.{list_all};
ghost use Rattle.record_defs.specs.Records.{Record, is_in_grammar};
ghost use Rattle.record_defs.specs.Journal.{magic, text};
ghost use Rattle.record_defs.specs.Areas.{A, StandsActive};
ghost use Rattle.record_defs.specs.Examples.{four_set_up};
ghost use Rattle.journal_parts.specs.Texts.{IsText, FailsAt};

/// Bytes are the text of one list of records at most.
pub fn one_list()
    ensures { (bytes : List ℕ) (rs qs : List Record) → IsText bytes rs → IsText bytes qs → rs ≡ qs }
{}

/// Bytes that fail at some place are no text.
pub fn failing_bytes_are_no_text()
    ensures { (bytes : List ℕ) (at : ℕ) (rs : List Record) → FailsAt bytes at → IsText bytes rs → ⊥ }
{}

/// Bytes fail at one place at most.
pub fn one_place()
    ensures { (bytes : List ℕ) (at other : ℕ) → FailsAt bytes at → FailsAt bytes other → at ≡ other }
{}

/// A text is a journal whose first area is active, as a disk is read at a start.
pub fn texts_are_active()
    ensures { (bytes : List ℕ) (rs : List Record) → IsText bytes rs → StandsActive bytes A rs }
{}

/// Instances: the text of a store that was set up is that of its records, and the magic alone fails where a
/// gate is due, a file of nothing at 0.
pub fn rows()
    ensures text { IsText (text four_set_up) four_set_up }
    ensures magic_alone { FailsAt magic 8 }
    ensures nothing { FailsAt [] 0 }
{}
