//! What holds of every journal.
ghost use Rattle.std.specs.Prelude.{◌≡◌, ◌<◌, ◌∷◌, ◌++◌, ℕ, suc, Bool, false, Option, Some, Result, Ok, List, [], length, codes};
ghost use Rattle.stream_model.specs.declared.fault.WriteFault.{WriteFault};
ghost use Rattle.record_defs.specs.Records.{Record, Drop};
ghost use Rattle.record_defs.specs.Journal.{text};
ghost use Rattle.record_defs.specs.Examples.{four_set_up};
ghost use Rattle.record_defs.specs.Areas.{Area, A, B, base_of, magic_front, switch_of, entries, StandsActive, IsBadAt};
ghost use Rattle.device_defs.specs.Cells.{Cells, reads, firm};
ghost use Rattle.device_defs.specs.Images.{IsImage};
ghost use Rattle.journal_core.specs.Texts.{StandsFirm};
ghost use Rattle.journal_core.specs.Firm.{AreFirm};
ghost use Rattle.journal_core.specs.declared.append.Append.{Append};
ghost use Rattle.journal_core.specs.Appends.{moves_of, Appends, TurnsAppend, AppendsDisk, KeepsRecords};

/// Bytes stand for one list of records, in one of the two areas, at most.
pub fn one_meaning()
    ensures { (bytes : List ℕ) (a b : Area) (rs qs : List Record) → StandsActive bytes a rs
        → StandsActive bytes b qs → (a ≡ b) × (rs ≡ qs) }
{}

/// Bytes that are bad at some place stand for no records.
pub fn bad_stands_for_none()
    ensures { (bytes : List ℕ) (at : ℕ) (area : Area) (rs : List Record) → IsBadAt bytes at
        → StandsActive bytes area rs → ⊥ }
{}

/// Bytes are bad at one place at most.
pub fn one_place()
    ensures { (bytes : List ℕ) (at other : ℕ) → IsBadAt bytes at → IsBadAt bytes other
        → at ≡ other }
{}

/// An instance: bytes that name the second area and end before it are bad where it begins.
pub fn named_area_is_bad()
    ensures { IsBadAt (magic_front ++ switch_of B ∷ []) (base_of B) }
{}

/// While the first eight bytes of a disk and the text of its active area are firm, every image of it stands
/// for the records of that text.
pub fn firm_areas_stand()
    ensures { (area : Area) (rs : List Record) (cells : Cells) → StandsActive (reads cells) area rs
        → AreFirm 0 8 cells → AreFirm (base_of area) (suc (length (entries rs))) cells
        → (image : List ℕ) → IsImage cells image → StandsActive image area rs }
{}

/// A disk with nothing loose that reads records in an area is ready there for an append or a pack.
pub fn read_stands_firm()
    ensures { (bytes : List ℕ) (area : Area) (rs : List Record) → StandsActive bytes area rs
        → StandsFirm area rs (firm bytes) }
{}

/// Where an area is named and has the text of records, and nothing of both is loose, each image stands for
/// these records.
pub fn firm_texts_stand()
    ensures { (area : Area) (rs : List Record) (cells : Cells) (image : List ℕ) → StandsFirm area rs cells
        → IsImage cells image → StandsActive image area rs }
{}

/// Each turn of an append is atomic: behind it the disk stands, whatever a crash leaves, for the records that
/// the append goes behind, or for these with its own; and the append goes on, is given up, or is done.
pub fn appends_are_atomic()
    ensures { (area : Area) (rs : List Record) (r : Record) (a b : Append) (result : Result Bool WriteFault)
        (old new : Option Cells) → Appends area rs r a old → moves_of a < 4 → TurnsAppend a result b
        → AppendsDisk a result old new → KeepsRecords area rs r a result b new }
{}

/// An instance: the first turn, which writes the body, of an append of a drop behind the firm text of a store
/// that was set up.
pub fn an_append_may_turn()
    ensures { (a : Append) × (b : Append) × (new : Option Cells)
        × Appends A four_set_up (Drop (codes "a")) a (Some (firm (text four_set_up))) × (moves_of a < 4)
        × TurnsAppend a (Ok false) b × AppendsDisk a (Ok false) (Some (firm (text four_set_up))) new }
{}

/// An instance: of the firm text of a store that was set up, front and text are firm, and it is that store's
/// in the first area.
pub fn firm_text_is_firm()
    ensures active { StandsActive (reads (firm (text four_set_up))) A four_set_up }
    ensures front { AreFirm 0 8 (firm (text four_set_up)) }
    ensures text { AreFirm (base_of A) (suc (length (entries four_set_up))) (firm (text four_set_up)) }
    ensures stands { StandsFirm A four_set_up (firm (text four_set_up)) }
{}
