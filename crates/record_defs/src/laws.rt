//! What holds of every list of records.
ghost use Rattle.std.specs.Prelude.{◌≡◌, ◌≤◌, ◌<◌, ◌-◌, ◌^◌, replicate, ◌⊎◌, List, ℕ, length, IsTrue, [], ◌∷◌, ◌++◌, take, drop, Some, None};
ghost use Rattle.std.specs.List.{list_all};
ghost use Rattle.record_defs.specs.Records.{Record, Setup, is_in_grammar, record_size, most_files};
ghost use Rattle.record_defs.specs.Spellings.{spelling};
ghost use Rattle.record_defs.specs.Journal.{text, text_size};
ghost use Rattle.record_defs.specs.Table.{setup_of, version_of, next_id, next_audit, started_as, running_audit, file_of, files_of, find_file, are_ordered};
ghost use Rattle.record_defs.specs.Acceptance.{AreAccepted};
ghost use Rattle.record_defs.specs.Packed.{AreAlike, packed};
ghost use Rattle.record_defs.specs.Areas.{Area, A, other_area, magic_front, end_in, HoldsIn, StandsActive};
ghost use Rattle.record_defs.specs.Examples.{four, audited, raised, four_set_up, two_areas};

/// A spelling has as many bytes as its record takes, and a text as many as are told.
pub fn sizes()
    ensures record { (r : Record) → IsTrue (is_in_grammar r) → length (spelling r) ≡ record_size r }
    ensures text { (rs : List Record) → IsTrue (list_all is_in_grammar rs) → length (text rs) ≡ text_size rs }
{}

/// Records that were accepted with one more were accepted without it.
pub fn accepted_before()
    ensures { (r : Record) (rs : List Record) → AreAccepted (r ∷ rs) → AreAccepted rs }
{}

/// The ordered list of files in effect has each name's file: that of its last `PutDone` with no later `Drop`.
pub fn files_are_in_effect()
    ensures { (rs : List Record) (name : List ℕ) → find_file (files_of rs) name ≡ file_of rs name }
{}

/// The list of files in effect ascends strictly in the byte order of the names, so no name stands in it
/// twice.
pub fn files_are_ordered()
    ensures { (rs : List Record) → IsTrue (are_ordered (files_of rs)) }
{}

/// Accepted records have at most 1,024 files in effect.
pub fn files_are_few()
    ensures { (rs : List Record) → AreAccepted rs → length (files_of rs) ≤ most_files }
{}

/// Under accepted records the next object number and the next audit number fit 64 bits.
pub fn next_numbers_fit()
    ensures id { (rs : List Record) → AreAccepted rs → next_id rs < 2 ^ 64 }
    ensures audit { (rs : List Record) → AreAccepted rs → next_audit rs < 2 ^ 64 }
{}

/// An instance: a setup, two puts and an audit are in the grammar and accepted.
pub fn audited_records_are_accepted()
    ensures in_grammar { IsTrue (list_all is_in_grammar audited) }
    ensures accepted { AreAccepted audited }
{}

/// The records of a packed journal are accepted, one after the other, and their table is alike to that of the
/// accepted records of the second version that were packed. In it no put is started and no audit runs.
pub fn packed_journals_are_alike()
    ensures accepted { (rs : List Record) (s : Setup) → AreAccepted rs → setup_of rs ≡ Some s
        → version_of rs ≡ 2 → AreAccepted (packed rs) }
    ensures alike { (rs : List Record) (s : Setup) → AreAccepted rs → setup_of rs ≡ Some s
        → version_of rs ≡ 2 → AreAlike (packed rs) rs }
    ensures unstarted { (rs : List Record) (id : ℕ) → started_as (packed rs) id ≡ None }
    ensures idle { (rs : List Record) → running_audit (packed rs) ≡ None }
{}

/// The text of records in the grammar stands for them, in area A, and its size is where their text ends there.
pub fn texts_stand()
    ensures active { (rs : List Record) → IsTrue (list_all is_in_grammar rs) → StandsActive (text rs) A rs }
    ensures end { (rs : List Record) → end_in A rs ≡ text_size rs }
{}

/// While both areas hold a text, a disk stands for the records of the one or for those of the other, whatever
/// its switch byte.
pub fn either_area_is_active()
    ensures { (area : Area) (rs qs : List Record) (a b : List ℕ) (switch : ℕ) → HoldsIn a area rs
        → HoldsIn a (other_area area) qs →
        take 8 b ≡ magic_front ++ switch ∷ [] → drop 8 a ≡ drop 8 b
        → StandsActive b area rs ⊎ StandsActive b (other_area area) qs }
{}

/// An instance: a store with a file and a due repair, whose journal then has its second version, and its
/// packed journal.
pub fn raised_records_are_packed()
    ensures accepted { AreAccepted raised }
    ensures setup { setup_of raised ≡ Some four }
    ensures version { version_of raised ≡ 2 }
    ensures packed { AreAccepted (packed raised) }
    ensures alike { AreAlike (packed raised) raised }
{}

/// An instance: the text of a store that was set up stands for it, in area A. Where a filling and the text of
/// no record stand behind it, both areas hold a text, and the first of them is active.
pub fn two_areas_hold_texts()
    ensures in_grammar { IsTrue (list_all is_in_grammar four_set_up) }
    ensures active { StandsActive (text four_set_up) A four_set_up }
    ensures filled { length {A = ℕ} (replicate (2 ^ 23 - 51) 0) ≡ 2 ^ 23 - 51 }
    ensures front { (filling : List ℕ) → take 8 (two_areas filling) ≡ magic_front ++ 49 ∷ [] }
    ensures area { (filling : List ℕ) → HoldsIn (two_areas filling) A four_set_up }
    ensures other_area { (filling : List ℕ) → length filling ≡ 2 ^ 23 - 51
        → HoldsIn (two_areas filling) (other_area A) [] }
{}
