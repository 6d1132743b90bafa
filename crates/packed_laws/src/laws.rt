//! What holds of every packed journal.
ghost use Rattle.std.specs.Prelude.{◌≡◌, ◌≤◌, ◌^◌, List, IsTrue, Some};
ghost use Rattle.std.specs.List.{list_all};
ghost use Rattle.record_defs.specs.Records.{Record, is_in_grammar, largest_journal};
ghost use Rattle.record_defs.specs.Acceptance.{AreAccepted};
ghost use Rattle.record_defs.specs.Packed.{packed};
ghost use Rattle.record_defs.specs.Areas.{Area, entries_size, end_in};
ghost use Rattle.record_defs.specs.Examples.{raised};

/// Where accepted records have spellings, those of the packed journal have them too, and take at most 2^17
/// bytes: its text fits in either area, and in front of the second.
pub fn packed_records_are_spelled()
    ensures spelled { (rs : List Record) → AreAccepted rs → IsTrue (list_all is_in_grammar rs)
        → IsTrue (list_all is_in_grammar (packed rs)) }
    ensures short { (rs : List Record) → AreAccepted rs → IsTrue (list_all is_in_grammar rs)
        → entries_size (packed rs) ≤ 2 ^ 17 }
    ensures room { (area : Area) (rs : List Record) → AreAccepted rs → IsTrue (list_all is_in_grammar rs)
        → end_in area (packed rs) ≤ largest_journal }
{}

/// An instance: a store with a file and a due repair, whose journal then has its second version, and how many
/// bytes its packed journal takes.
pub fn raised_records_are_short()
    ensures accepted { AreAccepted raised }
    ensures spelled { IsTrue (list_all is_in_grammar raised) }
    ensures short { entries_size (packed raised) ≡ 107 }
{}
