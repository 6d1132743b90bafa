//! What holds of every table.
ghost use Rattle.std.specs.Prelude.{◌≡◌, List, Some};
ghost use Rattle.record_defs.specs.Records.{Record, Setup};
ghost use Rattle.record_defs.specs.Table.{setup_of, version_of};
ghost use Rattle.record_defs.specs.Acceptance.{AreAccepted};
ghost use Rattle.record_defs.specs.Packed.{packed};
ghost use Rattle.record_defs.specs.Examples.{four, raised};
ghost use Rattle.vault_table.specs.Values.{Kept, IsFoldOf, forgotten};
ghost use Rattle.vault_table.specs.Examples.{raised_table};

/// The table of accepted records of the second version, once it has forgotten its started puts and its
/// running audit, is that of their packed journal.
pub fn forgotten_tables_are_packed()
    ensures { (t : Kept) (rs : List Record) (s : Setup) → AreAccepted rs → setup_of rs ≡ Some s
        → version_of rs ≡ 2 → IsFoldOf rs t → IsFoldOf (packed rs) (forgotten t) }
{}

/// An instance: the table of a store with a file and a due repair, whose journal has its second version, and
/// what it forgets to.
pub fn a_raised_table_forgets()
    ensures accepted { AreAccepted raised }
    ensures setup { setup_of raised ≡ Some four }
    ensures version { version_of raised ≡ 2 }
    ensures folded { IsFoldOf raised raised_table }
    ensures packed { IsFoldOf (packed raised) (forgotten raised_table) }
{}
