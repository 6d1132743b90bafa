//! What holds of every record.
ghost use Rattle.std.specs.Prelude.{◌≡◌, ◌++◌, ℕ, List};
ghost use Rattle.record_defs.specs.Records.{Record as Entry};
ghost use Rattle.record_defs.specs.Spellings.{Spells};
ghost use Rattle.record_codec.specs.declared.records.Record.{Record as RecordValue};
ghost use Rattle.record_codec.specs.Entries.{entry_of, IsInGrammar};

/// A record has one spelling, and no spelling begins another: what is read from the front of bytes is
/// determined.
pub fn one_spelling()
    ensures { (a b : Entry) (front other x y : List ℕ) → Spells front a → Spells other b
        → front ++ x ≡ other ++ y → (a ≡ b) × (front ≡ other) × (x ≡ y) }
{}

/// Two records of the program in the grammar with the same plain data are the same.
pub fn one_value()
    ensures { (r s : RecordValue) → IsInGrammar r → IsInGrammar s → entry_of r ≡ entry_of s → r ≡ s }
{}
