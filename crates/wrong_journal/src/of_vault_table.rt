//! Bodies of vault_table's public functions, for its must-fail edits to spoil.
ghost use Rattle.std.specs.Prelude.{◌≡◌, ◌-◌, ◌∷◌, List, None, OnOk, IfErr, if◌then◌else◌};
ghost use Rattle.record_defs.specs.Records.{Record as EntryData};
ghost use Rattle.record_defs.specs.Acceptance.{refused};
ghost use Rattle.record_codec.specs.Entries.{entry_of, HasPadding};
ghost use Rattle.vault_table.specs.Values.{forgotten, IsFoldOf};
ghost use Rattle.vault_table.specs.Causes.{IsCause, is_put_start, is_version};

use record_codec::Record;
use vault_table::{Refused, Table};

/// `Table::apply`.
pub fn apply(table: &mut Table, entry: &Record) -> Result<(), Refused>
    requires { HasPadding entry.now }
    ensures ok { (rs : List EntryData) → IsFoldOf rs table.old
        → OnOk result (IsFoldOf (entry_of entry.now ∷ rs) table.new) }
    ensures accepted { (rs : List EntryData) → IsFoldOf rs table.old
        → OnOk result (refused rs (entry_of entry.now) ≡ None) }
    ensures refused { (rs : List EntryData) → IsFoldOf rs table.old
        → IfErr result (λ why. IsCause why (refused rs (entry_of entry.now))) }
    ensures spare { OnOk result (table.new.spare ≡ (if is_put_start (entry_of entry.now) then
        table.old.spare - 1 else table.old.spare)) }
    ensures version { OnOk result (table.new.version
        ≡ (if is_version (entry_of entry.now) then 2 else table.old.version)) }
{
    table.apply(entry)
}

/// `Table::forget`.
pub fn forget(table: &mut Table)
    ensures { table.new ≡ forgotten table.old }
{
    table.forget();
}
