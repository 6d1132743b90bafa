ghost use Rattle.std.specs.Prelude.{◌≡◌, ◌≤◌, ◌^◌, ◌∷◌, [], All, List, IfOk, OnOk, IsSome, IsTrue};
ghost use Rattle.std.specs.List.{list_all};
ghost use Rattle.record_defs.specs.Records.{Record as EntryData, SetUp, Version, Resume, is_in_grammar};
ghost use Rattle.record_defs.specs.Acceptance.{AreAccepted};
ghost use Rattle.record_defs.specs.Packed.{as_record, with_files, with_due, with_setup, packed};
ghost use Rattle.record_defs.specs.Areas.{entries_size};
ghost use Rattle.record_codec.specs.Entries.{entry_of, with_master, HasPadding, IsInGrammar};
ghost use Rattle.journal_core.specs.Lists.{newest_first};
ghost use Rattle.vault_table.specs.Values.{file_of_entry, id_after, IsFoldOf};
ghost use Rattle.journal_pack.specs.Tables.{packed_table};

use record_codec::{Record, Setup};
use std::alloc::Global;
use stream_model::Memory;
use vault_table::{Entry, Table};

/// The record of a file in effect.
fn record_of(file: &Entry) -> Record
    ensures entry { entry_of result ≡ as_record (file_of_entry file.now) }
    ensures padded { HasPadding result }
{
    Record::File {
        id: file.id,
        length: file.length,
        profile: file.profile,
        name: file.name,
    }
}

/// Adds one record.
fn add(records: &mut Vec<Record>, entry: Record) -> Result<(), Memory>
    requires { HasPadding entry }
    ensures records { OnOk result (newest_first records.new.items
        ≡ entry_of entry ∷ newest_first records.old.items) }
    ensures padded { All HasPadding records.old.items → OnOk result (All HasPadding records.new.items) }
{
    records.push(entry)?;
    Ok(())
}

/// Adds a record for each file in effect, in byte order of the names.
fn add_files(records: &mut Vec<Record>, table: &Table) -> Result<(), Memory>
    ensures records { OnOk result (newest_first records.new.items
        ≡ with_files table.now.files (newest_first records.old.items)) }
    ensures padded { All HasPadding records.old.items → OnOk result (All HasPadding records.new.items) }
{
    for place in 0..table.count() {
        if let Some(file) = table.at(place) {
            add(records, record_of(&file))?;
        }
    }
    Ok(())
}

/// The record of a setup and its master key.
fn setup_record(setup: Setup, master: [u8; 32]) -> Record
    ensures entry { entry_of result ≡ SetUp (with_master setup master) }
    ensures padded { HasPadding result }
{
    Record::Setup { setup, master }
}

/// The first records of the packed journal: the setup, the version and the next numbers.
fn first_records(alloc: Global, table: &Table) -> Result<Vec<Record>, Memory>
    requires { IsSome table.now.setup }
    ensures records { IfOk result (λ v. newest_first v.items
        ≡ Resume (id_after table.now) table.now.next_audit ∷ Version ∷ with_setup table.now.setup) }
    ensures padded { IfOk result (λ v. All HasPadding v.items) }
{
    let mut records = Vec::new(alloc);
    match table.setup() {
        Some((setup, master)) => add(&mut records, setup_record(setup, master.0))?,
        None => unreachable!(),
    }
    add(&mut records, Record::Version)?;
    add(
        &mut records,
        Record::Resume {
            id: table.next_id(),
            audit: table.next_audit(),
        },
    )?;
    Ok(records)
}

/// Adds the audit whose repair is due, if there is one.
fn add_due(records: &mut Vec<Record>, table: &Table) -> Result<(), Memory>
    ensures records { OnOk result (newest_first records.new.items
        ≡ with_due table.now.due (newest_first records.old.items)) }
    ensures padded { All HasPadding records.old.items → OnOk result (All HasPadding records.new.items) }
{
    match table.due() {
        Some((number, counts)) => add(records, Record::Due { number, counts }),
        None => Ok(()),
    }
}

/// The records of the packed journal, in the order of writing: the setup, the version, the next numbers, each
/// file in effect in byte order of the names, and the audit whose repair is due, if there is one. Condition:
/// there is a setup, and the journal has its second version.
pub fn pack_records(alloc: Global, table: &Table) -> Result<Vec<Record>, Memory>
    requires set_up { IsSome table.now.setup }
    requires second { table.now.version ≡ 2 }
    ensures table { IfOk result (λ v. newest_first v.items ≡ packed_table table.now) }
    ensures packed { IfOk result (λ v. (rs : List EntryData) → IsFoldOf rs table.now
        → newest_first v.items ≡ packed rs) }
    ensures spelled { IfOk result (λ v. (rs : List EntryData) → IsFoldOf rs table.now → AreAccepted rs
        → IsTrue (list_all is_in_grammar rs) → All IsInGrammar v.items) }
    ensures short { IfOk result (λ v. (rs : List EntryData) → IsFoldOf rs table.now → AreAccepted rs
        → IsTrue (list_all is_in_grammar rs) → entries_size (newest_first v.items) ≤ 2 ^ 17) }
{
    let mut records = first_records(alloc, table)?;
    add_files(&mut records, table)?;
    add_due(&mut records, table)?;
    Ok(records)
}
