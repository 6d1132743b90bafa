use crate::given::*;
use record_codec::{Name, Record};
use std::alloc::Global;
use vault_table::*;

/// A record's bytes, and why the table refuses it.
type Row = (&'static [u8], Option<Refused>);

/// The setup of four providers, one of them primary and one of them bad, in the first profile: one round of
/// one pick, and no tolerance. The bytes of the key are 0.
const SETUP: [u8; 41] = [
    1, 4, 1, 1, 0, 1, 1, 0, 0, 0, 0, 0, 0, 0, 0, 0, 0, 0, 0, 0, 0, 0, 0, 0, 0, 0, 0, 0, 0, 0, 0, 0,
    0, 0, 0, 0, 0, 0, 0, 0, 0,
];

/// Records of the first version, each refused or taken after those before it.
static FIRST_VERSION: [Row; 18] = [
    (&[5, 1, 0, 0, 0, 0, 0, 0, 0], Some(Refused::NoSetup)),
    (&SETUP, None),
    (&SETUP, Some(Refused::SecondSetup)),
    (
        &[3, 1, 0, 0, 0, 0, 0, 0, 0, 3, 0, 0, 0],
        Some(Refused::NotStarted),
    ),
    (&[2, 2, 0, 0, 0, 0, 0, 0, 0, 1, 97], Some(Refused::BadId)),
    (&[2, 1, 0, 0, 0, 0, 0, 0, 0, 1, 97], None),
    (&[4, 1, 97], Some(Refused::NoName)),
    (&[3, 1, 0, 0, 0, 0, 0, 0, 0, 3, 0, 0, 0], None),
    (
        &[3, 1, 0, 0, 0, 0, 0, 0, 0, 3, 0, 0, 0],
        Some(Refused::NotStarted),
    ),
    (&[5, 2, 0, 0, 0, 0, 0, 0, 0], Some(Refused::BadAudit)),
    (&AUDIT_DONE, Some(Refused::BadAudit)),
    (&[5, 1, 0, 0, 0, 0, 0, 0, 0], None),
    (&[7, 1, 0, 0, 0, 0, 0, 0, 0], Some(Refused::NoRepair)),
    (&AUDIT_DONE, None),
    (&[5, 2, 0, 0, 0, 0, 0, 0, 0], Some(Refused::BadAudit)),
    (&[7, 2, 0, 0, 0, 0, 0, 0, 0], Some(Refused::NoRepair)),
    (&[7, 1, 0, 0, 0, 0, 0, 0, 0], None),
    (&[5, 2, 0, 0, 0, 0, 0, 0, 0], None),
];

/// What is refused in the first version, and what the second takes of a packed journal: the next numbers 3
/// and 2, a file, and an audit that is due.
static PACKED: [Row; 16] = [
    (&SETUP, None),
    (
        &[10, 3, 0, 0, 0, 0, 0, 0, 0, 2, 0, 0, 0, 0, 0, 0, 0],
        Some(Refused::BadResume),
    ),
    (
        &[8, 1, 0, 0, 0, 0, 0, 0, 0, 5, 0, 0, 0, 1],
        Some(Refused::OldVersion),
    ),
    (&DUE, Some(Refused::OldVersion)),
    (
        &[11, 1, 0, 0, 0, 0, 0, 0, 0, 3, 0, 0, 0, 4, 1, 97],
        Some(Refused::OldVersion),
    ),
    (&[9, 2], None),
    (&[9, 2], Some(Refused::NewVersion)),
    (&[10, 3, 0, 0, 0, 0, 0, 0, 0, 2, 0, 0, 0, 0, 0, 0, 0], None),
    (
        &[10, 3, 0, 0, 0, 0, 0, 0, 0, 2, 0, 0, 0, 0, 0, 0, 0],
        Some(Refused::BadResume),
    ),
    (
        &[3, 1, 0, 0, 0, 0, 0, 0, 0, 3, 0, 0, 0],
        Some(Refused::OldKind),
    ),
    (
        &[11, 3, 0, 0, 0, 0, 0, 0, 0, 3, 0, 0, 0, 4, 1, 97],
        Some(Refused::BadId),
    ),
    (&[11, 1, 0, 0, 0, 0, 0, 0, 0, 3, 0, 0, 0, 4, 1, 97], None),
    (
        &[11, 1, 0, 0, 0, 0, 0, 0, 0, 3, 0, 0, 0, 4, 1, 98],
        Some(Refused::BadId),
    ),
    (
        &[11, 2, 0, 0, 0, 0, 0, 0, 0, 3, 0, 0, 0, 4, 1, 97],
        Some(Refused::NameTwice),
    ),
    (&DUE, None),
    (&DUE, Some(Refused::BadAudit)),
];

/// The put that follows the packed journal, of a file in the first profile.
static PUT_AFTER: [Row; 2] = [
    (&[2, 3, 0, 0, 0, 0, 0, 0, 0, 1, 99], None),
    (&[8, 3, 0, 0, 0, 0, 0, 0, 0, 5, 0, 0, 0, 1], None),
];

/// Puts into a full table: of a new name, and then of one that stands there.
static PUTS_WHEN_FULL: [Row; 4] = [
    (&[2, 1, 4, 0, 0, 0, 0, 0, 0, 4, 53, 48, 48, 48], None),
    (
        &[3, 1, 4, 0, 0, 0, 0, 0, 0, 0, 0, 0, 0],
        Some(Refused::TooMany),
    ),
    (&[2, 2, 4, 0, 0, 0, 0, 0, 0, 4, 48, 48, 55, 55], None),
    (&[3, 2, 4, 0, 0, 0, 0, 0, 0, 0, 0, 0, 0], None),
];

/// Why the table refuses the record that these bytes spell.
fn why(table: &mut Table, bytes: &[u8]) -> Option<Refused> {
    match Record::read(bytes) {
        Some((record, _)) => table.apply(&record).err(),
        None => Some(Refused::Memory),
    }
}

/// The place of the first row that goes otherwise, if any, when the table takes them in their turn.
fn first_other(table: &mut Table, rows: &[Row]) -> Option<usize> {
    for (place, (bytes, wanted)) in rows.iter().enumerate() {
        if why(table, bytes) != *wanted {
            return Some(place);
        }
    }
    None
}

/// The version, the numbers of the next file and the next audit, and how many files there are.
fn numbers(table: &Table) -> [u64; 4] {
    [
        u64::from(table.version()),
        table.next_id(),
        table.next_audit(),
        table.count() as u64,
    ]
}

/// The numbers after these rows, or the place of the first that goes otherwise.
fn numbers_after(table: &mut Table, rows: &[Row]) -> Result<[u64; 4], usize> {
    match first_other(table, rows) {
        None => Ok(numbers(table)),
        Some(place) => Err(place),
    }
}

/// The numbers of a new table after these rows, or the place of the first that goes otherwise.
fn numbers_of_new(alloc: Global, rows: &[Row]) -> Result<[u64; 4], usize> {
    match Table::new(alloc) {
        Ok(mut table) => numbers_after(&mut table, rows),
        Err(_) => Err(rows.len()),
    }
}

#[test]
fn records_are_accepted_or_refused(rt: HostRuntime) {
    assert_eq!(rt;
        numbers_of_new(rt.alloc(), &FIRST_VERSION),
        Ok([1, 2, 3, 1])
    );
}

#[test]
fn a_packed_journal_is_taken(rt: HostRuntime) {
    assert_eq!(rt; numbers_of_new(rt.alloc(), &PACKED), Ok([2, 3, 2, 1]));
}

/// Whether the first file is that of the packed journal, and the second that of the put after it.
fn has_both_profiles(table: &Table) -> bool {
    let first = table.at(0);
    let second = table.at(1);
    matches!(
        first,
        Some(Entry {
            id: 1,
            profile: 4,
            ..
        })
    ) && matches!(
        second,
        Some(Entry {
            id: 3,
            profile: 1,
            ..
        })
    )
}

/// Whether a table goes on with the numbers of a packed journal.
fn goes_on(table: &mut Table) -> bool {
    let taken = first_other(table, &PACKED).is_none();
    table.forget();
    taken && numbers_after(table, &PUT_AFTER) == Ok([2, 4, 2, 2]) && has_both_profiles(table)
}

/// The same in a new table.
fn a_new_table_goes_on(alloc: Global) -> bool {
    match Table::new(alloc) {
        Ok(mut table) => goes_on(&mut table),
        Err(_) => false,
    }
}

#[test]
fn a_packed_journal_goes_on(rt: HostRuntime) {
    assert!(rt; a_new_table_goes_on(rt.alloc()));
}

/// Whether the setup is kept and no audit is due after the records of the first version. Room for a start is
/// made before them.
fn keeps_the_setup(table: &mut Table) -> bool {
    table.reserve_start().is_ok()
        && first_other(table, &FIRST_VERSION).is_none()
        && table.setup().is_some()
        && table.due().is_none()
}

/// The same in a new table.
fn a_new_table_keeps_the_setup(alloc: Global) -> bool {
    match Table::new(alloc) {
        Ok(mut table) => keeps_the_setup(&mut table),
        Err(_) => false,
    }
}

#[test]
fn a_setup_is_kept(rt: HostRuntime) {
    assert!(rt; a_new_table_keeps_the_setup(rt.alloc()));
}

/// The four digits of a number.
fn digits(number: u16) -> [u8; 4] {
    [
        48 + (number / 1000 % 10) as u8,
        48 + (number / 100 % 10) as u8,
        48 + (number / 10 % 10) as u8,
        48 + (number % 10) as u8,
    ]
}

/// Whether the start and the end of a put are taken, of an empty file whose name is four digits.
fn put(table: &mut Table, id: u16, name: u16) -> bool {
    let [low, high] = id.to_le_bytes();
    let [a, b, c, d] = digits(name);
    why(table, &[2, low, high, 0, 0, 0, 0, 0, 0, 4, a, b, c, d]).is_none()
        && why(table, &[3, low, high, 0, 0, 0, 0, 0, 0, 0, 0, 0, 0]).is_none()
}

/// Puts 1,024 files, and answers the first that is refused, if any.
fn first_refused(table: &mut Table) -> Option<u16> {
    for i in 0..1024u16 {
        if !put(table, i + 1, i * 7 % 1024) {
            return Some(i);
        }
    }
    None
}

/// The file with this name.
fn file(table: &Table, name: &[u8]) -> Option<Entry> {
    match Name::new(name) {
        Some(name) => table.find(&name),
        None => None,
    }
}

/// Whether one of 1,024 files stands at its name and at its place with the number of its second put.
fn has_the_second_put(table: &Table) -> bool {
    matches!(
        file(table, b"0077"),
        Some(Entry {
            id: 1026,
            length: 0,
            ..
        })
    ) && matches!(table.at(77), Some(Entry { id: 1026, .. }))
        && table.at(1024).is_none()
}

/// Whether a full table takes only names that it has, and gives one up.
fn is_full(table: &mut Table) -> bool {
    first_refused(table).is_none()
        && numbers_after(table, &PUTS_WHEN_FULL) == Ok([1, 1027, 1, 1024])
        && has_the_second_put(table)
        && why(table, &[4, 4, 48, 48, 55, 55]).is_none()
        && file(table, b"0077").is_none()
}

/// The same after a setup, in a new table.
fn a_new_table_is_full(alloc: Global) -> bool {
    match Table::new(alloc) {
        Ok(mut table) => why(&mut table, &SETUP).is_none() && is_full(&mut table),
        Err(_) => false,
    }
}

#[test]
fn a_table_is_full_at_1024_files(rt: HostRuntime) {
    assert!(rt; a_new_table_is_full(rt.alloc()));
}
