ghost use Rattle.std.specs.Prelude.{◌≡◌, ◌<◌, ◌+◌, ◌⊎◌, ◌^◌, IfSome, IsTrue, OnOk, List};
ghost use Rattle.std.specs.List.{list_all};
ghost use Rattle.record_defs.specs.Records.{Record as Entry, is_in_grammar};
ghost use Rattle.record_defs.specs.Acceptance.{AreAccepted};
ghost use Rattle.vault_table.specs.Values.{IsFoldOf};
ghost use Rattle.journal_pack.specs.Packs.{moves_of};

use crate::given::{AUDIT_DONE, DUE, no_other};
use crate::journal::append;
use disk_model::{Disk, MemDisk};
use journal_core::JournalFault;
use journal_pack::*;
use record_codec::Record;
use std::alloc::Global;
use stream_model::WriteFault;
use vault_table::Table;

/// The bytes of a disk, and where its active area begins and its text ends and how many records it has, or
/// where it is bad.
type Read = (&'static [u8], Result<(u64, u64, usize), u64>);

static DISKS: [Read; 10] = [
    (b"HAILJRN1\x00", Ok((8, 9, 0))),
    (b"HAILJRN\x00\x02\x01\x06", Ok((8, 9, 0))),
    (b"HAILJRN\xff\x01\x04\x01\x61\x00\xff", Ok((8, 13, 1))),
    (b"HAILJRN1\x01\x01\x06", Err(9)),
    (b"HAILJRN2\x00\x00\x00\x00", Err(8388608)),
    (b"HAILJRN", Err(0)),
    (b"HAILJRM1\x00", Err(0)),
    (b"HAILJRN1", Err(8)),
    (b"HAILJRN1\x01\x04\x01\x61", Err(12)),
    (b"HAILJRN1\x01\x04\x01\x61\x01\x08", Err(13)),
];

/// What the active area of these bytes has, or where it is bad.
fn active_of(alloc: Global, bytes: &[u8]) -> Result<(u64, u64, usize), u64> {
    match read_active(alloc, bytes) {
        Ok(active) => Ok((active.base, active.end, active.records.len())),
        Err(JournalFault::Bad(bad)) => Err(bad.at),
        Err(JournalFault::Memory) => Err(99),
    }
}

/// The place of the first disk that is read otherwise, if any.
fn first_other_disk(alloc: Global) -> Option<usize> {
    for (place, (bytes, wanted)) in DISKS.iter().enumerate() {
        if active_of(alloc, bytes) != *wanted {
            return Some(place);
        }
    }
    None
}

#[test]
fn the_active_area_is_read(rt: HostRuntime) {
    no_other(&rt, first_other_disk(rt.alloc()));
}

/// A setup of four providers with a tolerance of 0.
const SETUP: [u8; 41] = [
    1, 4, 1, 1, 0, 1, 1, 0, 0, 0, 0, 0, 0, 0, 0, 0, 0, 0, 0, 0, 0, 0, 0, 0, 0, 0, 0, 0, 0, 0, 0, 0,
    0, 0, 0, 0, 0, 0, 0, 0, 0,
];

/// A store that was set up and raised to its second version, and two puts of 100 bytes under one name.
const TWO_PUTS: [&[u8]; 6] = [
    &SETUP,
    b"\x09\x02",
    b"\x02\x01\0\0\0\0\0\0\0\x09notes.txt",
    b"\x08\x01\0\0\0\0\0\0\0\x64\0\0\0\0",
    b"\x02\x02\0\0\0\0\0\0\0\x09notes.txt",
    b"\x08\x02\0\0\0\0\0\0\0\x64\0\0\0\0",
];

/// The bytes of their packed journal behind its first gate: a setup, the version, the next numbers 3 and 1,
/// and the second file.
const PACKED: [&[u8]; 4] = [
    &SETUP,
    b"\x09\x02",
    b"\x0a\x03\0\0\0\0\0\0\0\x01\0\0\0\0\0\0\0",
    b"\x0b\x02\0\0\0\0\0\0\0\x64\0\0\0\0\x09notes.txt",
];

/// Behind the first of these puts an audit that finds one wrong answer: its repair is due.
const DUE_REPAIR: [&[u8]; 6] = [
    &SETUP,
    b"\x09\x02",
    b"\x02\x01\0\0\0\0\0\0\0\x09notes.txt",
    b"\x08\x01\0\0\0\0\0\0\0\x64\0\0\0\0",
    b"\x05\x01\0\0\0\0\0\0\0",
    &AUDIT_DONE,
];

/// The bytes of the packed journal: also the due audit.
const PACKED_DUE: [&[u8]; 5] = [
    &SETUP,
    b"\x09\x02",
    b"\x0a\x02\0\0\0\0\0\0\0\x02\0\0\0\0\0\0\0",
    b"\x0b\x01\0\0\0\0\0\0\0\x64\0\0\0\0\x09notes.txt",
    &DUE,
];

/// Records, those of their packed journal, its length in bytes in the second area and in the first, and that of
/// the disk.
type Packed = (
    &'static [&'static [u8]],
    &'static [&'static [u8]],
    u64,
    u64,
    usize,
);

static PACKS: [Packed; 2] = [
    (&TWO_PUTS, &PACKED, 89, 97, 8388697),
    (&DUE_REPAIR, &PACKED_DUE, 116, 124, 8388724),
];

/// The table of the records that these bytes spell.
fn table_of(alloc: Global, rows: &[&'static [u8]]) -> Option<Table>
    ensures { IfSome result (λ t. (rs : List Entry) × IsFoldOf rs t × AreAccepted rs
        × IsTrue (list_all is_in_grammar rs)) }
{
    let Ok(mut table) = Table::new(alloc) else {
        return None;
    };
    for row in rows {
        let (entry, _) = Record::read(row)?;
        if let Err(_why) = table.apply(&entry) {
            return None;
        }
    }
    Some(table)
}

/// A pack of their table away from the area that begins at `base`.
fn pack_of(alloc: Global, base: u64, rows: &[&'static [u8]]) -> Option<Pack>
    requires { (base ≡ 8) ⊎ (base ≡ 2 ^ 23) }
    ensures { IfSome result (λ p. moves_of p ≡ 0) }
{
    let table = table_of(alloc, rows)?;
    if table.version() != 2 || table.setup().is_none() {
        return None;
    }
    let Ok(records) = pack_records(alloc, &table) else {
        return None;
    };
    match Pack::new(alloc, base, &records) {
        Ok(pack) => Some(pack),
        Err(_) => None,
    }
}

/// Makes a move of a pack; true after the last.
fn turn<D: Disk>(pack: &mut Pack, disk: &mut D) -> Result<bool, WriteFault>
    requires { moves_of pack.old < 4 }
    ensures { OnOk result (moves_of pack.new ≡ moves_of pack.old + 1) }
{
    pack.turn(disk)
}

/// The first three moves of a pack.
fn three_moves<D: Disk>(pack: &mut Pack, disk: &mut D) -> Result<(), WriteFault>
    requires { moves_of pack.old ≡ 0 }
    ensures { OnOk result (moves_of pack.new ≡ 3) }
{
    turn(pack, disk)?;
    turn(pack, disk)?;
    turn(pack, disk)?;
    Ok(())
}

/// All four; true where the last is told to be it.
fn four_moves<D: Disk>(pack: &mut Pack, disk: &mut D) -> Result<bool, WriteFault>
    requires { moves_of pack.old ≡ 0 }
{
    three_moves(pack, disk)?;
    turn(pack, disk)
}

/// Packs a journal of these records away from the area that begins at `base`: whether the pack has so many
/// bytes, and ends.
fn packs(
    alloc: Global,
    base: u64,
    rows: &[&'static [u8]],
    size: u64,
    disk: &mut MemDisk,
) -> Option<bool>
    requires { (base ≡ 8) ⊎ (base ≡ 2 ^ 23) }
{
    let mut pack = pack_of(alloc, base, rows)?;
    let has_size = pack.size() == size;
    let ended = four_moves(&mut pack, disk).ok()?;
    Some(has_size && ended)
}

/// Whether these bytes have this part at an offset.
fn has(bytes: &[u8], at: usize, part: &[u8]) -> bool {
    match bytes.get(at..) {
        Some(rest) => rest.starts_with(part),
        None => false,
    }
}

/// Whether these bytes have the text of records at an offset: each behind an open gate, and a closed gate.
fn has_text(bytes: &[u8], start: usize, rows: &[&'static [u8]]) -> bool {
    let mut at = start;
    for row in rows {
        let record = at.saturating_add(1);
        if !has(bytes, at, b"\x01") || !has(bytes, record, row) {
            return false;
        }
        at = record.saturating_add(row.len());
    }
    has(bytes, at, b"\0")
}

/// Whether a pack from the first area and then one from the second have these sizes and leave these bytes.
fn packs_both_ways(alloc: Global, row: &Packed) -> Option<bool> {
    let mut disk = MemDisk::new(alloc, b"HAILJRN1\x00", &[]).ok()?;
    let there = packs(alloc, 8, row.0, row.2, &mut disk)?;
    if !there || !has(disk.bytes(), 7, b"2") || !has_text(disk.bytes(), 8388608, row.1) {
        return Some(false);
    }
    let back = packs(alloc, 8388608, row.0, row.3, &mut disk)?;
    let bytes = disk.bytes();
    Some(back && has(bytes, 7, b"1") && has_text(bytes, 8, row.1) && bytes.len() == row.4)
}

/// The place of the first journal that is packed otherwise, if any.
fn first_other_pack(alloc: Global) -> Option<usize> {
    for (place, row) in PACKS.iter().enumerate() {
        if packs_both_ways(alloc, row) != Some(true) {
            return Some(place);
        }
    }
    None
}

#[test]
fn a_journal_is_packed_into_the_other_area(rt: HostRuntime) {
    no_other(&rt, first_other_pack(rt.alloc()));
}

/// The byte that a stop after three moves leaves at the switch, and what then is read: the old journal, or the
/// packed one.
static STOPPED: [(u8, Result<(u64, u64, usize), u64>); 4] = [
    (0, Ok((8, 9, 0))),
    (b'1', Ok((8, 9, 0))),
    (b'2', Ok((8388608, 8388697, 4))),
    (255, Ok((8, 9, 0))),
];

/// Whether a stop after three moves leaves what the row says.
fn stops_so(alloc: Global, row: &(u8, Result<(u64, u64, usize), u64>)) -> Option<bool> {
    let mut disk = MemDisk::new(alloc, b"HAILJRN1\x00", &[]).ok()?;
    let mut pack = pack_of(alloc, 8, &TWO_PUTS)?;
    three_moves(&mut pack, &mut disk).ok()?;
    disk.stop(&[row.0]);
    Some(active_of(alloc, disk.bytes()) == row.1)
}

/// The place of the first stop that leaves something else.
fn first_other_stop(alloc: Global) -> Option<usize> {
    for (place, row) in STOPPED.iter().enumerate() {
        if stops_so(alloc, row) != Some(true) {
            return Some(place);
        }
    }
    None
}

#[test]
fn a_stop_at_the_switch_leaves_one_of_the_two(rt: HostRuntime) {
    no_other(&rt, first_other_stop(rt.alloc()));
}

/// What is read once a record is appended behind a packed journal, in the second area.
fn read_behind_a_pack(alloc: Global) -> Option<Result<(u64, u64, usize), u64>> {
    let mut disk = MemDisk::new(alloc, b"HAILJRN1\x00", &[]).ok()?;
    packs(alloc, 8, &TWO_PUTS, 89, &mut disk)?;
    append(8388696, b"\x04\x09notes.txt", &mut disk).ok()?;
    Some(active_of(alloc, disk.bytes()))
}

#[test]
fn a_record_is_appended_in_the_second_area(rt: HostRuntime) {
    assert_eq!(rt;
        read_behind_a_pack(rt.alloc()),
        Some(Ok((8388608, 8388709, 5)))
    );
}
