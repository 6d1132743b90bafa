// A key and tables that several rows start from, and how a test ends.

use record_codec::Record;
use std::alloc::Global;
use std::process::Abort;
use stream_model::{Bytes, Memory};
use vault_table::Table;

/// Passes where no row goes otherwise. Else the test ends with the place of the first that does.
pub fn no_other(rt: &impl Abort, place: Option<usize>) {
    assert_eq!(rt; place, None);
}

/// The place of the first of so many rows that goes otherwise; behind them where they go right, and what is
/// left by them does not.
pub fn or_behind(place: Option<usize>, rows: usize, is_right: bool) -> Option<usize> {
    if place.is_none() && !is_right {
        return Some(rows);
    }
    place
}

/// Whether a line is told, and is this.
pub fn is_line(line: Result<Bytes, Memory>, wanted: &str) -> bool {
    match line {
        Ok(line) => line.as_slice() == wanted.as_bytes(),
        Err(_) => false,
    }
}

/// The digits of a key: the bytes 0 to 30 and 255.
pub const KEY: &str = "000102030405060708090A0b0c0d0e0f101112131415161718191a1b1C1d1eFf";

/// Its bytes.
pub const KEY_BYTES: [u8; 32] = [
    0, 1, 2, 3, 4, 5, 6, 7, 8, 9, 10, 11, 12, 13, 14, 15, 16, 17, 18, 19, 20, 21, 22, 23, 24, 25,
    26, 27, 28, 29, 30, 255,
];

/// The setup of four providers, one of them primary and one of them bad, as its record.
pub const SETUP: [u8; 41] = [
    1, 4, 1, 1, 0, 1, 1, 0, 0, 0, 0, 0, 0, 0, 0, 0, 0, 0, 0, 0, 0, 0, 0, 0, 0, 0, 0, 0, 0, 0, 0, 0,
    0, 0, 0, 0, 0, 0, 0, 0, 0,
];

/// The records of two files, one of 100 bytes and one of 256.
pub const TWO_FILES: [&[u8]; 5] = [
    &SETUP,
    &[2, 1, 0, 0, 0, 0, 0, 0, 0, 2, 97, 98],
    &[3, 1, 0, 0, 0, 0, 0, 0, 0, 100, 0, 0, 0],
    &[2, 2, 0, 0, 0, 0, 0, 0, 0, 2, 90, 46],
    &[3, 2, 0, 0, 0, 0, 0, 0, 0, 0, 1, 0, 0],
];

/// Whether a table takes the record that these bytes spell.
fn takes(table: &mut Table, bytes: &[u8]) -> bool {
    match Record::read(bytes) {
        Some((record, _)) => table.apply(&record).is_ok(),
        None => false,
    }
}

/// The table of some records, each as its bytes.
pub fn table_of(alloc: Global, records: &[&[u8]]) -> Option<Table> {
    let mut table = Table::new(alloc).ok()?;
    for bytes in records {
        if !takes(&mut table, bytes) {
            return None;
        }
    }
    Some(table)
}
