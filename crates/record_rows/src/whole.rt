use crate::given::no_other;
use journal_core::JournalFault;
use journal_parts::read_journal;
use std::alloc::Global;

/// The bytes of a journal of one area, and how many records it has, or where it is bad.
type Row = (&'static [u8], Result<usize, u64>);

static JOURNALS: [Row; 10] = [
    (b"HAILJRN1\x00", Ok(0)),
    (b"HAILJRN1\x01\x01\x06", Err(9)),
    (b"HAILJRN1\x01\x04\x01\x61\x00\xff", Ok(1)),
    (b"HAILJRN1\x01\x04\x01\x61\x01\x04\x01\x62\x02", Ok(2)),
    (b"HAILJRN1\x01\x04\x01\x61", Err(12)),
    (b"HAILJRN1\x01\x04\x01\x61\x01\x08", Err(13)),
    (b"HAILJRN1", Err(8)),
    (b"HAILJRN", Err(0)),
    (b"HAILJRN2\x00", Err(0)),
    (b"", Err(0)),
];

/// How many records these bytes have, or where they are bad.
fn count_of(alloc: Global, bytes: &[u8]) -> Result<usize, u64> {
    match read_journal(alloc, bytes) {
        Ok(records) => Ok(records.len()),
        Err(JournalFault::Bad(bad)) => Err(bad.at),
        Err(JournalFault::Memory) => Err(99),
    }
}

/// The place of the first journal that is read otherwise, if any.
fn first_other_journal(alloc: Global) -> Option<usize> {
    for (place, (bytes, wanted)) in JOURNALS.iter().enumerate() {
        if count_of(alloc, bytes) != *wanted {
            return Some(place);
        }
    }
    None
}

#[test]
fn a_journal_of_one_area_is_read(rt: HostRuntime) {
    no_other(&rt, first_other_journal(rt.alloc()));
}
