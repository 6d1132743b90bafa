use crate::given::{SETUP, TWO_FILES, is_line, no_other, or_behind, table_of};
use command_lines::*;
use hail_field::Symbol;
use record_codec::Counts;
use std::alloc::Global;
use stream_model::{Bytes, MemSink, Memory, Sink, SureSink};

/// What a command tells.
#[derive(Clone, Copy)]
enum Line {
    Ready,
    /// A put of a name and a length.
    Put(&'static [u8], usize),
    /// A drop of a name.
    Dropped(&'static [u8]),
    /// A repair of this number.
    Repaired(u64),
    Upgraded,
    /// A pack of a text of so many bytes into one of so many.
    Packed(u64, u64),
    /// Decoded values of these numbers.
    Values(&'static [u128]),
    /// An audit with these counts: its tolerance, its number, and how many rounds were undecided.
    Audit(u16, u64, u32),
    /// The files of a table of these records.
    List(&'static [&'static [u8]]),
}

/// The counts of each audit.
const COUNTS: Counts = Counts {
    n: 6,
    by: [4, 0, 0, 0, 0, 3, 0, 0, 0, 0, 0, 0, 0, 0, 0, 0],
};

/// The line of decoded values of these numbers.
fn values_of(alloc: Global, numbers: &[u128]) -> Result<Bytes, Memory> {
    let mut values = Vec::new(alloc);
    for number in numbers {
        if values.push(Symbol(*number)).is_err() {
            return Err(Memory);
        }
    }
    values_line(alloc, &values)
}

/// The list of the files of a table of these records.
fn list_of(alloc: Global, records: &[&[u8]]) -> Result<Bytes, Memory> {
    match table_of(alloc, records) {
        Some(table) => list_lines(alloc, &table),
        None => Err(Memory),
    }
}

/// The line or the lines that are told.
fn told(alloc: Global, what: Line) -> Result<Bytes, Memory> {
    match what {
        Line::Ready => Bytes::from_slice(alloc, ready_line()),
        Line::Put(name, length) => stored_line(alloc, name, length),
        Line::Dropped(name) => dropped_line(alloc, name),
        Line::Repaired(number) => repaired_line(alloc, number),
        Line::Upgraded => Bytes::from_slice(alloc, upgraded_line()),
        Line::Packed(before, after) => packed_line(alloc, before, after),
        Line::Values(numbers) => values_of(alloc, numbers),
        Line::Audit(tolerance, number, undecided) => {
            audit_lines(alloc, tolerance, number, undecided, &COUNTS)
        }
        Line::List(records) => list_of(alloc, records),
    }
}

/// What is told, and its text.
type Row = (Line, &'static str);

/// The place of the first row that is told otherwise, if any.
fn first_other(alloc: Global, rows: &[Row]) -> Option<usize> {
    for place in 0..rows.len() {
        let (what, wanted) = rows[place];
        if !is_line(told(alloc, what), wanted) {
            return Some(place);
        }
    }
    None
}

static CHANGES: [Row; 9] = [
    (Line::Ready, "ready\n"),
    (Line::Put(b"notes.txt", 100), "stored notes.txt 100\n"),
    (Line::Put(b"a", 0), "stored a 0\n"),
    (Line::Dropped(b"notes.txt"), "dropped notes.txt\n"),
    (Line::Repaired(1), "repaired 1\n"),
    (Line::Repaired(u64::MAX), "repaired 18446744073709551615\n"),
    (Line::Upgraded, "upgraded\n"),
    (Line::Packed(124, 89), "packed 124 89\n"),
    (Line::Packed(u64::MAX, 0), "packed 18446744073709551615 0\n"),
];

#[test]
fn one_line_tells_of_each_change(rt: HostRuntime) {
    no_other(&rt, first_other(rt.alloc(), &CHANGES));
}

static VALUES: [Row; 2] = [
    (
        Line::Values(&[0, 5, u128::MAX]),
        "0 5 340282366920938463463374607431768211455\n",
    ),
    (Line::Values(&[]), "\n"),
];

#[test]
fn values_stand_with_a_space_between(rt: HostRuntime) {
    no_other(&rt, first_other(rt.alloc(), &VALUES));
}

static AUDITS: [Row; 2] = [
    (
        Line::Audit(0, 1, 0),
        "audit 1 undecided 0\nprovider 0 count 4 flagged\nprovider 1 count 0 ok\nprovider 2 count 0 ok\nprovider 3 count 0 ok\nprovider 4 count 0 ok\nprovider 5 count 3 flagged\n",
    ),
    (
        Line::Audit(3, 7, 2),
        "audit 7 undecided 2\nprovider 0 count 4 flagged\nprovider 1 count 0 ok\nprovider 2 count 0 ok\nprovider 3 count 0 ok\nprovider 4 count 0 ok\nprovider 5 count 3 ok\n",
    ),
];

#[test]
fn an_audit_flags_the_counts_above_the_tolerance(rt: HostRuntime) {
    no_other(&rt, first_other(rt.alloc(), &AUDITS));
}

static LISTS: [Row; 2] = [
    (Line::List(&[&SETUP]), ""),
    (Line::List(&TWO_FILES), "Z. 256\nab 100\n"),
];

#[test]
fn files_are_listed_in_byte_order_of_their_names(rt: HostRuntime) {
    no_other(&rt, first_other(rt.alloc(), &LISTS));
}

/// A text that is written to a sink, or with none the line that no row is found, and the status that this is
/// to give.
type Written = (Option<&'static [u8]>, u8);

/// Whether a text is written so.
fn writes<K: Sink>(sink: &mut K, written: Written) -> bool {
    match written {
        (Some(text), status) => write_text(text, sink) == status,
        (None, status) => tell_no_row(sink) == status,
    }
}

/// The place of the first of these texts that is written otherwise, if any.
fn first_unwritten<K: Sink>(sink: &mut K, all: &[Written]) -> Option<usize> {
    for place in 0..all.len() {
        if !writes(sink, all[place]) {
            return Some(place);
        }
    }
    None
}

/// The same of a sink that never fails, in which these bytes are to be then.
fn sure_takes(alloc: Global, all: &[Written], bytes: &[u8]) -> Option<usize> {
    match SureSink::new(alloc) {
        Ok(mut sink) => {
            let place = first_unwritten(&mut sink, all);
            or_behind(place, all.len(), sink.written() == bytes)
        }
        Err(_) => Some(all.len()),
    }
}

/// The same of a sink that fails at its first two calls.
fn failing_takes(alloc: Global, all: &[Written], bytes: &[u8]) -> Option<usize> {
    match MemSink::new(alloc, &[0, 1]) {
        Ok(mut sink) => {
            let place = first_unwritten(&mut sink, all);
            or_behind(place, all.len(), sink.written() == bytes)
        }
        Err(_) => Some(all.len()),
    }
}

static SURE: [Written; 2] = [(Some(b"ready\n"), WRITTEN), (None, LOST_ROW)];

static FAILING: [Written; 3] = [
    (Some(b""), WRITTEN),
    (Some(b"ready\n"), SINK_FAULT),
    (None, LOST_ROW),
];

static FAILING_AND_THEN: [Written; 4] = [
    (Some(b""), WRITTEN),
    (Some(b"ready\n"), SINK_FAULT),
    (None, LOST_ROW),
    (Some(b"ready\n"), WRITTEN),
];

#[test]
fn a_text_is_written_or_its_fault_is_told(rt: HostRuntime) {
    no_other(&rt, sure_takes(rt.alloc(), &SURE, b"ready\nno row\n"));
    no_other(&rt, failing_takes(rt.alloc(), &FAILING, b""));
    no_other(
        &rt,
        failing_takes(rt.alloc(), &FAILING_AND_THEN, b"ready\n"),
    );
}
