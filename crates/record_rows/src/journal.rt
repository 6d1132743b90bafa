ghost use Rattle.std.specs.Prelude.{◌≡◌, ◌<◌, ◌+◌, ◌^◌, ◌≤◌, OnOk};
ghost use Rattle.journal_core.specs.Appends.{moves_of};

use crate::given::no_other;
use disk_model::{Disk, MemDisk};
use journal_core::*;
use record_codec::Record;
use std::alloc::Global;
use stream_model::WriteFault;

/// Which calls of an append to a journal without records fail, how it ends, and what stands there then.
type Appended = (&'static [u64], Result<bool, WriteFault>, &'static [u8]);

static APPENDED: [Appended; 1] = [(&[], Ok(true), b"HAILJRN1\x01\x04\x01a\x00")];

/// Each of the four calls fails in its turn.
static GIVEN_UP: [Appended; 4] = [
    (&[0], Err(WriteFault::Failed), b"HAILJRN1\x00\x04\x01"),
    (&[1], Err(WriteFault::Failed), b"HAILJRN1\x00\x04\x01a\x00"),
    (&[2], Err(WriteFault::Failed), b"HAILJRN1\x00\x04\x01a\x00"),
    (&[3], Err(WriteFault::Failed), b"HAILJRN1\x01\x04\x01a\x00"),
];

/// Makes a move of an append; true after the last.
fn turn<D: Disk>(append: &mut Append, disk: &mut D) -> Result<bool, WriteFault>
    requires { moves_of append.old < 4 }
    ensures { OnOk result (moves_of append.new ≡ moves_of append.old + 1) }
{
    append.turn(disk)
}

/// Appends the record that these bytes spell at this gate.
pub fn append(gate: u64, bytes: &[u8], disk: &mut MemDisk) -> Result<bool, WriteFault>
    requires { gate ≤ 2 ^ 23 + 128 }
{
    match Record::read(bytes) {
        Some((entry, size)) if entry.size() <= 80 && size <= 80 => {
            let mut append = Append::new(gate, &entry);
            turn(&mut append, disk)?;
            turn(&mut append, disk)?;
            turn(&mut append, disk)?;
            turn(&mut append, disk)
        }
        _ => Err(WriteFault::Memory),
    }
}

/// Whether an append goes as the row says.
fn goes_so(alloc: Global, (fails, answer, left): &Appended) -> bool {
    match MemDisk::new(alloc, b"HAILJRN1\x00", fails) {
        Ok(mut disk) => append(8, b"\x04\x01a", &mut disk) == *answer && disk.bytes() == *left,
        Err(_) => false,
    }
}

/// The place of the first row that goes otherwise, if any.
fn first_other_append(alloc: Global, rows: &[Appended]) -> Option<usize> {
    for (place, row) in rows.iter().enumerate() {
        if !goes_so(alloc, row) {
            return Some(place);
        }
    }
    None
}

#[test]
fn a_record_is_appended(rt: HostRuntime) {
    no_other(&rt, first_other_append(rt.alloc(), &APPENDED));
}

#[test]
fn a_fault_ends_the_append(rt: HostRuntime) {
    no_other(&rt, first_other_append(rt.alloc(), &GIVEN_UP));
}
