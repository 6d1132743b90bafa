ghost use Rattle.std.specs.Prelude.{◌≡◌, ◌↔◌, ◌≤◌, List, [], length, take, IfOk, IfErr, IsTrue};
ghost use Rattle.record_defs.specs.Records.{Record as Entry};
ghost use Rattle.record_defs.specs.Areas.{Area, magic_front, IsSwitched, HasNoFront};
ghost use Rattle.journal_core.specs.Gates.{IsReadIn, TakesIn, StopsIn};

use crate::areas::{FIRST_BASE, SECOND, SECOND_BASE};
use crate::fault::BadJournal;
use record_codec::Record;

/// What the switch byte stands behind.
const MAGIC_FRONT: [u8; 7] = *b"HAILJRN";

fn has_front(bytes: &[u8]) -> bool
    ensures { IsTrue result ↔ ((8 ≤ length bytes.now) × (take 7 bytes.now ≡ magic_front)) }
{
    bytes.len() >= 8 && bytes[..7] == MAGIC_FRONT[..]
}

/// The offset of the first gate of the active area, in bytes: where its text begins. Bytes that do not begin
/// with the magic's first seven bytes and a switch byte are bad at 0.
pub fn active_gate(bytes: &[u8]) -> Result<usize, BadJournal>
    ensures ok { IfOk result (λ gate. (area : Area) × IsSwitched bytes.now area
        × IsReadIn bytes.now area [] gate) }
    ensures bad { IfErr result (λ bad. HasNoFront bytes.now × (bad.at ≡ 0)) }
{
    if !has_front(bytes) {
        return Err(BadJournal { at: 0 });
    }
    if bytes[7] == SECOND {
        Ok(SECOND_BASE as usize)
    } else {
        Ok(FIRST_BASE as usize)
    }
}

/// The record behind the gate at an offset, and the offset of the next gate, in bytes; None where the gate is
/// closed, at which the text ends. Bytes that end before the gate are bad at the gate; where no record stands
/// behind an open gate they are bad at the byte behind it.
pub fn next_record(bytes: &[u8], gate: usize) -> Result<Option<(Record, usize)>, BadJournal>
    ensures taken { (area : Area) (rs : List Entry) → IsReadIn bytes.now area rs gate
        → IfOk result (TakesIn bytes.now area rs gate) }
    ensures bad { (area : Area) (rs : List Entry) → IsReadIn bytes.now area rs gate
        → IfErr result (λ bad. StopsIn bytes.now area rs bad.at) }
{
    if gate >= bytes.len() {
        return Err(BadJournal { at: gate as u64 });
    }
    if bytes[gate] != 1 {
        return Ok(None);
    }
    match Record::read(&bytes[gate + 1..]) {
        Some((entry, size)) => Ok(Some((entry, gate + 1 + size))),
        None => Err(BadJournal {
            at: (gate + 1) as u64,
        }),
    }
}
