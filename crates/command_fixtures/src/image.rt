// What a stop leaves of the disk over which a set-up failed.
use crate::deed::Deed;
use crate::rows::SURE;
use crate::store::{KEY, Store, disk_of};
use provider_model::MemProvider;

/// The set-up of a row of stops.
#[derive(Clone, Copy)]
pub struct Stop<'a> {
    /// The bytes that the disk reads before.
    pub before: &'a [u8],
    /// How many calls the set-up makes.
    pub calls: u64,
    /// The picks by which the disk is stopped.
    pub picks: &'a [u8],
}

/// The set-up.
const INIT: &str = "init 4 1 1 0 1 1 0";

/// The journal of this setup alone, up to the gate behind it.
const SET_UP: &[u8] =
    b"HAILJRN1\x01\x01\x04\x01\x01\x00\x01\x01\x00\x00\x00\x01\x02\x03\x04\x05\x06\x07\x08\x09\x0a\x0b\x0c\x0d\x0e\x0f\x10\x11\x12\x13\x14\x15\x16\x17\x18\x19\x1a\x1b\x1c\x1d\x1e\x1f";

/// Whether a disk of these bytes reads this text, and a closed gate behind it.
fn reads(bytes: &[u8], text: &[u8]) -> bool {
    match bytes.get(text.len()) {
        Some(gate) => *gate != 1 && bytes.starts_with(text),
        None => false,
    }
}

/// Whether a set-up that failed may leave these bytes of a disk that read others: it read them before, or
/// they are nine at most, or no record, or this setup alone.
fn may_be_left(before: &[u8], bytes: &[u8]) -> bool {
    bytes == before || bytes.len() <= 9 || reads(bytes, b"HAILJRN1") || reads(bytes, SET_UP)
}

/// How the set-up is to end over a disk that fails at a call.
fn ending(stop: &Stop<'_>, call: u64) -> Deed {
    if call < stop.calls {
        Deed::Refused(INIT, KEY, 12, 0)
    } else {
        Deed::Done(INIT, KEY, b"ready\n")
    }
}

impl Store<MemProvider> {
    /// Whether the set-up over a disk that fails at a call ends so, and the stop then leaves what it may.
    fn leaves_right(&mut self, stop: &Stop<'_>, call: u64) -> bool {
        let told = self.renew(&SURE)
            && self.takes(disk_of(self.alloc, stop.before, &[call]))
            && self.goes(&ending(stop, call));
        self.stops(stop.picks);
        told && may_be_left(stop.before, self.journal())
    }

    /// The first call whose failure leaves something else, of all that the set-up makes and two more.
    pub fn first_wrong_image(&mut self, stop: &Stop<'_>) -> Option<usize> {
        for call in 0..stop.calls.saturating_add(2) {
            if !self.leaves_right(stop, call) {
                return Some(call as usize);
            }
        }
        None
    }
}
