use crate::deeds::Deed::{self, Abandons, Gives, Held, May, Next, Runs, Streams, StripeHas};
use crate::deeds::{FOUR, first_wrong};
use crate::job::Job;
use crate::store::{Seen, Store};
use std::alloc::Global;

/// How many bytes of a file a stripe has over four providers.
const STRIPE: usize = 32;

/// The bytes of a file that make a stripe.
fn piece_of(bytes: &[u8], stripe: u32) -> &[u8] {
    let start = (stripe as usize).saturating_mul(STRIPE);
    let rest = bytes.get(start..).unwrap_or(&[]);
    rest.get(..STRIPE).unwrap_or(rest)
}

/// Gives the first job each stripe of these bytes that it waits for, a short one as the last, until it ends,
/// and answers whether it was put.
fn streams(store: &mut Store, bytes: &[u8]) -> bool {
    for _ in 0..8u32 {
        match store.run(1).1 {
            Seen::Wants(stripe) => {
                let piece = piece_of(bytes, stripe);
                if !store.give(1, piece, piece.len() < STRIPE) {
                    return false;
                }
            }
            last => return last == Seen::Put,
        }
    }
    false
}

/// A store in which these bytes were streamed.
fn streamed(alloc: Global, bytes: &[u8]) -> Option<Store> {
    let mut store = Store::set_up(alloc, &FOUR)?;
    let done = store.begin_stream(b"a") == Ok(1) && streams(&mut store, bytes);
    done.then_some(store)
}

/// A store in which these bytes were put.
fn put(alloc: Global, bytes: &'static [u8]) -> Option<Store> {
    let mut store = Store::set_up(alloc, &FOUR)?;
    let done = store.begin(Job::Put(b"a", bytes)) == Ok(1) && store.run(1).1 == Seen::Put;
    done.then_some(store)
}

/// Whether a stream of these bytes and a put of them leave the same blocks.
fn is_same(alloc: Global, bytes: &'static [u8]) -> bool {
    match (streamed(alloc, bytes), put(alloc, bytes)) {
        (Some(streamed), Some(put)) => streamed.holds_as(&put),
        _ => false,
    }
}

/// Bytes of files: of none, a part of a stripe, whole ones, and both; a whole last stripe has none behind it.
const FILES: &[&[u8]] = &[
    b"",
    b"last one",
    b"0123456789abcdefFEDCBA9876543210",
    b"0123456789abcdefFEDCBA9876543210last one",
    b"0123456789abcdefFEDCBA9876543210a second stripe of the same file",
];

/// The place of the first of these files of which they do not.
fn first_other_file(alloc: Global) -> Option<usize> {
    for place in 0..FILES.len() {
        if !is_same(alloc, FILES[place]) {
            return Some(place);
        }
    }
    None
}

#[test]
fn streams_store_what_puts_store(rt: HostRuntime) {
    assert_eq!(rt; first_other_file(rt.alloc()), None);
}

/// A stripe of a file.
const WHOLE: &[u8] = b"0123456789abcdefFEDCBA9876543210";

/// A stream waits for its first stripe once its start is in effect, and for the next once that one is stored;
/// given up it is gone, and what it stored stays under a number of its own.
const GIVEN_UP: &[Deed] = &[
    Streams(Ok(1)),
    Runs(1, 4, Seen::Wants(0)),
    Gives(1, WHOLE, false),
    Runs(1, 4, Seen::Wants(1)),
    Abandons(1),
    Runs(1, 1, Seen::NoSuchJob),
    Next(2),
    Held(1, 4),
];

#[test]
fn a_stream_that_is_given_up_leaves_its_blocks(rt: HostRuntime) {
    assert_eq!(rt; first_wrong(rt.alloc(), &FOUR, GIVEN_UP), None);
}

/// A stream may be given a whole stripe, or at most one as the last, where it waits for one: not before its
/// first append is done, and not once it was given one. No other job may.
const MAY_BE_GIVEN: &[Deed] = &[
    StripeHas(STRIPE),
    Streams(Ok(1)),
    May(1, 32, false, false),
    Runs(1, 4, Seen::Wants(0)),
    May(2, 32, false, false),
    May(1, 32, false, true),
    May(1, 31, false, false),
    May(1, 33, false, false),
    May(1, 0, false, false),
    May(1, 64, false, false),
    May(1, 32, true, true),
    May(1, 31, true, true),
    May(1, 0, true, true),
    May(1, 33, true, false),
    Gives(1, WHOLE, false),
    May(1, 32, false, false),
];

#[test]
fn a_stream_may_be_given_what_it_waits_for(rt: HostRuntime) {
    assert_eq!(rt; first_wrong(rt.alloc(), &FOUR, MAY_BE_GIVEN), None);
}
