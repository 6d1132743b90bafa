use crate::given::no_other;
use device_fixtures::calls::Call::{self, Alter, Ask, Fetch, Lose, Remove, Store};
use device_fixtures::calls::{are, first_wrong};
use device_fixtures::given::{WEIGHT, or_behind};
use hail_field::Symbol;
use provider_model::*;
use std::alloc::Global;
use stream_model::Failed;

const BLOCK: &[u128] = &[7, 8, 9];

/// What is to be fetched into before it is.
const ROOM: &[u128] = &[0; 3];

const NARROW_ROOM: &[u128] = &[0; 2];

const FOUR: &[u128] = &[4];

/// Whether what is held is the block of these symbols, or none.
fn is_held(held: Option<&[Symbol]>, wanted: Option<&[u128]>) -> bool {
    match (held, wanted) {
        (Some(held), Some(wanted)) => are(held, wanted),
        (None, None) => true,
        _ => false,
    }
}

/// The first of these calls that is answered otherwise by a provider in memory whose listed calls fail. Where
/// all go right and it then holds another first block of an object than this, that is told behind the last.
fn by_memory(
    alloc: Global,
    fails: &[u64],
    calls: &[Call],
    object: u64,
    block: Option<&[u128]>,
) -> Option<usize> {
    match MemProvider::new(alloc, fails) {
        Ok(mut provider) => {
            let wrong = first_wrong(&mut provider, calls);
            or_behind(wrong, calls.len(), is_held(provider.held(object, 0), block))
        }
        Err(_) => Some(calls.len()),
    }
}

static FAILING: [Call; 9] = [
    Store(1, 0, BLOCK, Ok(())),
    Store(1, 7, BLOCK, Ok(())),
    Store(2, 0, BLOCK, Ok(())),
    Store(1, 0, FOUR, Err(StoreFault::Failed)),
    Fetch(1, 0, ROOM, Ok(true), BLOCK),
    Remove(1, Err(Failed)),
    Fetch(1, 7, ROOM, Ok(true), BLOCK),
    Remove(1, Ok(())),
    Fetch(1, 7, ROOM, Ok(false), ROOM),
];

#[test]
fn listed_calls_fail(rt: HostRuntime) {
    no_other(
        &rt,
        by_memory(rt.alloc(), &[3, 5], &FAILING, 2, Some(BLOCK)),
    );
}

/// The same by one that never fails, of the object 1.
fn by_sure(alloc: Global, calls: &[Call], block: Option<&[u128]>) -> Option<usize> {
    let mut provider = SureProvider::new(alloc);
    let wrong = first_wrong(&mut provider, calls);
    or_behind(wrong, calls.len(), is_held(provider.held(1, 0), block))
}

static ALTERING: [Call; 4] = [
    Store(1, 0, BLOCK, Ok(())),
    Alter(1, 0, 2, 5, true),
    Alter(1, 0, 3, 5, false),
    Alter(1, 1, 0, 5, false),
];

const ALTERED: &[u128] = &[7, 8, 5];

#[test]
fn blocks_are_altered(rt: HostRuntime) {
    no_other(&rt, by_sure(rt.alloc(), &ALTERING, Some(ALTERED)));
}

static LOSING: [Call; 7] = [
    Store(1, 0, BLOCK, Ok(())),
    Alter(1, 0, 2, 5, true),
    Alter(1, 0, 3, 5, false),
    Alter(1, 1, 0, 5, false),
    Fetch(1, 0, NARROW_ROOM, Ok(false), NARROW_ROOM),
    Lose(1, 0, true),
    Lose(1, 0, false),
];

#[test]
fn blocks_are_lost(rt: HostRuntime) {
    no_other(&rt, by_sure(rt.alloc(), &LOSING, None));
}

/// Zeros but at the second place.
const ONE: &[u128] = &[0, 1, 0, 0, 0, 0];

const ZEROS: &[u128] = &[0; 6];

/// The same without the last.
const SHORT_ONE: &[u128] = &[0, 1, 0, 0, 0];

/// With 1 in row 19 and 0 in the others the answer is the weight.
static ASKING: [Call; 9] = [
    Store(1, 1, ZEROS, Ok(())),
    Store(1, 4, ZEROS, Ok(())),
    Store(1, 11, ZEROS, Ok(())),
    Store(1, 3, ONE, Ok(())),
    Ask(1, Err(Failed)),
    Ask(1, Ok(Some(WEIGHT))),
    Ask(2, Ok(None)),
    Store(1, 4, SHORT_ONE, Ok(())),
    Ask(1, Ok(None)),
];

static ASKING_SURE: [Call; 7] = [
    Store(1, 1, ONE, Ok(())),
    Store(1, 3, ONE, Ok(())),
    Store(1, 4, ONE, Ok(())),
    Store(1, 11, ONE, Ok(())),
    Ask(1, Ok(Some(WEIGHT))),
    Lose(1, 11, true),
    Ask(1, Ok(None)),
];

#[test]
fn challenges_are_answered(rt: HostRuntime) {
    no_other(&rt, by_memory(rt.alloc(), &[4], &ASKING, 1, None));
    no_other(&rt, by_sure(rt.alloc(), &ASKING_SURE, None));
}

/// The same by a liar that adds this symbol.
fn by_liar(alloc: Global, symbol: Symbol, calls: &[Call], block: Option<&[u128]>) -> Option<usize> {
    let mut liar = Liar::new(alloc, symbol);
    let wrong = first_wrong(&mut liar, calls);
    or_behind(wrong, calls.len(), is_held(liar.held(1, 0), block))
}

/// The block with 5 added to each symbol.
const LIED: &[u128] = &[2, 13, 12];

/// The same where the last symbol became 5.
const LIED_ALTERED: &[u128] = &[2, 13, 0];

static LYING: [Call; 2] = [
    Store(1, 0, BLOCK, Ok(())),
    Fetch(1, 0, ROOM, Ok(true), LIED),
];

static LYING_LONGER: [Call; 7] = [
    Store(1, 0, BLOCK, Ok(())),
    Fetch(1, 0, ROOM, Ok(true), LIED),
    Alter(1, 0, 2, 5, true),
    Fetch(1, 0, ROOM, Ok(true), LIED_ALTERED),
    Remove(1, Ok(())),
    Lose(1, 0, false),
    Fetch(1, 0, ROOM, Ok(false), ROOM),
];

#[test]
fn a_liar_adds_its_symbol(rt: HostRuntime) {
    no_other(&rt, by_liar(rt.alloc(), Symbol(5), &LYING, Some(BLOCK)));
    no_other(&rt, by_liar(rt.alloc(), Symbol(5), &LYING_LONGER, None));
}

/// The weight with 1 added to it.
const LIED_WEIGHT: u128 = WEIGHT ^ 1;

static LYING_ASKED: [Call; 5] = [
    Store(1, 1, ONE, Ok(())),
    Store(1, 3, ONE, Ok(())),
    Store(1, 4, ONE, Ok(())),
    Store(1, 11, ONE, Ok(())),
    Ask(1, Ok(Some(LIED_WEIGHT))),
];

#[test]
fn a_liar_adds_its_symbol_to_an_answer(rt: HostRuntime) {
    no_other(&rt, by_liar(rt.alloc(), Symbol(1), &LYING_ASKED, None));
}

/// The same by a provider whose listed calls fail and that tells nothing, which then is to hold no first
/// block of the object 1.
fn by_untold(alloc: Global, fails: &[u64], calls: &[Call]) -> Option<usize> {
    match MemProvider::new(alloc, fails) {
        Ok(inner) => {
            let mut untold = Untold::new(inner);
            let wrong = first_wrong(&mut untold, calls);
            or_behind(wrong, calls.len(), untold.inner.held(1, 0).is_none())
        }
        Err(_) => Some(calls.len()),
    }
}

static UNTOLD: [Call; 6] = [
    Store(1, 0, BLOCK, Ok(())),
    Store(1, 0, FOUR, Err(StoreFault::Failed)),
    Fetch(1, 0, ROOM, Ok(true), BLOCK),
    Remove(1, Err(Failed)),
    Alter(1, 0, 2, 5, true),
    Lose(1, 0, true),
];

#[test]
fn calls_are_passed_on_untold(rt: HostRuntime) {
    no_other(&rt, by_untold(rt.alloc(), &[1, 3], &UNTOLD));
}
