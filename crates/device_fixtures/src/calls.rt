// Calls of a provider and what they are to answer. What is tested is called through functions with no clause:
// a test is proved to be safe, and shows the rest by running.
use crate::given::{CHALLENGE, OF_ONE_BLOCK};
use challenge::Challenge;
use hail_field::Symbol;
use provider_model::{Provider, StoreFault, Tamper};
use stream_model::Failed;

/// A call of a provider, and what it is to answer. The first number is the object, the second the stripe;
/// blocks have at most six symbols.
#[derive(Clone, Copy)]
pub enum Call {
    /// A block is stored.
    Store(u64, u32, &'static [u128], Result<(), StoreFault>),
    /// A block is fetched into these symbols, and they are the last ones then.
    Fetch(u64, u32, &'static [u128], Result<bool, Failed>, &'static [u128]),
    /// No block of so many symbols is fetched, be it a fault or not.
    Lacks(u64, u32, usize),
    /// The challenge is answered.
    Ask(u64, Result<Option<u128>, Failed>),
    /// The challenge to an object of one block is answered.
    AskOfOne(u64, Result<Option<u128>, Failed>),
    /// An object is removed.
    Remove(u64, Result<(), Failed>),
    /// The symbol at a place of a block becomes another.
    Alter(u64, u32, u32, u128, bool),
    /// A block is lost.
    Lose(u64, u32, bool),
}

/// Symbols of these numbers, at most six, and zeros behind them.
fn symbols(numbers: &[u128]) -> [Symbol; 6] {
    let mut all = [Symbol(0); 6];
    if numbers.len() > 6 {
        return all;
    }
    for place in 0..numbers.len() {
        all[place] = Symbol(numbers[place]);
    }
    all
}

/// Whether symbols are those of these numbers.
pub fn are(found: &[Symbol], numbers: &[u128]) -> bool {
    let all = symbols(numbers);
    match all.get(..numbers.len()) {
        Some(wanted) => found == wanted,
        None => false,
    }
}

/// Stores a block of 1 to 128 symbols.
fn store<P: Provider>(
    provider: &mut P,
    object: u64,
    stripe: u32,
    block: &[Symbol],
) -> Option<Result<(), StoreFault>> {
    if block.is_empty() || block.len() > 128 {
        return None;
    }
    Some(provider.store(object, stripe, block))
}

/// Whether the store of a block answers so.
fn stores<P: Provider>(
    provider: &mut P,
    object: u64,
    stripe: u32,
    block: &[u128],
    wanted: Result<(), StoreFault>,
) -> bool {
    let all = symbols(block);
    match all.get(..block.len()) {
        Some(block) => store(provider, object, stripe, block) == Some(wanted),
        None => false,
    }
}

/// Fetches a block of 1 to 128 symbols.
fn fetch<P: Provider>(
    provider: &mut P,
    object: u64,
    stripe: u32,
    out: &mut [Symbol],
) -> Option<Result<bool, Failed>> {
    if out.is_empty() || out.len() > 128 {
        return None;
    }
    Some(provider.fetch(object, stripe, out))
}

/// Whether a fetch into some symbols answers so, and they are these then.
fn fetches<P: Provider>(
    provider: &mut P,
    object: u64,
    stripe: u32,
    room: &[u128],
    found: Result<bool, Failed>,
    wanted: &[u128],
) -> bool {
    let mut all = symbols(room);
    match all.get_mut(..room.len()) {
        Some(out) => fetch(provider, object, stripe, out) == Some(found) && are(out, wanted),
        None => false,
    }
}

/// Whether no block of so many symbols is fetched.
fn lacks<P: Provider>(provider: &mut P, object: u64, stripe: u32, size: usize) -> bool {
    let mut all = [Symbol(0); 6];
    match all.get_mut(..size) {
        Some(out) => fetch(provider, object, stripe, out) != Some(Ok(true)),
        None => false,
    }
}

/// The number of the answer to a challenge.
fn ask<P: Provider>(
    provider: &mut P,
    object: u64,
    challenge: &Challenge,
) -> Result<Option<u128>, Failed> {
    match provider.ask(object, challenge) {
        Ok(Some(symbol)) => Ok(Some(symbol.0)),
        Ok(None) => Ok(None),
        Err(failed) => Err(failed),
    }
}

fn remove<P: Provider>(provider: &mut P, object: u64) -> Result<(), Failed> {
    provider.remove(object)
}

fn alter<P: Tamper>(provider: &mut P, object: u64, stripe: u32, place: u32, number: u128) -> bool {
    provider.alter(object, stripe, place, Symbol(number))
}

fn lose<P: Tamper>(provider: &mut P, object: u64, stripe: u32) -> bool {
    provider.lose(object, stripe)
}

/// Whether a call is one of a provider that nobody tampers with, and is answered as it is to be.
pub fn is_right<P: Provider>(provider: &mut P, call: &Call) -> bool {
    match *call {
        Call::Store(object, stripe, block, wanted) => {
            stores(provider, object, stripe, block, wanted)
        }
        Call::Fetch(object, stripe, room, found, wanted) => {
            fetches(provider, object, stripe, room, found, wanted)
        }
        Call::Lacks(object, stripe, size) => lacks(provider, object, stripe, size),
        Call::Ask(object, wanted) => ask(provider, object, &CHALLENGE) == wanted,
        Call::AskOfOne(object, wanted) => ask(provider, object, &OF_ONE_BLOCK) == wanted,
        Call::Remove(object, wanted) => remove(provider, object) == wanted,
        _ => false,
    }
}

/// Whether a call is answered as it is to be.
pub fn is_right_tampered<P: Tamper>(provider: &mut P, call: &Call) -> bool {
    match *call {
        Call::Alter(object, stripe, place, number, wanted) => {
            alter(provider, object, stripe, place, number) == wanted
        }
        Call::Lose(object, stripe, wanted) => lose(provider, object, stripe) == wanted,
        _ => is_right(provider, call),
    }
}

/// The place of the first of these calls that is answered otherwise, or none.
pub fn first_wrong<P: Tamper>(provider: &mut P, calls: &[Call]) -> Option<usize> {
    for place in 0..calls.len() {
        if !is_right_tampered(provider, &calls[place]) {
            return Some(place);
        }
    }
    None
}
