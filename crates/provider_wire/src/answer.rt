// What a provider is made to do by a request, and the bytes of its answer.
ghost use Rattle.std.specs.Prelude.{◌≡◌, ◌≤◌, ◌<◌, ◌∷◌, [], Some, None, length, IsTrue};
ghost use Rattle.challenge.specs.Asked.{asked};
ghost use Rattle.wire_defs.specs.Requests.{Store, Fetch, Ask, Remove, is_request};
ghost use Rattle.wire_defs.specs.Replies.{AnswersIn};
ghost use Rattle.column_defs.specs.Objects.{bytes_of_symbols};
ghost use Rattle.provider_wire.specs.Asking.{request_of};
ghost use Rattle.provider_model.specs.Seen.{provider_seen};

use crate::piece::Piece;
use crate::request::Request;
use challenge::Challenge;
use hail_field::Symbol;
use hail_field::laws::{symbol_is_number, symbols_are_numbers};
use provider_model::laws::fetch_gives;
use provider_model::{Provider, StoreFault};

/// Nothing is there.
const MISSING: u8 = 0;

/// The call is done.
const DONE: u8 = 1;

/// The call failed.
const FAILED: u8 = 2;

/// A store found no memory.
const NO_MEMORY: u8 = 3;

/// An answer without symbols.
fn plain(kind: u8) -> Piece
    ensures { result ≡ kind ∷ [] }
{
    let mut answer = Piece::new();
    answer.push(&[kind]);
    answer
}

/// An answer with symbols.
pub(crate) fn with_symbols(symbols: &[Symbol]) -> Piece
    requires { length symbols.now ≤ 128 }
    ensures { result ≡ 1 ∷ bytes_of_symbols symbols.now }
{
    let mut answer = plain(DONE);
    answer.push_symbols(symbols);
    answer
}

fn answer_store<P: Provider>(provider: &mut P, object: u64, stripe: u32, block: &[Symbol]) -> Piece
    requires some { 1 ≤ length block.now }
    requires few { length block.now ≤ 128 }
    ensures { AnswersIn (Store object stripe block.now) (provider_seen P.Provider provider.old)
        result (provider_seen P.Provider provider.new) }
{
    match provider.store(object, stripe, block) {
        Ok(()) => plain(DONE),
        Err(StoreFault::Failed) => plain(FAILED),
        Err(StoreFault::Memory) => plain(NO_MEMORY),
    }
}

fn answer_fetch<P: Provider>(provider: &mut P, object: u64, stripe: u32, size: usize) -> Piece
    requires some { 1 ≤ size }
    requires few { size ≤ 128 }
    ensures { AnswersIn (Fetch object stripe size) (provider_seen P.Provider provider.old)
        result (provider_seen P.Provider provider.new) }
{
    let mut room = [Symbol::ZERO; 128];
    let block = &mut room[..size];
    let found = provider.fetch(object, stripe, block);
    fetch_gives();
    symbols_are_numbers(block);
    match found {
        Ok(true) => with_symbols(block),
        Ok(false) => plain(MISSING),
        Err(_) => plain(FAILED),
    }
}

fn answer_ask<P: Provider>(provider: &mut P, object: u64, challenge: &Challenge) -> Piece
    ensures { AnswersIn (Ask object (asked challenge.now)) (provider_seen P.Provider provider.old)
        result (provider_seen P.Provider provider.new) }
{
    match provider.ask(object, challenge) {
        Ok(Some(symbol)) => {
            symbol_is_number(symbol);
            with_symbols(&[symbol])
        }
        Ok(None) => plain(MISSING),
        Err(_) => plain(FAILED),
    }
}

fn answer_remove<P: Provider>(provider: &mut P, object: u64) -> Piece
    ensures { AnswersIn (Remove object) (provider_seen P.Provider provider.old)
        result (provider_seen P.Provider provider.new) }
{
    match provider.remove(object) {
        Ok(()) => plain(DONE),
        Err(_) => plain(FAILED),
    }
}

/// Asks a provider for what a request says, and gives the bytes of its answer.
pub fn answer<P: Provider>(provider: &mut P, request: &Request) -> Piece
    requires { IsTrue (is_request (request_of request.now)) }
    ensures { AnswersIn (request_of request.now) (provider_seen P.Provider provider.old)
        result (provider_seen P.Provider provider.new) }
{
    match request {
        Request::Store {
            object,
            stripe,
            block,
        } => answer_store(provider, *object, *stripe, block.as_slice()),
        Request::Fetch {
            object,
            stripe,
            size,
        } => answer_fetch(provider, *object, *stripe, *size as usize),
        Request::Ask { object, challenge } => answer_ask(provider, *object, challenge),
        Request::Remove { object } => answer_remove(provider, *object),
    }
}
