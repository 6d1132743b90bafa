ghost use Rattle.provider_choice.specs.Choices.{by_kind};

use challenge::Challenge;
use hail_field::Symbol;
use provider_model::{Provider, StoreFault, Tamper};
use stream_model::Failed;

/// A provider of one of two kinds: each call goes to the one that stands there, which tells what it tells.
#[derive(Drop)]
pub enum Choice<A: Drop, B: Drop> {
    First(A),
    Second(B),
}

impl<A: Provider + Drop, B: Provider + Drop> Provider for Choice<A, B> {
    ghost held = { λ choice. by_kind A.held B.held choice };

    ghost store_faults = { λ choice. by_kind A.store_faults B.store_faults choice };

    ghost other_faults = { λ choice. by_kind A.other_faults B.other_faults choice };

    ghost fetches = { λ choice. by_kind A.fetches B.fetches choice };

    ghost calls = { λ choice. by_kind A.calls B.calls choice };

    fn store(&mut self, object: u64, stripe: u32, block: &[Symbol]) -> Result<(), StoreFault> {
        match self {
            Choice::First(first) => first.store(object, stripe, block),
            Choice::Second(second) => second.store(object, stripe, block),
        }
    }

    fn fetch(&mut self, object: u64, stripe: u32, out: &mut [Symbol]) -> Result<bool, Failed> {
        match self {
            Choice::First(first) => first.fetch(object, stripe, out),
            Choice::Second(second) => second.fetch(object, stripe, out),
        }
    }

    fn ask(&mut self, object: u64, challenge: &Challenge) -> Result<Option<Symbol>, Failed> {
        match self {
            Choice::First(first) => first.ask(object, challenge),
            Choice::Second(second) => second.ask(object, challenge),
        }
    }

    fn remove(&mut self, object: u64) -> Result<(), Failed> {
        match self {
            Choice::First(first) => first.remove(object),
            Choice::Second(second) => second.remove(object),
        }
    }
}

impl<A: Tamper + Drop, B: Tamper + Drop> Tamper for Choice<A, B> {
    fn alter(&mut self, object: u64, stripe: u32, place: u32, symbol: Symbol) -> bool {
        match self {
            Choice::First(first) => first.alter(object, stripe, place, symbol),
            Choice::Second(second) => second.alter(object, stripe, place, symbol),
        }
    }

    fn lose(&mut self, object: u64, stripe: u32) -> bool {
        match self {
            Choice::First(first) => first.lose(object, stripe),
            Choice::Second(second) => second.lose(object, stripe),
        }
    }
}
