use challenge::Challenge;
use hail_field::Symbol;
use provider_model::{Provider, StoreFault};
use stream_model::Failed;

/// A provider that counts its calls by their kinds.
#[derive(Drop)]
pub struct Counted<P: Drop> {
    pub inner: P,
    pub stores: u32,
    pub fetches: u32,
    pub asks: u32,
    pub removals: u32,
}

impl<P: Drop> Counted<P> {
    /// The provider before its first call.
    pub fn new(inner: P) -> Counted<P> {
        Counted {
            inner,
            stores: 0,
            fetches: 0,
            asks: 0,
            removals: 0,
        }
    }
}

impl<P: Provider + Drop> Provider for Counted<P> {
    ghost held = { λ provider. P.held provider.inner };

    ghost store_faults = { λ provider. P.store_faults provider.inner };

    ghost other_faults = { λ provider. P.other_faults provider.inner };

    ghost fetches = { λ provider. P.fetches provider.inner };

    ghost calls = { λ provider. P.calls provider.inner };

    fn store(&mut self, object: u64, stripe: u32, block: &[Symbol]) -> Result<(), StoreFault> {
        self.stores = self.stores.saturating_add(1);
        self.inner.store(object, stripe, block)
    }

    fn fetch(&mut self, object: u64, stripe: u32, out: &mut [Symbol]) -> Result<bool, Failed> {
        self.fetches = self.fetches.saturating_add(1);
        self.inner.fetch(object, stripe, out)
    }

    fn ask(&mut self, object: u64, challenge: &Challenge) -> Result<Option<Symbol>, Failed> {
        self.asks = self.asks.saturating_add(1);
        self.inner.ask(object, challenge)
    }

    fn remove(&mut self, object: u64) -> Result<(), Failed> {
        self.removals = self.removals.saturating_add(1);
        self.inner.remove(object)
    }
}
