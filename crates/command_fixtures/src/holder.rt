use hail_field::Symbol;
use provider_model::{Liar, MemProvider, Tamper, Untold};
use std::alloc::Global;

/// A provider in memory whose blocks are looked at as they are held.
pub trait Holder: Tamper {
    /// What tells the providers of one type apart when they are made.
    type Kind: Copy;

    /// A provider that holds nothing. Want of memory is the one refusal.
    fn of(alloc: Global, kind: Self::Kind) -> Option<Self>;

    /// The block of an object and a stripe.
    fn block(&self, object: u64, stripe: u32) -> Option<&[Symbol]>;
}

/// The kind is the number of the call that fails.
impl Holder for MemProvider {
    type Kind = u64;

    fn of(alloc: Global, kind: u64) -> Option<MemProvider> {
        MemProvider::new(alloc, &[kind]).ok()
    }

    fn block(&self, object: u64, stripe: u32) -> Option<&[Symbol]> {
        self.held(object, stripe)
    }
}

/// The kind is the symbol that is added.
impl Holder for Liar {
    type Kind = u128;

    fn of(alloc: Global, kind: u128) -> Option<Liar> {
        Some(Liar::new(alloc, Symbol(kind)))
    }

    fn block(&self, object: u64, stripe: u32) -> Option<&[Symbol]> {
        self.held(object, stripe)
    }
}

impl<P: Holder + Drop> Holder for Untold<P> {
    type Kind = P::Kind;

    fn of(alloc: Global, kind: P::Kind) -> Option<Untold<P>> {
        Some(Untold::new(P::of(alloc, kind)?))
    }

    fn block(&self, object: u64, stripe: u32) -> Option<&[Symbol]> {
        self.inner.block(object, stripe)
    }
}

/// Providers of these kinds.
pub fn providers_of<P: Holder + Drop>(alloc: Global, kinds: &[P::Kind]) -> Option<Vec<P>> {
    let mut providers = Vec::new(alloc);
    for kind in kinds {
        providers.push(P::of(alloc, *kind)?).ok()?;
    }
    Some(providers)
}
