use crate::remotes::RemoteLink;
use challenge::Challenge;
use hail_adapters::FolderProvider;
use hail_field::Symbol;
use provider_choice::Choice;
use provider_model::{Provider, StoreFault, Tamper};
use provider_wire::LinkProvider;
use stream_model::Failed;

/// A provider whose blocks nobody here can reach but by its calls. Each goes to `inner`, which tells what it
/// tells.
#[derive(Drop)]
pub struct Remote<P: Drop> {
    /// The provider to which each call goes.
    pub inner: P,
}

impl<P: Provider + Drop> Provider for Remote<P> {
    ghost held = { λ remote. P.held remote.inner };

    ghost store_faults = { λ remote. P.store_faults remote.inner };

    ghost other_faults = { λ remote. P.other_faults remote.inner };

    ghost fetches = { λ remote. P.fetches remote.inner };

    ghost calls = { λ remote. P.calls remote.inner };

    fn store(&mut self, object: u64, stripe: u32, block: &[Symbol]) -> Result<(), StoreFault> {
        self.inner.store(object, stripe, block)
    }

    fn fetch(&mut self, object: u64, stripe: u32, out: &mut [Symbol]) -> Result<bool, Failed> {
        self.inner.fetch(object, stripe, out)
    }

    fn ask(&mut self, object: u64, challenge: &Challenge) -> Result<Option<Symbol>, Failed> {
        self.inner.ask(object, challenge)
    }

    fn remove(&mut self, object: u64) -> Result<(), Failed> {
        self.inner.remove(object)
    }
}

/// Nothing is altered or lost at a far end.
impl Tamper for Remote<LinkProvider<RemoteLink>> {
    fn alter(&mut self, object: u64, stripe: u32, place: u32, symbol: Symbol) -> bool {
        let _ = (object, stripe, place, symbol);
        false
    }

    fn lose(&mut self, object: u64, stripe: u32) -> bool {
        let _ = (object, stripe);
        false
    }
}

/// A provider of a home: a folder, or one on another machine.
pub type HomeProvider = Choice<FolderProvider<HostRuntime>, Remote<LinkProvider<RemoteLink>>>;
