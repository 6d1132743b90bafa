ghost use Rattle.std.specs.Prelude.{◌≡◌};
ghost use Rattle.provider_model.specs.declared.fault.StoreFault.TheVariants as store_fault;

use std::alloc::{AllocError, AllocFailed};
use stream_model::Failed;

/// Why a provider did not store a block: it failed, or it found no memory.
#[derive(Clone, Copy, Debug, PartialEq, Eq)]
pub enum StoreFault {
    /// The provider failed, and its count of store faults rose.
    Failed,
    /// Memory ran out, and the block is as before.
    Memory,
}

impl From<AllocError> for StoreFault {
    ghost from_gives = { λ _ e. e ≡ store_fault.Memory };

    fn from(_: AllocError) -> Self {
        StoreFault::Memory
    }
}

impl<T: Drop> From<AllocFailed<T>> for StoreFault {
    ghost from_gives = { λ _ e. e ≡ store_fault.Memory };

    fn from(_: AllocFailed<T>) -> Self {
        StoreFault::Memory
    }
}

impl From<Failed> for StoreFault {
    ghost from_gives = { λ _ e. e ≡ store_fault.Failed };

    fn from(_: Failed) -> Self {
        StoreFault::Failed
    }
}
