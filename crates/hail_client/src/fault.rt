ghost use Rattle.std.specs.Prelude.{◌≡◌};
ghost use Rattle.hail_client.specs.declared.fault.ReopenFault.TheVariants as reopen_fault;

use thiserror::Error;
use vault::StartFault;

/// Why no vault is open after a reopening.
#[derive(Clone, Copy, Debug, Drop, Error)]
pub enum ReopenFault {
    /// The disk gave no vault.
    #[error("{0}")]
    NotOpened(StartFault),
    /// Fewer providers are handed in than the store was set up with.
    #[error("TooFewProviders")]
    TooFewProviders,
}

impl From<StartFault> for ReopenFault {
    ghost from_gives = { λ f e. e ≡ reopen_fault.NotOpened f };

    fn from(fault: StartFault) -> Self {
        ReopenFault::NotOpened(fault)
    }
}
