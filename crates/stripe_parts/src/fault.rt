ghost use Rattle.std.specs.Prelude.{◌≡◌};
ghost use Rattle.stripe_parts.specs.declared.fault.OpenFault.TheVariants as open_fault;

use column_codec::RowLost;
use hail_field::Memory;

/// Why a stripe was not opened.
#[derive(Clone, Copy, Debug, PartialEq, Eq)]
pub enum OpenFault {
    /// A row is not accepted.
    Lost(RowLost),
    /// Memory ran out.
    Memory,
}

impl From<RowLost> for OpenFault {
    ghost from_gives = { λ lost e. e ≡ open_fault.Lost lost };

    fn from(lost: RowLost) -> Self {
        OpenFault::Lost(lost)
    }
}

impl From<Memory> for OpenFault {
    ghost from_gives = { λ _ e. e ≡ open_fault.Memory };

    fn from(_: Memory) -> Self {
        OpenFault::Memory
    }
}
