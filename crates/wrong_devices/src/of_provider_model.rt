//! Bodies of the providers of provider_model, for its must-fail edits to spoil.
ghost use Rattle.std.specs.Prelude.{◌≡◌, ◌↔◌, ◌≤◌, length, IfOk, IfSome, OnOk, IsErr, IsErrOf, IsTrue, if◌then◌else◌};
ghost use Rattle.provider_model.specs.declared.fault.StoreFault.TheVariants as store_fault;
ghost use Rattle.provider_model.specs.MemProvider.{held_of, calls_of, store_faults_of};
ghost use Rattle.column_defs.specs.Challenges.{honest_answer};
ghost use Rattle.challenge.specs.Asked.{asked};
ghost use Rattle.device_defs.specs.Calls.{fails_next};
ghost use Rattle.device_defs.specs.Faults.{HasCause};
ghost use Rattle.device_defs.specs.Providers.{HasSize, with_block, without_object, with_symbol};

use challenge::Challenge;
use hail_field::Symbol;
use provider_model::{MemProvider, Provider, StoreFault, Tamper, Untold};
use stream_model::Failed;

/// `MemProvider::store`.
pub fn store(
    provider: &mut MemProvider,
    object: u64,
    stripe: u32,
    block: &[Symbol],
) -> Result<(), StoreFault>
    ensures ok { OnOk result (held_of provider.new
        ≡ with_block object stripe block.now (held_of provider.old)) }
    ensures cause { HasCause (store_faults_of provider.old) (store_faults_of provider.new)
        (IsErrOf result store_fault.Failed) }
{
    provider.store(object, stripe, block)
}

/// `MemProvider::fetch`.
pub fn fetch(
    provider: &mut MemProvider,
    object: u64,
    stripe: u32,
    out: &mut [Symbol],
) -> Result<bool, Failed>
    ensures fails { IsErr result ↔ IsTrue (fails_next (calls_of provider.old)) }
{
    provider.fetch(object, stripe, out)
}

/// `MemProvider::ask`.
pub fn ask(
    provider: &mut MemProvider,
    object: u64,
    challenge: &Challenge,
) -> Result<Option<Symbol>, Failed>
    ensures answer { IfOk result
        (λ answer. answer ≡ honest_answer (asked challenge.now) (held_of provider.old object)) }
{
    provider.ask(object, challenge)
}

/// `MemProvider::remove`.
pub fn remove(provider: &mut MemProvider, object: u64) -> Result<(), Failed>
    ensures ok { OnOk result (held_of provider.new ≡ without_object object (held_of provider.old)) }
{
    provider.remove(object)
}

/// `MemProvider::alter`.
pub fn alter(
    provider: &mut MemProvider,
    object: u64,
    stripe: u32,
    place: u32,
    symbol: Symbol,
) -> bool
    ensures held { held_of provider.new
        ≡ (if result then with_symbol object stripe place symbol (held_of provider.old)
        else held_of provider.old) }
{
    provider.alter(object, stripe, place, symbol)
}

/// `Untold::fetch`.
pub fn fetch_untold<P: Tamper + Drop>(
    untold: &mut Untold<P>,
    object: u64,
    stripe: u32,
    out: &mut [Symbol],
) -> Result<bool, Failed>
    requires some { 1 ≤ length out.old }
    requires few { length out.old ≤ 128 }
    ensures found { IfOk result (λ found. IfSome (P.held untold.old.inner)
        (λ blocks. IsTrue found ↔ HasSize (length out.old) (blocks object stripe))) }
{
    untold.fetch(object, stripe, out)
}
