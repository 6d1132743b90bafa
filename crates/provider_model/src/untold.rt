ghost use Rattle.std.specs.Prelude.{◌≡◌, ◌↔◌, ◌≤◌, None, Some, false, length, IfOk, IfSome, OnOk, OnErr, IsErr, IsErrOf, IsTrue, IsSome, if◌then◌else◌};
ghost use Rattle.std.specs.Option.{option_map};
ghost use Rattle.provider_model.specs.declared.fault.StoreFault.TheVariants as store_fault;
ghost use Rattle.column_defs.specs.Challenges.{honest_answer};
ghost use Rattle.challenge.specs.Asked.{asked};
ghost use Rattle.device_defs.specs.Faults.{HasCause, one_more};
ghost use Rattle.device_defs.specs.Told.{Goes};
ghost use Rattle.device_defs.specs.Providers.{with_block, without_block, without_object, with_symbol, HasSize, HasPlace, LosesPart};

use crate::fault::StoreFault;
use crate::provider::{Provider, Tamper};
use challenge::Challenge;
use hail_field::Symbol;
use stream_model::Failed;

/// A provider that passes every call on to another, and does not tell what that one holds.
#[derive(Drop)]
pub struct Untold<P: Drop> {
    /// The provider to which each call goes.
    pub inner: P,
}

impl<P: Tamper + Drop> Untold<P> {
    /// Passes each call on to `inner`.
    pub fn new(inner: P) -> Untold<P>
        ensures { result.inner ≡ inner }
    {
        Untold { inner }
    }
}

impl<P: Tamper + Drop> Provider for Untold<P> {
    ghost held = { λ _. None };

    ghost store_faults = { λ untold. P.store_faults untold.inner };

    ghost other_faults = { λ untold. P.other_faults untold.inner };

    ghost fetches = { λ untold. P.fetches untold.inner };

    ghost calls = { λ untold. P.calls untold.inner };

    fn store(&mut self, object: u64, stripe: u32, block: &[Symbol]) -> Result<(), StoreFault>
        requires some { 1 ≤ length block.now }
        requires few { length block.now ≤ 128 }
        ensures ok { OnOk result (P.held self.new.inner ≡ option_map (with_block object stripe block.now)
            (P.held self.old.inner)) }
        ensures err { OnErr result (P.held self.new.inner ≡ P.held self.old.inner) }
        ensures cause { HasCause (P.store_faults self.old.inner) (P.store_faults self.new.inner)
            (IsErrOf result store_fault.Failed) }
        ensures no_fault { IsErrOf result store_fault.Memory
            → P.store_faults self.new.inner ≡ P.store_faults self.old.inner }
        ensures no_other_fault { P.other_faults self.new.inner ≡ P.other_faults self.old.inner }
        ensures no_fetch { P.fetches self.new.inner ≡ P.fetches self.old.inner }
        ensures called { P.calls self.new.inner ≡ one_more (P.calls self.old.inner) }
    {
        self.inner.store(object, stripe, block)
    }

    fn fetch(&mut self, object: u64, stripe: u32, out: &mut [Symbol]) -> Result<bool, Failed>
        requires some { 1 ≤ length out.old }
        requires few { length out.old ≤ 128 }
        ensures found { IfOk result (λ found. IfSome (P.held self.old.inner)
            (λ blocks. IsTrue found ↔ HasSize (length out.old) (blocks object stripe))) }
        ensures block { IfOk result (λ found. IfSome (P.held self.old.inner)
            (λ blocks. IsTrue found → blocks object stripe ≡ Some out.new)) }
        ensures not_found { IfOk result
            (λ found. IsSome (P.held self.old.inner) → found ≡ false → out.new ≡ out.old) }
        ensures err { OnErr result (IsSome (P.held self.old.inner) → out.new ≡ out.old) }
        ensures same { P.held self.new.inner ≡ P.held self.old.inner }
        ensures cause { HasCause (P.other_faults self.old.inner) (P.other_faults self.new.inner)
            (IsErr result) }
        ensures no_store_fault { P.store_faults self.new.inner ≡ P.store_faults self.old.inner }
        ensures counted { P.fetches self.new.inner ≡ one_more (P.fetches self.old.inner) }
        ensures called { P.calls self.new.inner ≡ one_more (P.calls self.old.inner) }
    {
        self.inner.fetch(object, stripe, out)
    }

    fn ask(&mut self, object: u64, challenge: &Challenge) -> Result<Option<Symbol>, Failed>
        ensures answer { IfOk result
            (λ answer. IfSome (P.held self.old.inner)
            (λ blocks. answer ≡ honest_answer (asked challenge.now) (blocks object))) }
        ensures same { P.held self.new.inner ≡ P.held self.old.inner }
        ensures cause { HasCause (P.other_faults self.old.inner) (P.other_faults self.new.inner)
            (IsErr result) }
        ensures no_store_fault { P.store_faults self.new.inner ≡ P.store_faults self.old.inner }
        ensures no_fetch { P.fetches self.new.inner ≡ P.fetches self.old.inner }
        ensures called { P.calls self.new.inner ≡ one_more (P.calls self.old.inner) }
    {
        self.inner.ask(object, challenge)
    }

    fn remove(&mut self, object: u64) -> Result<(), Failed>
        ensures ok { OnOk result (P.held self.new.inner ≡ option_map (without_object object)
            (P.held self.old.inner)) }
        ensures err { OnErr result (Goes (LosesPart object) (P.held self.old.inner) (P.held self.new.inner)) }
        ensures cause { HasCause (P.other_faults self.old.inner) (P.other_faults self.new.inner)
            (IsErr result) }
        ensures no_store_fault { P.store_faults self.new.inner ≡ P.store_faults self.old.inner }
        ensures no_fetch { P.fetches self.new.inner ≡ P.fetches self.old.inner }
        ensures called { P.calls self.new.inner ≡ one_more (P.calls self.old.inner) }
    {
        self.inner.remove(object)
    }
}

impl<P: Tamper + Drop> Tamper for Untold<P> {
    fn alter(&mut self, object: u64, stripe: u32, place: u32, symbol: Symbol) -> bool
        ensures there { IfSome (P.held self.old.inner)
            (λ blocks. IsTrue result ↔ HasPlace (blocks object stripe) place) }
        ensures held { P.held self.new.inner
            ≡ (if result then option_map (with_symbol object stripe place symbol) (P.held self.old.inner)
            else P.held self.old.inner) }
        ensures no_store_fault { P.store_faults self.new.inner ≡ P.store_faults self.old.inner }
        ensures faults { P.other_faults self.old.inner ≤ P.other_faults self.new.inner }
        ensures no_fault { IsSome (P.held self.old.inner)
            → P.other_faults self.new.inner ≡ P.other_faults self.old.inner }
        ensures no_fetch { P.fetches self.new.inner ≡ P.fetches self.old.inner }
        ensures no_call { P.calls self.new.inner ≡ P.calls self.old.inner }
    {
        self.inner.alter(object, stripe, place, symbol)
    }

    fn lose(&mut self, object: u64, stripe: u32) -> bool
        ensures there { IfSome (P.held self.old.inner)
            (λ blocks. IsTrue result ↔ IsSome (blocks object stripe)) }
        ensures held { P.held self.new.inner
            ≡ (if result then option_map (without_block object stripe) (P.held self.old.inner)
            else P.held self.old.inner) }
        ensures no_store_fault { P.store_faults self.new.inner ≡ P.store_faults self.old.inner }
        ensures faults { P.other_faults self.old.inner ≤ P.other_faults self.new.inner }
        ensures no_fault { IsSome (P.held self.old.inner)
            → P.other_faults self.new.inner ≡ P.other_faults self.old.inner }
        ensures no_fetch { P.fetches self.new.inner ≡ P.fetches self.old.inner }
        ensures no_call { P.calls self.new.inner ≡ P.calls self.old.inner }
    {
        self.inner.lose(object, stripe)
    }
}
