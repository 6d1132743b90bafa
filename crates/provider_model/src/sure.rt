ghost use Rattle.std.specs.Prelude.{◌≡◌, ◌↔◌, None, Some, false, length, option_copied, IfOk, IfErr, OnOk, OnErr, IsOk, IsTrue, IsSome, if◌then◌else◌};
ghost use Rattle.provider_model.specs.declared.fault.StoreFault.TheVariants as store_fault;
ghost use Rattle.column_defs.specs.Challenges.{honest_answer};
ghost use Rattle.challenge.specs.Asked.{asked};
ghost use Rattle.device_defs.specs.Faults.{one_more};
ghost use Rattle.device_defs.specs.Providers.{with_block, without_block, without_object, with_symbol, HasSize, HasPlace};

use crate::fault::StoreFault;
use crate::held::HeldBlocks;
use crate::object::answer_of;
use crate::provider::{Provider, Tamper};
use challenge::Challenge;
use hail_field::Symbol;
use std::alloc::Global;
use stream_model::Failed;

/// A provider in memory whose calls never fail.
#[derive(Drop)]
pub struct SureProvider {
    blocks: HeldBlocks,
    fetches: u64,
    calls: u64,
    alloc: Global,
}

impl SureProvider {
    ghost use Rattle.provider_model.specs.SureProvider.{held_of, fetches_of, calls_made};

    /// A provider that holds nothing.
    pub fn new(alloc: Global) -> SureProvider
        ensures held { held_of result ≡ (λ object stripe. None) }
        ensures fetches { fetches_of result ≡ 0 }
        ensures calls { calls_made result ≡ 0 }
    {
        SureProvider {
            blocks: HeldBlocks::new(alloc),
            fetches: 0,
            calls: 0,
            alloc,
        }
    }

    /// A held block.
    pub fn held(&self, object: u64, stripe: u32) -> Option<&[Symbol]>
        ensures { option_copied result ≡ held_of self.now object stripe }
    {
        self.blocks.at(object, stripe)
    }
}

impl Provider for SureProvider {
    ghost use Rattle.provider_model.specs.SureProvider.{held_of, fetches_of, calls_made};

    ghost held = { λ provider. Some (held_of provider) };

    ghost store_faults = { λ _. 0 };

    ghost other_faults = { λ _. 0 };

    ghost fetches = { λ provider. fetches_of provider };

    ghost calls = { λ provider. calls_made provider };

    fn store(&mut self, object: u64, stripe: u32, block: &[Symbol]) -> Result<(), StoreFault>
        ensures ok { OnOk result (held_of self.new ≡ with_block object stripe block.now (held_of self.old)) }
        ensures err { OnErr result (held_of self.new ≡ held_of self.old) }
        ensures sure { IfErr result (λ fault. fault ≡ store_fault.Memory) }
        ensures no_fetch { fetches_of self.new ≡ fetches_of self.old }
        ensures called { calls_made self.new ≡ one_more (calls_made self.old) }
    {
        self.calls = self.calls.saturating_add(1);
        Ok(self.blocks.set(self.alloc, object, stripe, block)?)
    }

    fn fetch(&mut self, object: u64, stripe: u32, out: &mut [Symbol]) -> Result<bool, Failed>
        ensures found { IfOk result (λ found. IsTrue found ↔ HasSize (length out.old)
            (held_of self.old object stripe)) }
        ensures block { IfOk result (λ found. IsTrue found → held_of self.old object stripe ≡ Some out.new) }
        ensures not_found { IfOk result (λ found. found ≡ false → out.new ≡ out.old) }
        ensures same { held_of self.new ≡ held_of self.old }
        ensures sure { IsOk result }
        ensures counted { fetches_of self.new ≡ one_more (fetches_of self.old) }
        ensures called { calls_made self.new ≡ one_more (calls_made self.old) }
    {
        self.calls = self.calls.saturating_add(1);
        self.fetches = self.fetches.saturating_add(1);
        Ok(self.blocks.copy(object, stripe, out))
    }

    fn ask(&mut self, object: u64, challenge: &Challenge) -> Result<Option<Symbol>, Failed>
        ensures answer { IfOk result
            (λ answer. answer ≡ honest_answer (asked challenge.now) (held_of self.old object)) }
        ensures same { held_of self.new ≡ held_of self.old }
        ensures sure { IsOk result }
        ensures no_fetch { fetches_of self.new ≡ fetches_of self.old }
        ensures called { calls_made self.new ≡ one_more (calls_made self.old) }
    {
        self.calls = self.calls.saturating_add(1);
        Ok(answer_of(&self.blocks, object, challenge))
    }

    fn remove(&mut self, object: u64) -> Result<(), Failed>
        ensures ok { held_of self.new ≡ without_object object (held_of self.old) }
        ensures sure { IsOk result }
        ensures no_fetch { fetches_of self.new ≡ fetches_of self.old }
        ensures called { calls_made self.new ≡ one_more (calls_made self.old) }
    {
        self.calls = self.calls.saturating_add(1);
        self.blocks.take_object(object);
        Ok(())
    }
}

impl Tamper for SureProvider {
    ghost use Rattle.provider_model.specs.SureProvider.{held_of, fetches_of, calls_made};

    fn alter(&mut self, object: u64, stripe: u32, place: u32, symbol: Symbol) -> bool
        ensures there { IsTrue result ↔ HasPlace (held_of self.old object stripe) place }
        ensures held { held_of self.new
            ≡ (if result then with_symbol object stripe place symbol (held_of self.old)
            else held_of self.old) }
        ensures no_fetch { fetches_of self.new ≡ fetches_of self.old }
        ensures no_call { calls_made self.new ≡ calls_made self.old }
    {
        self.blocks.put(object, stripe, place, symbol)
    }

    fn lose(&mut self, object: u64, stripe: u32) -> bool
        ensures there { IsTrue result ↔ IsSome (held_of self.old object stripe) }
        ensures held { held_of self.new
            ≡ (if result then without_block object stripe (held_of self.old) else held_of self.old) }
        ensures no_fetch { fetches_of self.new ≡ fetches_of self.old }
        ensures no_call { calls_made self.new ≡ calls_made self.old }
    {
        self.blocks.take_block(object, stripe)
    }
}
