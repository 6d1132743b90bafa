ghost use Rattle.std.specs.Prelude.{◌≡◌, ◌↔◌, None, Some, false, length, option_copied, IfOk, OnOk, OnErr, IsErr, IsErrOf, IsTrue, IsSome, if◌then◌else◌};
ghost use Rattle.provider_model.specs.declared.fault.StoreFault.TheVariants as store_fault;
ghost use Rattle.column_defs.specs.Challenges.{honest_answer};
ghost use Rattle.challenge.specs.Asked.{asked};
ghost use Rattle.device_defs.specs.Faults.{HasCause, one_more};
ghost use Rattle.device_defs.specs.Calls.{fails_next, no_calls, called};
ghost use Rattle.device_defs.specs.Providers.{with_block, without_block, without_object, with_symbol, HasSize, HasPlace, LosesPart};

use crate::fault::StoreFault;
use crate::held::HeldBlocks;
use crate::object::answer_of;
use crate::provider::{Provider, Tamper};
use challenge::Challenge;
use hail_field::{Memory, Symbol};
use std::alloc::Global;
use stream_model::{Calls, Failed};

/// A provider in memory that counts the calls of `Provider` from 0, and fails those that are listed.
#[derive(Drop)]
pub struct MemProvider {
    blocks: HeldBlocks,
    calls: Calls,
    store_faults: u64,
    other_faults: u64,
    fetches: u64,
    alloc: Global,
}

impl MemProvider {
    ghost use Rattle.provider_model.specs.MemProvider.{held_of, calls_of, store_faults_of, other_faults_of, fetches_of};

    /// A provider that holds nothing.
    pub fn new(alloc: Global, fails: &[u64]) -> Result<MemProvider, Memory>
        ensures held { IfOk result (λ provider. held_of provider ≡ (λ object stripe. None)) }
        ensures calls { IfOk result (λ provider. calls_of provider ≡ no_calls fails.now) }
        ensures store_faults { IfOk result (λ provider. store_faults_of provider ≡ 0) }
        ensures other_faults { IfOk result (λ provider. other_faults_of provider ≡ 0) }
        ensures fetches { IfOk result (λ provider. fetches_of provider ≡ 0) }
    {
        let Ok(calls) = Calls::new(alloc, fails) else {
            return Err(Memory);
        };
        Ok(MemProvider {
            blocks: HeldBlocks::new(alloc),
            calls,
            store_faults: 0,
            other_faults: 0,
            fetches: 0,
            alloc,
        })
    }

    /// A held block.
    pub fn held(&self, object: u64, stripe: u32) -> Option<&[Symbol]>
        ensures { option_copied result ≡ held_of self.now object stripe }
    {
        self.blocks.at(object, stripe)
    }
}

impl Provider for MemProvider {
    ghost use Rattle.provider_model.specs.MemProvider.{held_of, calls_of, store_faults_of, other_faults_of, fetches_of};

    ghost held = { λ provider. Some (held_of provider) };

    ghost store_faults = { λ provider. store_faults_of provider };

    ghost other_faults = { λ provider. other_faults_of provider };

    ghost fetches = { λ provider. fetches_of provider };

    ghost calls = { λ provider. (calls_of provider).made };

    fn store(&mut self, object: u64, stripe: u32, block: &[Symbol]) -> Result<(), StoreFault>
        ensures ok { OnOk result (held_of self.new ≡ with_block object stripe block.now (held_of self.old)) }
        ensures err { OnErr result (held_of self.new ≡ held_of self.old) }
        ensures cause { HasCause (store_faults_of self.old) (store_faults_of self.new)
            (IsErrOf result store_fault.Failed) }
        ensures no_fault { IsErrOf result store_fault.Memory
            → store_faults_of self.new ≡ store_faults_of self.old }
        ensures no_other_fault { other_faults_of self.new ≡ other_faults_of self.old }
        ensures no_fetch { fetches_of self.new ≡ fetches_of self.old }

        ensures fails { IsErrOf result store_fault.Failed ↔ IsTrue (fails_next (calls_of self.old)) }
        ensures counted_call { calls_of self.new ≡ called (calls_of self.old) }
        ensures counted_fault { store_faults_of self.new
            ≡ (if fails_next (calls_of self.old) then one_more (store_faults_of self.old)
            else store_faults_of self.old) }
    {
        if self.calls.next() {
            self.store_faults = self.store_faults.saturating_add(1);
            return Err(StoreFault::Failed);
        }
        Ok(self.blocks.set(self.alloc, object, stripe, block)?)
    }

    fn fetch(&mut self, object: u64, stripe: u32, out: &mut [Symbol]) -> Result<bool, Failed>
        ensures found { IfOk result (λ found. IsTrue found ↔ HasSize (length out.old)
            (held_of self.old object stripe)) }
        ensures block { IfOk result (λ found. IsTrue found → held_of self.old object stripe ≡ Some out.new) }
        ensures not_found { IfOk result (λ found. found ≡ false → out.new ≡ out.old) }
        ensures err { OnErr result (out.new ≡ out.old) }
        ensures same { held_of self.new ≡ held_of self.old }
        ensures cause { HasCause (other_faults_of self.old) (other_faults_of self.new) (IsErr result) }
        ensures no_store_fault { store_faults_of self.new ≡ store_faults_of self.old }
        ensures counted { fetches_of self.new ≡ one_more (fetches_of self.old) }

        ensures fails { IsErr result ↔ IsTrue (fails_next (calls_of self.old)) }
        ensures counted_call { calls_of self.new ≡ called (calls_of self.old) }
        ensures counted_fault { other_faults_of self.new
            ≡ (if fails_next (calls_of self.old) then one_more (other_faults_of self.old)
            else other_faults_of self.old) }
    {
        self.fetches = self.fetches.saturating_add(1);
        if self.calls.next() {
            self.other_faults = self.other_faults.saturating_add(1);
            return Err(Failed);
        }
        Ok(self.blocks.copy(object, stripe, out))
    }

    fn ask(&mut self, object: u64, challenge: &Challenge) -> Result<Option<Symbol>, Failed>
        ensures answer { IfOk result
            (λ answer. answer ≡ honest_answer (asked challenge.now) (held_of self.old object)) }
        ensures same { held_of self.new ≡ held_of self.old }
        ensures cause { HasCause (other_faults_of self.old) (other_faults_of self.new) (IsErr result) }
        ensures no_store_fault { store_faults_of self.new ≡ store_faults_of self.old }
        ensures no_fetch { fetches_of self.new ≡ fetches_of self.old }

        ensures fails { IsErr result ↔ IsTrue (fails_next (calls_of self.old)) }
        ensures counted_call { calls_of self.new ≡ called (calls_of self.old) }
        ensures counted_fault { other_faults_of self.new
            ≡ (if fails_next (calls_of self.old) then one_more (other_faults_of self.old)
            else other_faults_of self.old) }
    {
        if self.calls.next() {
            self.other_faults = self.other_faults.saturating_add(1);
            return Err(Failed);
        }
        Ok(answer_of(&self.blocks, object, challenge))
    }

    /// A removal that fails removes nothing.
    fn remove(&mut self, object: u64) -> Result<(), Failed>
        ensures ok { OnOk result (held_of self.new ≡ without_object object (held_of self.old)) }
        ensures err { OnErr result (held_of self.new ≡ held_of self.old) }
        ensures part { OnErr result (LosesPart object (held_of self.old) (held_of self.new)) }
        ensures cause { HasCause (other_faults_of self.old) (other_faults_of self.new) (IsErr result) }
        ensures no_store_fault { store_faults_of self.new ≡ store_faults_of self.old }
        ensures no_fetch { fetches_of self.new ≡ fetches_of self.old }

        ensures fails { IsErr result ↔ IsTrue (fails_next (calls_of self.old)) }
        ensures counted_call { calls_of self.new ≡ called (calls_of self.old) }
        ensures counted_fault { other_faults_of self.new
            ≡ (if fails_next (calls_of self.old) then one_more (other_faults_of self.old)
            else other_faults_of self.old) }
    {
        if self.calls.next() {
            self.other_faults = self.other_faults.saturating_add(1);
            return Err(Failed);
        }
        self.blocks.take_object(object);
        Ok(())
    }
}

impl Tamper for MemProvider {
    ghost use Rattle.provider_model.specs.MemProvider.{held_of, calls_of, store_faults_of, other_faults_of, fetches_of};

    fn alter(&mut self, object: u64, stripe: u32, place: u32, symbol: Symbol) -> bool
        ensures there { IsTrue result ↔ HasPlace (held_of self.old object stripe) place }
        ensures held { held_of self.new
            ≡ (if result then with_symbol object stripe place symbol (held_of self.old)
            else held_of self.old) }
        ensures no_store_fault { store_faults_of self.new ≡ store_faults_of self.old }
        ensures no_fault { other_faults_of self.new ≡ other_faults_of self.old }
        ensures no_fetch { fetches_of self.new ≡ fetches_of self.old }
        ensures no_call { calls_of self.new ≡ calls_of self.old }
    {
        self.blocks.put(object, stripe, place, symbol)
    }

    fn lose(&mut self, object: u64, stripe: u32) -> bool
        ensures there { IsTrue result ↔ IsSome (held_of self.old object stripe) }
        ensures held { held_of self.new
            ≡ (if result then without_block object stripe (held_of self.old) else held_of self.old) }
        ensures no_store_fault { store_faults_of self.new ≡ store_faults_of self.old }
        ensures no_fault { other_faults_of self.new ≡ other_faults_of self.old }
        ensures no_fetch { fetches_of self.new ≡ fetches_of self.old }
        ensures no_call { calls_of self.new ≡ calls_of self.old }
    {
        self.blocks.take_block(object, stripe)
    }
}
