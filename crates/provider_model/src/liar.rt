ghost use Rattle.std.specs.Prelude.{◌≡◌, ◌↔◌, None, Some, false, length, option_copied, map, IfOk, IfErr, IfSome, OnOk, OnErr, IsOk, IsTrue, IsSome, if◌then◌else◌};
ghost use Rattle.std.specs.Option.{option_map};
ghost use Rattle.provider_model.specs.declared.fault.StoreFault.TheVariants as store_fault;
ghost use Rattle.column_defs.specs.Challenges.{honest_answer};
ghost use Rattle.challenge.specs.Asked.{asked};
ghost use Rattle.hail_field.specs.Nim.{nim_add};
ghost use Rattle.device_defs.specs.Faults.{one_more};
ghost use Rattle.device_defs.specs.Providers.{with_block, without_block, without_object, with_symbol, HasSize, HasPlace};

use crate::fault::StoreFault;
use crate::held::HeldBlocks;
use crate::object::answer_of;
use crate::provider::{Provider, Tamper};
use challenge::Challenge;
use hail_field::Symbol;
use std::alloc::Global;
use stream_model::Failed;

/// A provider in memory that never fails, tells nothing, and lies: it adds a symbol to each place of each
/// block that it hands out, and to each answer to a challenge. With the symbol 0 it is honest.
#[derive(Drop)]
pub struct Liar {
    blocks: HeldBlocks,
    symbol: Symbol,
    fetches: u64,
    calls: u64,
    alloc: Global,
}

/// Adds a symbol to each symbol of a block.
#[tactic(auto, using(crate::proofs::Lies::added_all))]
fn add_to_each(block: &mut [Symbol], symbol: Symbol)
    ensures { block.new ≡ map (λ held. nim_add held symbol) block.old }
{
    for held in block.iter_mut() {
        *held = held.add(symbol);
    }
}

impl Liar {
    ghost use Rattle.provider_model.specs.Liar.{held_of, added_symbol, fetches_of, calls_made};

    /// A provider that holds nothing and adds this symbol.
    pub fn new(alloc: Global, symbol: Symbol) -> Liar
        ensures held { held_of result ≡ (λ object stripe. None) }
        ensures symbol { added_symbol result ≡ symbol }
        ensures fetches { fetches_of result ≡ 0 }
        ensures calls { calls_made result ≡ 0 }
    {
        Liar {
            blocks: HeldBlocks::new(alloc),
            symbol,
            fetches: 0,
            calls: 0,
            alloc,
        }
    }

    /// A block as it is held.
    pub fn held(&self, object: u64, stripe: u32) -> Option<&[Symbol]>
        ensures { option_copied result ≡ held_of self.now object stripe }
    {
        self.blocks.at(object, stripe)
    }
}

impl Provider for Liar {
    ghost use Rattle.provider_model.specs.Liar.{held_of, added_symbol, fetches_of, calls_made};

    ghost held = { λ _. None };

    ghost store_faults = { λ _. 0 };

    ghost other_faults = { λ _. 0 };

    ghost fetches = { λ provider. fetches_of provider };

    ghost calls = { λ provider. calls_made provider };

    fn store(&mut self, object: u64, stripe: u32, block: &[Symbol]) -> Result<(), StoreFault>
        ensures ok { OnOk result (held_of self.new ≡ with_block object stripe block.now (held_of self.old)) }
        ensures err { OnErr result (held_of self.new ≡ held_of self.old) }
        ensures sure { IfErr result (λ fault. fault ≡ store_fault.Memory) }
        ensures no_fetch { fetches_of self.new ≡ fetches_of self.old }
        ensures called { calls_made self.new ≡ one_more (calls_made self.old) }
        ensures lie { added_symbol self.new ≡ added_symbol self.old }
    {
        self.calls = self.calls.saturating_add(1);
        Ok(self.blocks.set(self.alloc, object, stripe, block)?)
    }

    fn fetch(&mut self, object: u64, stripe: u32, out: &mut [Symbol]) -> Result<bool, Failed>
        ensures found { IfOk result (λ found. IsTrue found ↔ HasSize (length out.old)
            (held_of self.old object stripe)) }
        ensures block { IfOk result (λ found. IsTrue found → IfSome (held_of self.old object stripe)
            (λ block. out.new ≡ map (λ held. nim_add held (added_symbol self.old)) block)) }
        ensures not_found { IfOk result (λ found. found ≡ false → out.new ≡ out.old) }
        ensures same { held_of self.new ≡ held_of self.old }
        ensures sure { IsOk result }
        ensures counted { fetches_of self.new ≡ one_more (fetches_of self.old) }
        ensures called { calls_made self.new ≡ one_more (calls_made self.old) }
        ensures lie { added_symbol self.new ≡ added_symbol self.old }
    {
        self.calls = self.calls.saturating_add(1);
        self.fetches = self.fetches.saturating_add(1);
        let found = self.blocks.copy(object, stripe, out);
        if found {
            add_to_each(out, self.symbol);
        }
        Ok(found)
    }

    fn ask(&mut self, object: u64, challenge: &Challenge) -> Result<Option<Symbol>, Failed>
        ensures answer { IfOk result (λ answer.
            answer ≡ option_map (λ honest. nim_add honest (added_symbol self.old))
            (honest_answer (asked challenge.now) (held_of self.old object))) }
        ensures same { held_of self.new ≡ held_of self.old }
        ensures sure { IsOk result }
        ensures no_fetch { fetches_of self.new ≡ fetches_of self.old }
        ensures called { calls_made self.new ≡ one_more (calls_made self.old) }
        ensures lie { added_symbol self.new ≡ added_symbol self.old }
    {
        self.calls = self.calls.saturating_add(1);
        match answer_of(&self.blocks, object, challenge) {
            Some(honest) => Ok(Some(honest.add(self.symbol))),
            None => Ok(None),
        }
    }

    fn remove(&mut self, object: u64) -> Result<(), Failed>
        ensures ok { held_of self.new ≡ without_object object (held_of self.old) }
        ensures sure { IsOk result }
        ensures no_fetch { fetches_of self.new ≡ fetches_of self.old }
        ensures called { calls_made self.new ≡ one_more (calls_made self.old) }
        ensures lie { added_symbol self.new ≡ added_symbol self.old }
    {
        self.calls = self.calls.saturating_add(1);
        self.blocks.take_object(object);
        Ok(())
    }
}

impl Tamper for Liar {
    ghost use Rattle.provider_model.specs.Liar.{held_of, added_symbol, fetches_of, calls_made};

    fn alter(&mut self, object: u64, stripe: u32, place: u32, symbol: Symbol) -> bool
        ensures there { IsTrue result ↔ HasPlace (held_of self.old object stripe) place }
        ensures held { held_of self.new
            ≡ (if result then with_symbol object stripe place symbol (held_of self.old)
            else held_of self.old) }
        ensures no_fetch { fetches_of self.new ≡ fetches_of self.old }
        ensures no_call { calls_made self.new ≡ calls_made self.old }
        ensures lie { added_symbol self.new ≡ added_symbol self.old }
    {
        self.blocks.put(object, stripe, place, symbol)
    }

    fn lose(&mut self, object: u64, stripe: u32) -> bool
        ensures there { IsTrue result ↔ IsSome (held_of self.old object stripe) }
        ensures held { held_of self.new
            ≡ (if result then without_block object stripe (held_of self.old) else held_of self.old) }
        ensures no_fetch { fetches_of self.new ≡ fetches_of self.old }
        ensures no_call { calls_made self.new ≡ calls_made self.old }
        ensures lie { added_symbol self.new ≡ added_symbol self.old }
    {
        self.blocks.take_block(object, stripe)
    }
}
