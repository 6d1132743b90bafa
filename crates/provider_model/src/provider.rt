ghost use Rattle.std.specs.Prelude.{◌≡◌, ◌↔◌, ◌≤◌, ℕ, Option, Some, false, length, IfOk, OnOk, OnErr, IsErr, IsErrOf, IsSome, IsTrue, IfSome, if◌then◌else◌};
ghost use Rattle.std.specs.Option.{option_map};
ghost use Rattle.provider_model.specs.declared.fault.StoreFault.TheVariants as store_fault;
ghost use Rattle.column_defs.specs.Challenges.{honest_answer};
ghost use Rattle.challenge.specs.Asked.{asked};
ghost use Rattle.device_defs.specs.Faults.{HasCause, one_more};
ghost use Rattle.device_defs.specs.Told.{Goes};
ghost use Rattle.device_defs.specs.Providers.{Held, with_block, without_block, without_object, with_symbol, HasSize, HasPlace, LosesPart};

use crate::fault::StoreFault;
use challenge::Challenge;
use hail_field::Symbol;
use stream_model::Failed;

/// A provider of blocks, each a list of symbols under the number of an object and of a stripe.
pub trait Provider {
    /// The blocks held, where the provider tells them.
    ghost held: { Self → Option Held };

    /// How often a store has failed.
    ghost store_faults: { Self → ℕ };

    /// How often another call has failed.
    ghost other_faults: { Self → ℕ };

    /// How often the provider was fetched from.
    ghost fetches: { Self → ℕ };

    /// How often the provider was called.
    ghost calls: { Self → ℕ };

    /// Sets one block.
    fn store(&mut self, object: u64, stripe: u32, block: &[Symbol]) -> Result<(), StoreFault>
        requires some { 1 ≤ length block.now }
        requires few { length block.now ≤ 128 }
        ensures ok { OnOk result (held self.new ≡ option_map (with_block object stripe block.now)
            (held self.old)) }
        ensures err { OnErr result (held self.new ≡ held self.old) }
        ensures cause { HasCause (store_faults self.old) (store_faults self.new)
            (IsErrOf result store_fault.Failed) }
        ensures no_fault { IsErrOf result store_fault.Memory
            → store_faults self.new ≡ store_faults self.old }
        ensures no_other_fault { other_faults self.new ≡ other_faults self.old }
        ensures no_fetch { fetches self.new ≡ fetches self.old }
        ensures called { calls self.new ≡ one_more (calls self.old) };

    /// Puts a block into `out`, and answers whether it is held with that many symbols.
    fn fetch(&mut self, object: u64, stripe: u32, out: &mut [Symbol]) -> Result<bool, Failed>
        requires some { 1 ≤ length out.old }
        requires few { length out.old ≤ 128 }
        ensures found { IfOk result (λ found. IfSome (held self.old)
            (λ blocks. IsTrue found ↔ HasSize (length out.old) (blocks object stripe))) }
        ensures block { IfOk result (λ found. IfSome (held self.old)
            (λ blocks. IsTrue found → blocks object stripe ≡ Some out.new)) }
        ensures not_found { IfOk result
            (λ found. IsSome (held self.old) → found ≡ false → out.new ≡ out.old) }
        ensures err { OnErr result (IsSome (held self.old) → out.new ≡ out.old) }
        ensures same { held self.new ≡ held self.old }
        ensures cause { HasCause (other_faults self.old) (other_faults self.new) (IsErr result) }
        ensures no_store_fault { store_faults self.new ≡ store_faults self.old }
        ensures counted { fetches self.new ≡ one_more (fetches self.old) }
        ensures called { calls self.new ≡ one_more (calls self.old) };

    /// Answers a challenge to an object: a sum over the picked rows of its blocks, none where one of these is
    /// not held.
    fn ask(&mut self, object: u64, challenge: &Challenge) -> Result<Option<Symbol>, Failed>
        ensures answer { IfOk result
            (λ answer. IfSome (held self.old)
            (λ blocks. answer ≡ honest_answer (asked challenge.now) (blocks object))) }
        ensures same { held self.new ≡ held self.old }
        ensures cause { HasCause (other_faults self.old) (other_faults self.new) (IsErr result) }
        ensures no_store_fault { store_faults self.new ≡ store_faults self.old }
        ensures no_fetch { fetches self.new ≡ fetches self.old }
        ensures called { calls self.new ≡ one_more (calls self.old) };

    /// Takes away all blocks of an object.
    fn remove(&mut self, object: u64) -> Result<(), Failed>
        ensures ok { OnOk result (held self.new ≡ option_map (without_object object) (held self.old)) }
        ensures err { OnErr result (Goes (LosesPart object) (held self.old) (held self.new)) }
        ensures cause { HasCause (other_faults self.old) (other_faults self.new) (IsErr result) }
        ensures no_store_fault { store_faults self.new ≡ store_faults self.old }
        ensures no_fetch { fetches self.new ≡ fetches self.old }
        ensures called { calls self.new ≡ one_more (calls self.old) };
}

/// A provider whose blocks an adversary may change.
pub trait Tamper: Provider {
    /// Replaces one symbol of a block, and answers whether it was there.
    fn alter(&mut self, object: u64, stripe: u32, place: u32, symbol: Symbol) -> bool
        ensures there { IfSome (Self.held self.old)
            (λ blocks. IsTrue result ↔ HasPlace (blocks object stripe) place) }
        ensures held { Self.held self.new
            ≡ (if result then option_map (with_symbol object stripe place symbol) (Self.held self.old)
            else Self.held self.old) }
        ensures no_store_fault { Self.store_faults self.new ≡ Self.store_faults self.old }
        ensures faults { Self.other_faults self.old ≤ Self.other_faults self.new }
        ensures no_fault { IsSome (Self.held self.old)
            → Self.other_faults self.new ≡ Self.other_faults self.old }
        ensures no_fetch { Self.fetches self.new ≡ Self.fetches self.old }
        ensures no_call { Self.calls self.new ≡ Self.calls self.old };

    /// Takes away one block, and answers whether it was there.
    fn lose(&mut self, object: u64, stripe: u32) -> bool
        ensures there { IfSome (Self.held self.old)
            (λ blocks. IsTrue result ↔ IsSome (blocks object stripe)) }
        ensures held { Self.held self.new
            ≡ (if result then option_map (without_block object stripe) (Self.held self.old)
            else Self.held self.old) }
        ensures no_store_fault { Self.store_faults self.new ≡ Self.store_faults self.old }
        ensures faults { Self.other_faults self.old ≤ Self.other_faults self.new }
        ensures no_fault { IsSome (Self.held self.old)
            → Self.other_faults self.new ≡ Self.other_faults self.old }
        ensures no_fetch { Self.fetches self.new ≡ Self.fetches self.old }
        ensures no_call { Self.calls self.new ≡ Self.calls self.old };
}
