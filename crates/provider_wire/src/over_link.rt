// A provider over a link, as a provider, and over a link in the same program as one whose blocks may be
// changed.
ghost use Rattle.std.specs.Prelude.{◌≡◌, ◌≤◌, length, IsErr, IsErrOf};
ghost use Rattle.provider_model.specs.declared.fault.StoreFault.TheVariants as store_fault;
ghost use Rattle.column_defs.specs.Challenges.{honest_answer};
ghost use Rattle.device_defs.specs.Faults.{one_more};
ghost use Rattle.challenge.specs.Asked.{asked};
ghost use Rattle.provider_wire.specs.Linked.{seen_behind, FetchedAs, AskedAs, RemovedAs, held_over, store_faults_over, other_faults_over, fetches_over};
ghost use Rattle.provider_model.specs.Seen.{StoresAs};
ghost use Rattle.provider_wire.specs.LinkProviders.{CountsFaults, TellsLinkFault, link_of, broken_of, link_store_faults, link_other_faults, link_fetches, link_calls};

use crate::link::Link;
use crate::link_provider::LinkProvider;
use crate::loop_link::LoopLink;
use challenge::Challenge;
use hail_field::Symbol;
use provider_model::{Provider, StoreFault, Tamper};
use stream_model::Failed;

impl<L: Link> Provider for LinkProvider<L> {
    ghost held = { λ p. held_over (L.behind (link_of p)) };

    ghost store_faults = { λ p. store_faults_over (L.behind (link_of p)) (link_store_faults p) };

    ghost other_faults = { λ p. other_faults_over (L.behind (link_of p)) (link_other_faults p) };

    ghost fetches = { λ p. fetches_over (L.behind (link_of p)) (link_fetches p) };

    ghost calls = { λ p. link_calls p };

    fn store(&mut self, object: u64, stripe: u32, block: &[Symbol]) -> Result<(), StoreFault>
        requires some { 1 ≤ length block.now }
        requires few { length block.now ≤ 128 }
        ensures answered { StoresAs object stripe block.now result
            (seen_behind (L.behind (link_of self.old)) (link_store_faults self.old)
            (link_other_faults self.old) (link_fetches self.old))
            (seen_behind (L.behind (link_of self.new)) (link_store_faults self.new)
            (link_other_faults self.new) (link_fetches self.new)) }
        ensures counts { CountsFaults (broken_of self.old) (broken_of self.new)
            (IsErrOf result store_fault.Failed) (link_store_faults self.old) (link_store_faults self.new) }
        ensures link_fault { TellsLinkFault (L.faults (link_of self.old)) (L.faults (link_of self.new))
            (broken_of self.new) (IsErrOf result store_fault.Failed) }
        ensures other_faults { link_other_faults self.new ≡ link_other_faults self.old }
        ensures fetches { link_fetches self.new ≡ link_fetches self.old }
        ensures called { link_calls self.new ≡ one_more (link_calls self.old) }
    {
        self.calls = self.calls.saturating_add(1);
        self.store_over(object, stripe, block)
    }

    fn fetch(&mut self, object: u64, stripe: u32, out: &mut [Symbol]) -> Result<bool, Failed>
        requires some { 1 ≤ length out.old }
        requires few { length out.old ≤ 128 }
        ensures answered { FetchedAs object stripe out.old out.new result
            (seen_behind (L.behind (link_of self.old)) (link_store_faults self.old)
            (link_other_faults self.old) (link_fetches self.old))
            (seen_behind (L.behind (link_of self.new)) (link_store_faults self.new)
            (link_other_faults self.new) (link_fetches self.new)) }
        ensures counts { CountsFaults (broken_of self.old) (broken_of self.new) (IsErr result)
            (link_other_faults self.old) (link_other_faults self.new) }
        ensures link_fault { TellsLinkFault (L.faults (link_of self.old)) (L.faults (link_of self.new))
            (broken_of self.new) (IsErr result) }
        ensures store_faults { link_store_faults self.new ≡ link_store_faults self.old }
        ensures fetches { link_fetches self.new ≡ one_more (link_fetches self.old) }
        ensures called { link_calls self.new ≡ one_more (link_calls self.old) }
    {
        self.calls = self.calls.saturating_add(1);
        self.fetch_over(object, stripe, out)
    }

    fn ask(&mut self, object: u64, challenge: &Challenge) -> Result<Option<Symbol>, Failed>
        ensures answered { AskedAs (honest_answer (asked challenge.now)) object result
            (seen_behind (L.behind (link_of self.old)) (link_store_faults self.old)
            (link_other_faults self.old) (link_fetches self.old))
            (seen_behind (L.behind (link_of self.new)) (link_store_faults self.new)
            (link_other_faults self.new) (link_fetches self.new)) }
        ensures counts { CountsFaults (broken_of self.old) (broken_of self.new) (IsErr result)
            (link_other_faults self.old) (link_other_faults self.new) }
        ensures link_fault { TellsLinkFault (L.faults (link_of self.old)) (L.faults (link_of self.new))
            (broken_of self.new) (IsErr result) }
        ensures store_faults { link_store_faults self.new ≡ link_store_faults self.old }
        ensures fetches { link_fetches self.new ≡ link_fetches self.old }
        ensures called { link_calls self.new ≡ one_more (link_calls self.old) }
    {
        self.calls = self.calls.saturating_add(1);
        self.ask_over(object, challenge)
    }

    fn remove(&mut self, object: u64) -> Result<(), Failed>
        ensures answered { RemovedAs object result
            (seen_behind (L.behind (link_of self.old)) (link_store_faults self.old)
            (link_other_faults self.old) (link_fetches self.old))
            (seen_behind (L.behind (link_of self.new)) (link_store_faults self.new)
            (link_other_faults self.new) (link_fetches self.new)) }
        ensures counts { CountsFaults (broken_of self.old) (broken_of self.new) (IsErr result)
            (link_other_faults self.old) (link_other_faults self.new) }
        ensures link_fault { TellsLinkFault (L.faults (link_of self.old)) (L.faults (link_of self.new))
            (broken_of self.new) (IsErr result) }
        ensures store_faults { link_store_faults self.new ≡ link_store_faults self.old }
        ensures fetches { link_fetches self.new ≡ link_fetches self.old }
        ensures called { link_calls self.new ≡ one_more (link_calls self.old) }
    {
        self.calls = self.calls.saturating_add(1);
        self.remove_over(object)
    }
}

impl<P: Tamper> Tamper for LinkProvider<LoopLink<P>> {
    fn alter(&mut self, object: u64, stripe: u32, place: u32, symbol: Symbol) -> bool {
        self.link.provider.alter(object, stripe, place, symbol)
    }

    fn lose(&mut self, object: u64, stripe: u32) -> bool {
        self.link.provider.lose(object, stripe)
    }
}
