// The four calls of a provider over a link.
ghost use Rattle.std.specs.Prelude.{◌≡◌, ◌≤◌, ◌*◌, length, IsErr, IsErrOf};
ghost use Rattle.provider_model.specs.declared.fault.StoreFault.TheVariants as store_fault;
ghost use Rattle.device_defs.specs.Faults.{one_more};
ghost use Rattle.column_defs.specs.Challenges.{honest_answer};
ghost use Rattle.challenge.specs.Asked.{asked};
ghost use Rattle.provider_wire.specs.Linked.{seen_behind, FetchedAs, AskedAs, RemovedAs};
ghost use Rattle.provider_model.specs.Seen.{StoresAs};
ghost use Rattle.provider_wire.specs.LinkProviders.{CountsFaults, TellsLinkFault, link_of, broken_of, link_store_faults, link_other_faults, link_fetches, link_calls};

use crate::frame::{ask_frame, fetch_frame, remove_frame, store_frame};
use crate::link::Link;
use crate::link_provider::LinkProvider;
use crate::symbol_bytes::{SYMBOL_BYTES, symbol_of, take_symbols};
use challenge::Challenge;
use hail_field::Symbol;
use hail_field::laws::{symbol_is_number, symbols_are_numbers};
use provider_model::StoreFault;
use stream_model::Failed;

const MISSING: u8 = 0;

const DONE: u8 = 1;

const FAILED: u8 = 2;

const NO_MEMORY: u8 = 3;

impl<L: Link> LinkProvider<L> {
    /// Stores a block over the link.
    pub(crate) fn store_over(
        &mut self,
        object: u64,
        stripe: u32,
        block: &[Symbol],
    ) -> Result<(), StoreFault>
        requires some { 1 ≤ length block.now }
        requires few { length block.now ≤ 128 }
        ensures answered { StoresAs object stripe block.now result
            (seen_behind (L.behind (link_of self.old)) (link_store_faults self.old)
            (link_other_faults self.old) (link_fetches self.old))
            (seen_behind (L.behind (link_of self.new)) (link_store_faults self.new)
            (link_other_faults self.new) (link_fetches self.new)) }
        ensures counts { CountsFaults (broken_of self.old) (broken_of self.new)
            (IsErrOf result store_fault.Failed) (link_store_faults self.old) (link_store_faults self.new) }
        ensures link_fault { TellsLinkFault (L.faults (link_of self.old)) (L.faults (link_of self.new))
            (broken_of self.new) (IsErrOf result store_fault.Failed) }
        ensures other_faults { link_other_faults self.new ≡ link_other_faults self.old }
        ensures fetches { link_fetches self.new ≡ link_fetches self.old }
        ensures calls { link_calls self.new ≡ link_calls self.old }
    {
        let frame = store_frame(object, stripe, block);
        let answer = self.request(frame.as_slice(), &mut []);
        if answer == Some(DONE) {
            return Ok(());
        }
        if answer == Some(NO_MEMORY) {
            return Err(StoreFault::Memory);
        }
        self.broken = answer != Some(FAILED);
        self.store_faults = self.store_faults.saturating_add(1);
        Err(StoreFault::Failed)
    }

    /// Removes an object over the link.
    pub(crate) fn remove_over(&mut self, object: u64) -> Result<(), Failed>
        ensures answered { RemovedAs object result
            (seen_behind (L.behind (link_of self.old)) (link_store_faults self.old)
            (link_other_faults self.old) (link_fetches self.old))
            (seen_behind (L.behind (link_of self.new)) (link_store_faults self.new)
            (link_other_faults self.new) (link_fetches self.new)) }
        ensures counts { CountsFaults (broken_of self.old) (broken_of self.new) (IsErr result)
            (link_other_faults self.old) (link_other_faults self.new) }
        ensures link_fault { TellsLinkFault (L.faults (link_of self.old)) (L.faults (link_of self.new))
            (broken_of self.new) (IsErr result) }
        ensures store_faults { link_store_faults self.new ≡ link_store_faults self.old }
        ensures fetches { link_fetches self.new ≡ link_fetches self.old }
        ensures calls { link_calls self.new ≡ link_calls self.old }
    {
        let frame = remove_frame(object);
        let answer = self.request(frame.as_slice(), &mut []);
        if answer == Some(DONE) {
            return Ok(());
        }
        self.broken = answer != Some(FAILED);
        self.other_faults = self.other_faults.saturating_add(1);
        Err(Failed)
    }

    /// Asks for an answer over the link.
    pub(crate) fn ask_over(
        &mut self,
        object: u64,
        challenge: &Challenge,
    ) -> Result<Option<Symbol>, Failed>
        ensures answered { AskedAs (honest_answer (asked challenge.now)) object result
            (seen_behind (L.behind (link_of self.old)) (link_store_faults self.old)
            (link_other_faults self.old) (link_fetches self.old))
            (seen_behind (L.behind (link_of self.new)) (link_store_faults self.new)
            (link_other_faults self.new) (link_fetches self.new)) }
        ensures counts { CountsFaults (broken_of self.old) (broken_of self.new) (IsErr result)
            (link_other_faults self.old) (link_other_faults self.new) }
        ensures link_fault { TellsLinkFault (L.faults (link_of self.old)) (L.faults (link_of self.new))
            (broken_of self.new) (IsErr result) }
        ensures store_faults { link_store_faults self.new ≡ link_store_faults self.old }
        ensures fetches { link_fetches self.new ≡ link_fetches self.old }
        ensures calls { link_calls self.new ≡ link_calls self.old }
    {
        let frame = ask_frame(object, challenge);
        let mut tail = [0u8; SYMBOL_BYTES];
        let answer = self.request(frame.as_slice(), &mut tail);
        if answer == Some(DONE) {
            let symbol = symbol_of(&tail);
            symbol_is_number(symbol);
            return Ok(Some(symbol));
        }
        if answer == Some(MISSING) {
            return Ok(None);
        }
        self.broken = answer != Some(FAILED);
        self.other_faults = self.other_faults.saturating_add(1);
        Err(Failed)
    }

    /// Fetches a block over the link, with room for its bytes.
    fn fetch_with(
        &mut self,
        object: u64,
        stripe: u32,
        tail: &mut [u8],
        out: &mut [Symbol],
    ) -> Result<bool, Failed>
        requires some { 1 ≤ length out.old }
        requires few { length out.old ≤ 128 }
        requires room { length tail.old ≡ 16 * length out.old }
        ensures answered { FetchedAs object stripe out.old out.new result
            (seen_behind (L.behind (link_of self.old)) (link_store_faults self.old)
            (link_other_faults self.old) (link_fetches self.old))
            (seen_behind (L.behind (link_of self.new)) (link_store_faults self.new)
            (link_other_faults self.new) (link_fetches self.new)) }
        ensures counts { CountsFaults (broken_of self.old) (broken_of self.new) (IsErr result)
            (link_other_faults self.old) (link_other_faults self.new) }
        ensures link_fault { TellsLinkFault (L.faults (link_of self.old)) (L.faults (link_of self.new))
            (broken_of self.new) (IsErr result) }
        ensures store_faults { link_store_faults self.new ≡ link_store_faults self.old }
        ensures fetches { link_fetches self.new ≡ one_more (link_fetches self.old) }
        ensures calls { link_calls self.new ≡ link_calls self.old }
    {
        let frame = fetch_frame(object, stripe, out.len() as u8);
        self.fetches = self.fetches.saturating_add(1);
        let answer = self.request(frame.as_slice(), tail);
        if answer == Some(DONE) {
            take_symbols(tail, out);
            symbols_are_numbers(out);
            return Ok(true);
        }
        if answer == Some(MISSING) {
            return Ok(false);
        }
        self.broken = answer != Some(FAILED);
        self.other_faults = self.other_faults.saturating_add(1);
        Err(Failed)
    }

    /// Fetches a block over the link.
    pub(crate) fn fetch_over(
        &mut self,
        object: u64,
        stripe: u32,
        out: &mut [Symbol],
    ) -> Result<bool, Failed>
        requires some { 1 ≤ length out.old }
        requires few { length out.old ≤ 128 }
        ensures answered { FetchedAs object stripe out.old out.new result
            (seen_behind (L.behind (link_of self.old)) (link_store_faults self.old)
            (link_other_faults self.old) (link_fetches self.old))
            (seen_behind (L.behind (link_of self.new)) (link_store_faults self.new)
            (link_other_faults self.new) (link_fetches self.new)) }
        ensures counts { CountsFaults (broken_of self.old) (broken_of self.new) (IsErr result)
            (link_other_faults self.old) (link_other_faults self.new) }
        ensures link_fault { TellsLinkFault (L.faults (link_of self.old)) (L.faults (link_of self.new))
            (broken_of self.new) (IsErr result) }
        ensures store_faults { link_store_faults self.new ≡ link_store_faults self.old }
        ensures fetches { link_fetches self.new ≡ one_more (link_fetches self.old) }
        ensures calls { link_calls self.new ≡ link_calls self.old }
    {
        let mut room = [0u8; 2048];
        self.fetch_with(object, stripe, &mut room[..SYMBOL_BYTES * out.len()], out)
    }
}
