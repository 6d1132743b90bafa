ghost use Rattle.std.specs.Prelude.{◌≡◌, []};
ghost use Rattle.provider_wire.specs.Linked.{out_of_step};

use crate::link::Link;
use crate::receive::ask_link;
use stream_model::Memory;

/// A provider behind a link. Over a link that tells what is behind it, it is seen as the provider there; over
/// any other it keeps counts of its own.
#[derive(Drop)]
pub struct LinkProvider<L: Link> {
    pub(crate) link: L,
    pub(crate) broken: bool,
    pub(crate) store_faults: u64,
    pub(crate) other_faults: u64,
    pub(crate) fetches: u64,
    pub(crate) calls: u64,
    ghost in_step: { out_of_step (L.behind link) broken ≡ [] },
}

impl<L: Link> LinkProvider<L> {
    ghost use Rattle.std.specs.Prelude.{◌≡◌, ◌<◌, ◌^◌, ℕ, List, Some, None, [], false, true, length, IfOk, IfSome, IsSome};
    ghost use Rattle.wire_defs.specs.Requests.{Request, SpellsRequest};
    ghost use Rattle.wire_defs.specs.Links.{Behind};
    ghost use Rattle.provider_wire.specs.Linked.{AskedFor, answer_size};
    ghost use Rattle.provider_wire.specs.LinkProviders.{link_of, broken_of, link_store_faults, link_other_faults, link_fetches, link_calls};

    /// A provider behind this link, over which no bytes are due.
    pub fn new(link: L) -> Result<LinkProvider<L>, Memory>
        requires { IfSome (L.behind link) (λ b. b.due ≡ []) }
        ensures link { IfOk result (λ provider. link_of provider ≡ link) }
        ensures broken { IfOk result (λ provider. broken_of provider ≡ false) }
        ensures store_faults { IfOk result (λ provider. link_store_faults provider ≡ 0) }
        ensures other_faults { IfOk result (λ provider. link_other_faults provider ≡ 0) }
        ensures fetches { IfOk result (λ provider. link_fetches provider ≡ 0) }
        ensures calls { IfOk result (λ provider. link_calls provider ≡ 0) }
    {
        Ok(LinkProvider {
            link,
            broken: false,
            store_faults: 0,
            other_faults: 0,
            fetches: 0,
            calls: 0,
        })
    }

    /// Whether the link is out of step: a call of it failed, or an answer ended early or was none of those
    /// that there are. It stays so. A link that tells what is behind it is never out of step.
    pub fn broken(&self) -> bool
        ensures value { result ≡ broken_of self.now }
        ensures told { IsSome (L.behind (link_of self.now)) → result ≡ false }
    {
        self.broken
    }

    /// Sends a request, unless the link is out of step, and receives its answer. None where the link is out
    /// of step then.
    pub(crate) fn request(&mut self, request: &[u8], symbols: &mut [u8]) -> Option<u8>
        requires { (r : Request) × SpellsRequest request.now r × (length symbols.old ≡ answer_size r) }
        ensures told { (b : Behind) (r : Request) → L.behind (link_of self.old) ≡ Some b
            → SpellsRequest request.now r
            → length symbols.old ≡ answer_size r
            → AskedFor r result symbols.new b (L.behind (link_of self.new)) }
        ensures untold { L.behind (link_of self.old) ≡ None → L.behind (link_of self.new) ≡ None }
        ensures ok { IsSome result → broken_of self.new ≡ broken_of self.old }
        ensures was { broken_of self.old ≡ true → result ≡ None }
        ensures broke { result ≡ None → broken_of self.new ≡ true }
        ensures link_fault { L.faults (link_of self.old) < L.faults (link_of self.new) → result ≡ None }
        ensures store_faults { link_store_faults self.new ≡ link_store_faults self.old }
        ensures other_faults { link_other_faults self.new ≡ link_other_faults self.old }
        ensures fetches { link_fetches self.new ≡ link_fetches self.old }
        ensures calls { link_calls self.new ≡ link_calls self.old }
    {
        if self.broken {
            return None;
        }
        let answer = ask_link(&mut self.link, request, symbols);
        if answer.is_none() {
            self.broken = true;
        }
        answer
    }
}
