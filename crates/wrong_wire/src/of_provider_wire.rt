//! Bodies of provider_wire's public functions, for its must-fail edits to spoil.
ghost use Rattle.std.specs.Prelude.{◌≡◌, ◌≤◌, length, take, IfSome, IfNone, IsErr, IsErrOf};
ghost use Rattle.provider_model.specs.declared.fault.StoreFault.TheVariants as store_fault;
ghost use Rattle.device_defs.specs.Faults.{one_more};
ghost use Rattle.wire_defs.specs.Requests.{SpellsRequest, SpellsNoRequest};
ghost use Rattle.wire_defs.specs.Serving.{HasServed};
ghost use Rattle.provider_model.specs.Seen.{StoresAs, provider_seen};
ghost use Rattle.provider_wire.specs.Asking.{request_of};
ghost use Rattle.provider_wire.specs.Ends.{end_of};
ghost use Rattle.provider_wire.specs.Linked.{seen_behind};
ghost use Rattle.provider_wire.specs.LinkProviders.{CountsFaults, TellsLinkFault, link_of, broken_of, link_store_faults, link_other_faults, link_fetches};

use challenge::Challenge;
use hail_field::Symbol;
use provider_model::{Provider, StoreFault};
use provider_wire::{Link, LinkProvider, Request, ServeEnd};
use std::alloc::Global;
use stream_model::{Failed, Sink, Source};

/// `Request::read`.
pub fn read(bytes: &[u8]) -> Option<(Request, usize)>
    ensures found { IfSome result (λ x. SpellsRequest (take x.1 bytes.now) (request_of x.0)) }
    ensures none { IfNone result (SpellsNoRequest bytes.now) }
{
    Request::read(bytes)
}

/// `serve`.
pub fn serve<P: Provider, S: Source, K: Sink>(
    alloc: Global,
    provider: &mut P,
    source: &mut S,
    sink: &mut K,
) -> ServeEnd
    ensures served { HasServed (end_of result) (S.left source.old) (S.left source.new)
        (provider_seen P.Provider provider.old) (provider_seen P.Provider provider.new)
        (K.written sink.old) (K.written sink.new) }
{
    provider_wire::serve(alloc, provider, source, sink)
}

/// `LinkProvider::broken`.
pub fn broken<L: Link>(remote: &LinkProvider<L>) -> bool
    ensures value { result ≡ broken_of remote.now }
{
    remote.broken()
}

/// `LinkProvider::store`.
pub fn store<L: Link>(
    remote: &mut LinkProvider<L>,
    object: u64,
    stripe: u32,
    block: &[Symbol],
) -> Result<(), StoreFault>
    requires some { 1 ≤ length block.now }
    requires few { length block.now ≤ 128 }
    ensures answered { StoresAs object stripe block.now result
        (seen_behind (L.behind (link_of remote.old)) (link_store_faults remote.old)
        (link_other_faults remote.old) (link_fetches remote.old))
        (seen_behind (L.behind (link_of remote.new)) (link_store_faults remote.new)
        (link_other_faults remote.new) (link_fetches remote.new)) }
    ensures link_fault { TellsLinkFault (L.faults (link_of remote.old)) (L.faults (link_of remote.new))
        (broken_of remote.new) (IsErrOf result store_fault.Failed) }
{
    remote.store(object, stripe, block)
}

/// `LinkProvider::fetch`.
pub fn fetch<L: Link>(
    remote: &mut LinkProvider<L>,
    object: u64,
    stripe: u32,
    out: &mut [Symbol],
) -> Result<bool, Failed>
    requires some { 1 ≤ length out.old }
    requires few { length out.old ≤ 128 }
    ensures counts { CountsFaults (broken_of remote.old) (broken_of remote.new) (IsErr result)
        (link_other_faults remote.old) (link_other_faults remote.new) }
    ensures link_fault { TellsLinkFault (L.faults (link_of remote.old)) (L.faults (link_of remote.new))
        (broken_of remote.new) (IsErr result) }
    ensures fetches { link_fetches remote.new ≡ one_more (link_fetches remote.old) }
{
    remote.fetch(object, stripe, out)
}

/// `LinkProvider::ask`.
pub fn ask<L: Link>(
    remote: &mut LinkProvider<L>,
    object: u64,
    challenge: &Challenge,
) -> Result<Option<Symbol>, Failed>
    ensures counts { CountsFaults (broken_of remote.old) (broken_of remote.new) (IsErr result)
        (link_other_faults remote.old) (link_other_faults remote.new) }
{
    remote.ask(object, challenge)
}

/// `LinkProvider::remove`.
pub fn remove<L: Link>(remote: &mut LinkProvider<L>, object: u64) -> Result<(), Failed>
    ensures counts { CountsFaults (broken_of remote.old) (broken_of remote.new) (IsErr result)
        (link_other_faults remote.old) (link_other_faults remote.new) }
{
    remote.remove(object)
}
