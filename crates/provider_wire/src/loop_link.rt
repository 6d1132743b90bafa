ghost use Rattle.std.specs.Prelude.{◌≡◌, ◌+◌, ◌-◌, ◌≤◌, ◌++◌, min, length, take, drop, IfOk, IsOk, IfSome, IfNone};
ghost use Rattle.wire_defs.specs.Requests.{Request as Asking, SpellsRequest};
ghost use Rattle.provider_wire.specs.Asking.{request_of};

use crate::answer::answer;
use crate::link::Link;
use crate::piece::Piece;
use crate::request::Request;
use provider_model::Provider;
use stream_model::{Failed, Memory};

/// A link to a provider in the same program, which answers by the step that a server takes. Its calls take no
/// memory but the provider's own. What is no whole request, or is sent while bytes are due, is passed over.
#[derive(Drop)]
pub struct LoopLink<P> {
    pub(crate) provider: P,
    due: Piece,
    given: usize,
    ghost within: { given ≤ length due },
}

/// Copies as many bytes from `at` on as fit or are there, and tells how many.
fn copy_due(bytes: &[u8], at: usize, out: &mut [u8]) -> usize
    requires { at ≤ length bytes.now }
    ensures as_many { result ≡ min (length out.old) (length bytes.now - at) }
    ensures given { drop at bytes.now ≡ take result out.new ++ drop (at + result) bytes.now }
{
    let n = out.len().min(bytes.len() - at);
    out[..n].copy_from_slice(&bytes[at..at + n]);
    n
}

/// The request that the bytes are, whole.
fn whole(bytes: &[u8]) -> Option<Request>
    ensures found { IfSome result (λ request. SpellsRequest bytes.now (request_of request)) }
    ensures none { IfNone result ((r : Asking) → SpellsRequest bytes.now r → ⊥) }
{
    let (request, size) = Request::read(bytes)?;
    if size == bytes.len() {
        Some(request)
    } else {
        None
    }
}

impl<P: Provider> LoopLink<P> {
    ghost use Rattle.std.specs.Prelude.{◌≡◌, IfOk, option_map};
    ghost use Rattle.device_defs.specs.Providers.{Held};
    ghost use Rattle.provider_wire.specs.Loops.{behind_loop, idle};

    /// A link to this provider, with nothing due.
    pub fn new(provider: P) -> Result<LoopLink<P>, Memory>
        ensures { IfOk result (λ link. behind_loop P.held P.store_faults P.other_faults P.fetches link
            ≡ option_map (idle (P.store_faults provider) (P.other_faults provider) (P.fetches provider))
            (P.held provider)) }
    {
        Ok(LoopLink {
            provider,
            due: Piece::new(),
            given: 0,
        })
    }
}

impl<P: Provider> Link for LoopLink<P> {
    ghost use Rattle.provider_wire.specs.Loops.{behind_loop};

    ghost behind = { λ link. behind_loop P.held P.store_faults P.other_faults P.fetches link };

    ghost faults = { λ _. 0 };

    fn send(&mut self, bytes: &[u8]) -> Result<(), Failed> {
        if self.given < self.due.len() {
            return Ok(());
        }
        if let Some(request) = whole(bytes) {
            self.due = answer(&mut self.provider, &request);
            self.given = 0;
        }
        Ok(())
    }

    fn receive(&mut self, out: &mut [u8]) -> Result<usize, Failed> {
        let count = copy_due(self.due.as_slice(), self.given, out);
        self.given += count;
        Ok(count)
    }
}
