// Serves the requests of a source.
ghost use Rattle.std.specs.Prelude.{◌≡◌, ◌≤◌, ◌<◌, ◌-◌, ℕ, [], false, length, take, drop, IfOk, IfErr, IsErrOf};
ghost use Rattle.stream_model.specs.declared.fault.WriteFault.TheVariants as write_fault;
ghost use Rattle.device_defs.specs.Faults.{HasCause};
ghost use Rattle.wire_defs.specs.Requests.{SpellsNoRequest, is_bad_request};
ghost use Rattle.wire_defs.specs.Serving.{ServesAll, ServesPart, HasServed};
ghost use Rattle.provider_model.specs.Seen.{provider_seen};
ghost use Rattle.provider_wire.specs.Ends.{end_of, end_after};
ghost use Rattle.provider_wire.specs.declared.end.ServeEnd.TheVariants as serve_end;

use crate::answer::answer;
use crate::bad::is_bad;
use crate::end::ServeEnd;
use crate::request::Request;
use crate::window::Window;
use provider_model::Provider;
use std::alloc::Global;
use stream_model::{Sink, Source, WriteFault, write_all};

/// How many bytes of requests are served at most.
const MOST: usize = 1 << 24;

/// Answers the whole requests at the front of the bytes, and tells how many bytes these are.
fn serve_front<P: Provider, K: Sink>(
    provider: &mut P,
    sink: &mut K,
    bytes: &[u8],
) -> Result<usize, WriteFault>
    ensures within { IfOk result (λ n. n ≤ length bytes.now) }
    ensures ok { IfOk result (λ n. ServesAll (take n bytes.now) (provider_seen P.Provider provider.old)
        (provider_seen P.Provider provider.new) (K.written sink.old) (K.written sink.new)) }
    ensures none { IfOk result (λ n. SpellsNoRequest (drop n bytes.now)) }
    ensures short { IfOk result (λ n. is_bad_request (drop n bytes.now) ≡ false → length bytes.now - n
        < 2062) }
    ensures err { IfErr result (λ _. (n : ℕ) × (n ≤ length bytes.now)
        × ServesPart (take n bytes.now) (provider_seen P.Provider provider.old)
        (provider_seen P.Provider provider.new) (K.written sink.old) (K.written sink.new)) }
    ensures cause { HasCause (K.faults sink.old) (K.faults sink.new) (IsErrOf result write_fault.Failed) }
{
    let mut at = 0;
    while let Some((request, size)) = Request::read(&bytes[at..]) {
        let answer = answer(provider, &request);
        let bytes = answer.as_slice();
        write_all(sink, bytes)?;
        at += size;
    }
    Ok(at)
}

/// What a server says after a write that failed, or found no memory.
fn fault_end(fault: WriteFault) -> ServeEnd
    ensures { result ≡ end_after fault }
{
    match fault {
        WriteFault::Failed => ServeEnd::SinkFault,
        WriteFault::Memory => ServeEnd::Memory,
    }
}

/// Serves the requests of a source, with a window that holds none yet.
fn serve_all<P: Provider, S: Source, K: Sink>(
    window: &mut Window,
    provider: &mut P,
    source: &mut S,
    sink: &mut K,
) -> ServeEnd
    requires { window.old ≡ [] }
    ensures served { HasServed (end_of result) (S.left source.old) (S.left source.new)
        (provider_seen P.Provider provider.old) (provider_seen P.Provider provider.new)
        (K.written sink.old) (K.written sink.new) }
    ensures source { HasCause (S.faults source.old) (S.faults source.new) (result ≡ serve_end.SourceFault) }
    ensures sink { HasCause (K.faults sink.old) (K.faults sink.new) (result ≡ serve_end.SinkFault) }
{
    let mut taken = 0;
    loop {
        let count = match window.fill(MOST + 1 - taken, source) {
            Ok(count) => count,
            Err(_) => return ServeEnd::SourceFault,
        };
        let waiting = window.len();
        if count == 0 {
            if waiting == 0 {
                return ServeEnd::Done;
            }
            return ServeEnd::BadFrame {
                at: (taken - waiting) as u64,
            };
        }
        taken += count;
        let within = waiting - taken.saturating_sub(MOST);
        let bytes = &window.as_slice()[..within];
        let done = match serve_front(provider, sink, bytes) {
            Ok(done) => done,
            Err(fault) => return fault_end(fault),
        };
        if is_bad(&bytes[done..]) {
            return ServeEnd::BadFrame {
                at: (taken - (waiting - done)) as u64,
            };
        }
        if taken > MOST {
            return ServeEnd::TooLong;
        }
        window.skip(done);
    }
}

/// Serves the requests of a source with a provider, and writes the answer to each as soon as the request is
/// whole, in the order of the requests. At most 2^24 bytes of requests are served. Memory is taken before
/// anything is read, and by the sink.
pub fn serve<P: Provider, S: Source, K: Sink>(
    alloc: Global,
    provider: &mut P,
    source: &mut S,
    sink: &mut K,
) -> ServeEnd
    ensures served { HasServed (end_of result) (S.left source.old) (S.left source.new)
        (provider_seen P.Provider provider.old) (provider_seen P.Provider provider.new)
        (K.written sink.old) (K.written sink.new) }
    ensures source { HasCause (S.faults source.old) (S.faults source.new) (result ≡ serve_end.SourceFault) }
    ensures sink { HasCause (K.faults sink.old) (K.faults sink.new) (result ≡ serve_end.SinkFault) }
{
    match Window::new(alloc) {
        Ok(mut window) => serve_all(&mut window, provider, source, sink),
        Err(_) => ServeEnd::Memory,
    }
}
