// Sends a request over a link, and receives its answer.
ghost use Rattle.std.specs.Prelude.{◌≡◌, ◌≢◌, ◌<◌, ◌≤◌, ◌++◌, ◌∷◌, ℕ, List, true, false, Some, None, [], length};
ghost use Rattle.wire_defs.specs.Requests.{Request, SpellsRequest};
ghost use Rattle.wire_defs.specs.Links.{Behind};
ghost use Rattle.provider_wire.specs.Linked.{AskedFor, answer_size};

use crate::link::Link;

/// An answer with symbols behind it, or none where there are none to come.
pub const DONE: u8 = 1;

/// Fills `out`, and tells whether that many bytes came.
fn receive_all<L: Link>(link: &mut L, out: &mut [u8]) -> bool
    ensures told { (b : Behind) → L.behind link.old ≡ Some b → length out.old ≤ length b.due → (result ≡ true)
        × ((rest : List ℕ) × (b.due ≡ out.new ++ rest)
        × (L.behind link.new ≡ Some (record b { due = rest }))) }
    ensures untold { L.behind link.old ≡ None → L.behind link.new ≡ None }
    ensures link_fault { L.faults link.old < L.faults link.new → result ≡ false }
{
    let mut at = 0;
    while at < out.len() {
        match link.receive(&mut out[at..]) {
            Ok(0) => return false,
            Ok(count) => at += count,
            Err(_) => return false,
        }
    }
    true
}

/// Receives one byte; None where it did not come.
fn receive_kind<L: Link>(link: &mut L) -> Option<u8>
    ensures told { (b : Behind) (kind : ℕ) (tail : List ℕ) → L.behind link.old ≡ Some b → b.due ≡ kind ∷ tail
        → (result ≡ Some kind) × (L.behind link.new ≡ Some (record b { due = tail })) }
    ensures untold { L.behind link.old ≡ None → L.behind link.new ≡ None }
    ensures link_fault { L.faults link.old < L.faults link.new → result ≡ None }
{
    let mut kind = [0u8];
    if receive_all(link, &mut kind) {
        Some(kind[0])
    } else {
        None
    }
}

/// Receives an answer: its first byte, and behind a 1 the bytes of symbols, for which there is room.
fn receive_answer<L: Link>(link: &mut L, symbols: &mut [u8]) -> Option<u8>
    ensures told { (b : Behind) (kind : ℕ) (tail : List ℕ) → L.behind link.old ≡ Some b → b.due ≡ kind ∷ tail
        → (kind ≡ 1 → length tail ≡ length symbols.old) → (kind ≢ 1 → tail ≡ [])
        → (result ≡ Some kind) × (L.behind link.new ≡ Some (record b { due = [] }))
        × (kind ≡ 1 → symbols.new ≡ tail) }
    ensures untold { L.behind link.old ≡ None → L.behind link.new ≡ None }
    ensures link_fault { L.faults link.old < L.faults link.new → result ≡ None }
{
    let kind = receive_kind(link)?;
    if kind != DONE {
        return Some(kind);
    }
    if receive_all(link, symbols) {
        Some(kind)
    } else {
        None
    }
}

/// Sends a request and receives its answer: its first byte, and behind a 1 the bytes of so many symbols as
/// there is room for. None where a call of the link failed, or the answer ended early.
pub fn ask_link<L: Link>(link: &mut L, request: &[u8], symbols: &mut [u8]) -> Option<u8>
    ensures told { (b : Behind) (r : Request) → L.behind link.old ≡ Some b → b.due ≡ []
        → SpellsRequest request.now r
        → length symbols.old ≡ answer_size r → AskedFor r result symbols.new b (L.behind link.new) }
    ensures untold { L.behind link.old ≡ None → L.behind link.new ≡ None }
    ensures link_fault { L.faults link.old < L.faults link.new → result ≡ None }
{
    match link.send(request) {
        Ok(()) => receive_answer(link, symbols),
        Err(_) => None,
    }
}
