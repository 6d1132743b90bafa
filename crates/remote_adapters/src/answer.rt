// The answers that come over a link.
ghost use Rattle.std.specs.Prelude.{◌≡◌, ◌≢◌, ◌≤◌, ◌+◌, ◌++◌, ◌∷◌, [], length, take, drop, false, IfOk, OnOk, IsTrue};
ghost use Rattle.std.specs.List.{All};
ghost use Rattle.remote_adapters.specs.Yes.{HearsEach};

use provider_wire::Link;
use std::marker::Model;
use stream_model::Failed;

/// A call is done, and behind it stand the symbols that it gives.
pub const DONE: u8 = 1;

/// A call failed.
const FAILED: u8 = 2;

/// So many answers of one byte are read at a time.
const ROOM: usize = 256;

/// The bytes of one answer, of which there is room for the longest: a byte and 128 symbols. Contracts see
/// their list.
#[derive(Drop)]
pub struct Answer {
    bytes: [u8; 2049],
    len: usize,
}

impl Model for Answer {
    ghost use Rattle.std.specs.Prelude.{◌≤◌, List, ℕ, take};

    ghost Value = { List ℕ };

    ghost view = { λ answer. take answer.len answer.bytes };

    ghost invariant = { λ answer. answer.len ≤ 2049 };
}

impl Answer {
    /// An answer of this one byte.
    pub fn of(kind: u8) -> Answer
        ensures { result ≡ kind ∷ [] }
    {
        let mut bytes = [0; 2049];
        bytes[0] = kind;
        Answer { bytes, len: 1 }
    }

    /// The bytes.
    pub fn as_slice(&self) -> &[u8]
        ensures { result.now ≡ self.now }
    {
        &self.bytes[..self.len]
    }
}

/// Fills `out`.
fn receive_all<L: Link>(link: &mut L, out: &mut [u8]) -> Result<(), Failed> {
    let mut at = 0;
    while at < out.len() {
        let count = link.receive(&mut out[at..])?;
        if count == 0 {
            return Err(Failed);
        }
        at += count;
    }
    Ok(())
}

/// Receives an answer: its first byte, and behind a 1 so many more.
pub fn receive_answer<L: Link>(link: &mut L, tail: usize) -> Result<Answer, Failed>
    requires { tail ≤ 2048 }
{
    let mut bytes = [0; 2049];
    receive_all(link, &mut bytes[..1])?;
    let len = if bytes[0] == DONE { 1 + tail } else { 1 };
    receive_all(link, &mut bytes[1..len])?;
    Ok(Answer { bytes, len })
}

/// Whether these are answers of calls that are done, or, where it may be, of some that failed.
fn are_done(answers: &[u8], may_fail: bool) -> bool
    ensures { IsTrue result → may_fail ≡ false → All (λ answer. answer ≡ 1) answers.now }
{
    answers.iter().all(|answer| *answer == DONE || (may_fail && *answer == FAILED))
}

/// Receives some answers of one byte, at least one and at most as many as there is room for, and tells how
/// many. It fails where one is another than it may be.
fn receive_some<L: Link>(link: &mut L, out: &mut [u8], may_fail: bool) -> Result<usize, Failed>
    ensures some { IfOk result (λ n. 1 ≤ n) }
    ensures few { IfOk result (λ n. n ≤ length out.old) }
    ensures yes { IfOk result
        (λ n. may_fail ≡ false → HearsEach n (L.behind link.old) (L.behind link.new)) }
{
    let count = link.receive(out)?;
    if count == 0 || !are_done(&out[..count], may_fail) {
        return Err(Failed);
    }
    Ok(count)
}

/// Receives some of so many answers of one byte, at least one, and tells how many. It fails where one is
/// another than it may be.
pub fn receive_done<L: Link>(link: &mut L, due: u32, may_fail: bool) -> Result<u32, Failed>
    requires { 1 ≤ due }
    ensures some { IfOk result (λ n. 1 ≤ n) }
    ensures few { IfOk result (λ n. n ≤ due) }
    ensures yes { IfOk result
        (λ n. may_fail ≡ false → HearsEach n (L.behind link.old) (L.behind link.new)) }
{
    let mut answers = [0; ROOM];
    let most = (due as usize).min(ROOM);
    let count = receive_some(link, &mut answers[..most], may_fail)?;
    Ok(count as u32)
}
