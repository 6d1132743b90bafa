ghost use Rattle.std.specs.Prelude.{◌≡◌, ◌<◌, ◌≤◌, ◌+◌, ◌-◌, ◌++◌, List, ℕ, [], length, take, drop, IfOk, OnErr, IsErr, IfSome};
ghost use Rattle.device_defs.specs.Faults.{HasCause};
ghost use Rattle.device_defs.specs.Told.{then_told};

use std::alloc::Global;
use std::marker::Model;
use stream_model::{Failed, Memory, Source};

/// How many bytes a window has room for.
const ROOM: usize = 65_536;

/// Bytes that were read and wait until their request is whole, seen in contracts as their list. There is room
/// for 65,536 of them, and no call but `new` takes memory.
#[derive(Drop)]
pub struct Window {
    bytes: Vec<u8>,
    len: usize,
}

impl Model for Window {
    ghost use Rattle.std.specs.Prelude.{◌≡◌, ◌≤◌, List, ℕ, take, vec_len};

    ghost Value = { List ℕ };

    ghost view = { λ window. take window.len window.bytes.items };

    ghost invariant = { λ window. (vec_len window.bytes ≡ 65536) × (window.len ≤ 65536) };
}

/// Moves the bytes from `count` to `len` to the front.
fn move_down(bytes: &mut [u8], len: usize, count: usize)
    requires within { len ≤ length bytes.old }
    requires few { count ≤ len }
    ensures { take (len - count) bytes.new ≡ drop count (take len bytes.old) }
{
    bytes[..len].rotate_left(count);
}

/// Reads into the bytes from `len` to `end`.
fn read_behind<S: Source>(
    bytes: &mut [u8],
    len: usize,
    end: usize,
    source: &mut S,
) -> Result<usize, Failed>
    requires within { end ≤ length bytes.old }
    requires room { len ≤ end }
    ensures few { IfOk result (λ n. n ≤ end - len) }
    ensures given { IfOk result (λ n. (part : List ℕ) × (take (len + n) bytes.new ≡ take len bytes.old
        ++ part) × (length part ≡ n)
        × (S.left source.old ≡ then_told part (S.left source.new))) }
    ensures end { IfOk result (λ n. n ≡ 0 → len < end → IfSome (S.left source.old) (λ xs. xs ≡ [])) }
    ensures err { OnErr result (S.left source.new ≡ S.left source.old) }
    ensures same { take len bytes.new ≡ take len bytes.old }
    ensures cause { HasCause (S.faults source.old) (S.faults source.new) (IsErr result) }
{
    source.read(&mut bytes[len..end])
}

impl Window {
    /// No bytes. Want of memory is its one refusal.
    pub fn new(alloc: Global) -> Result<Window, Memory>
        ensures { IfOk result (λ window. window ≡ []) }
    {
        Ok(Window {
            bytes: vec![in alloc; 0u8; ROOM]?,
            len: 0,
        })
    }

    /// The bytes.
    pub fn as_slice(&self) -> &[u8]
        ensures { result.now ≡ self.now }
    {
        &self.bytes[..self.len]
    }

    /// How many bytes there are.
    pub fn len(&self) -> usize
        ensures { result ≡ length self.now }
    {
        self.len
    }

    /// Takes the first bytes away.
    pub fn skip(&mut self, count: usize)
        requires { count ≤ length self.old }
        ensures { self.new ≡ drop count self.old }
    {
        move_down(&mut self.bytes, self.len, count);
        self.len -= count;
    }

    /// Reads some bytes behind the others, at most so many, and tells how many: none only at the end of the
    /// source, or where there is no room.
    pub fn fill<S: Source>(&mut self, most: usize, source: &mut S) -> Result<usize, Failed>
        ensures given { IfOk result (λ n. (part : List ℕ) × (self.new ≡ self.old ++ part)
            × (length part ≡ n) × (n ≤ most)
            × (S.left source.old ≡ then_told part (S.left source.new))) }
        ensures end { IfOk result (λ n. n ≡ 0 → 0 < most → length self.old < 65536 → IfSome
            (S.left source.old) (λ xs. xs ≡ [])) }
        ensures err { OnErr result (S.left source.new ≡ S.left source.old) }
        ensures same { OnErr result (self.new ≡ self.old) }
        ensures cause { HasCause (S.faults source.old) (S.faults source.new) (IsErr result) }
    {
        let end = self.len + most.min(ROOM - self.len);
        match read_behind(&mut self.bytes, self.len, end, source) {
            Ok(count) => {
                self.len += count;
                Ok(count)
            }
            Err(fault) => Err(fault),
        }
    }
}
