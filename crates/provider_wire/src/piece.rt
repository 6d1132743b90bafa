ghost use Rattle.std.specs.Prelude.{◌≡◌, ◌+◌, ◌*◌, ◌≤◌, ◌++◌, [], length, take};
ghost use Rattle.column_defs.specs.Objects.{bytes_of_symbols};

use hail_field::Symbol;
use std::marker::Model;

/// The bytes of the longest request: its kind, 8 bytes of object, 4 of stripe, the size and 128 symbols.
pub const LONGEST: usize = 2062;

/// Bytes of a request or an answer, of which there is room for those of the longest request. Contracts see
/// their list.
#[derive(Drop)]
pub struct Piece {
    bytes: [u8; 2062],
    len: usize,
}

impl Model for Piece {
    ghost use Rattle.std.specs.Prelude.{◌≤◌, List, ℕ, take};

    ghost Value = { List ℕ };

    ghost view = { λ piece. take piece.len piece.bytes };

    ghost invariant = { λ piece. piece.len ≤ 2062 };
}

/// Writes bytes behind what was written, and tells where they end.
fn put(out: &mut [u8], at: usize, bytes: &[u8]) -> usize
    requires { at + length bytes.now ≤ length out.old }
    ensures at { result ≡ at + length bytes.now }
    ensures front { take result out.new ≡ take at out.old ++ bytes.now }
{
    let end = at + bytes.len();
    out[at..end].copy_from_slice(bytes);
    end
}

impl Piece {
    /// No bytes.
    pub fn new() -> Piece
        ensures { result ≡ [] }
    {
        Piece {
            bytes: [0; 2062],
            len: 0,
        }
    }

    /// How many bytes there are.
    pub fn len(&self) -> usize
        ensures { result ≡ length self.now }
    {
        self.len
    }

    /// Puts bytes behind the others.
    pub fn push(&mut self, bytes: &[u8])
        requires { length self.old + length bytes.now ≤ 2062 }
        ensures { self.new ≡ self.old ++ bytes.now }
    {
        self.len = put(&mut self.bytes, self.len, bytes);
    }

    /// Puts the bytes of symbols behind the others, 16 a symbol.
    pub fn push_symbols(&mut self, symbols: &[Symbol])
        requires { length self.old + 16 * length symbols.now ≤ 2062 }
        ensures { self.new ≡ self.old ++ bytes_of_symbols symbols.now }
    {
        for symbol in symbols {
            self.push(&symbol.to_bytes());
        }
    }

    /// The bytes.
    pub fn as_slice(&self) -> &[u8]
        ensures { result.now ≡ self.now }
    {
        &self.bytes[..self.len]
    }
}
