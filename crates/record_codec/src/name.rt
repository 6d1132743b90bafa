ghost use Rattle.std.specs.Prelude.{◌≡◌, ◌≤◌, ◌++◌, length, drop, IsTrue, Some, None, if◌then◌else◌};
ghost use Rattle.std.specs.List.{list_all};
ghost use Rattle.record_defs.specs.Records.{is_name_byte, is_name};

use std::marker::Model;

/// A name: 1 to 64 bytes, each `A` to `Z`, `a` to `z`, `0` to `9`, `.`, `_` or `-`. The unused bytes are
/// zero.
#[derive(Clone, Copy, Debug, PartialEq, Eq)]
pub struct Name {
    bytes: [u8; 64],
    len: u8,
}

impl Model for Name {
    ghost use Rattle.std.specs.Prelude.{List, ℕ};

    ghost Value = { List ℕ };

    ghost use Rattle.record_codec.specs.NameParts.{bytes_of, IsNameKept, kept, kept-bytes_of};

    ghost view = { bytes_of };

    ghost invariant = { IsNameKept };

    ghost inverse = { kept };

    ghost inverse_ok = { kept-bytes_of };
}

fn is_name_byte(b: u8) -> bool
    ensures { result ≡ is_name_byte b }
{
    matches!(b, b'A'..=b'Z' | b'a'..=b'z' | b'0'..=b'9' | b'.' | b'_' | b'-')
}

fn are_name_bytes(bytes: &[u8]) -> bool
    ensures { result ≡ list_all is_name_byte bytes.now }
{
    bytes.iter().all(|b| is_name_byte(*b))
}

fn is_name(bytes: &[u8]) -> bool
    ensures { result ≡ is_name bytes.now }
{
    !bytes.is_empty() && bytes.len() <= 64 && are_name_bytes(bytes)
}

fn copy_front(all: &mut [u8], bytes: &[u8])
    requires { length bytes.now ≤ length all.old }
    ensures { all.new ≡ bytes.now ++ drop (length bytes.now) all.old }
{
    all[..bytes.len()].copy_from_slice(bytes);
}

impl Name {
    /// The name of these bytes; None exactly where they are no name.
    pub fn new(bytes: &[u8]) -> Option<Name>
        ensures { result ≡ (if is_name bytes.now then Some bytes.now else None) }
    {
        if !is_name(bytes) {
            return None;
        }
        let mut all = [0u8; 64];
        copy_front(&mut all, bytes);
        Some(Name {
            bytes: all,
            len: bytes.len() as u8,
        })
    }

    /// The bytes of the name, 1 to 64 of them.
    pub fn as_bytes(&self) -> &[u8]
        ensures value { result.now ≡ self.now }
        ensures is_name { IsTrue (is_name result.now) }
    {
        &self.bytes[..self.len as usize]
    }
}
