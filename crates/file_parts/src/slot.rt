// Where the blocks of an object stand in its file.
//
// The file begins with 16 bytes: `HAILstk1`, and the bytes of a block. Then stand places of equal length, one
// for each stripe: the bytes of its block, and behind them 8 bytes: `hail`, and the stripe. A place with other
// bytes there has no block: so a hole, which reads as zero, has none.
ghost use Rattle.std.specs.Prelude.{◌≡◌, ◌≤◌, ◌<◌, ◌+◌, ◌*◌, ◌++◌, ◌↔◌, Some, length, drop, codes, IfSome, IsTrue};
ghost use Rattle.file_parts.specs.declared.slot.Header.TheVariants as said;
ghost use Rattle.file_parts.specs.Stacks.{place_at, mark_bytes, header_bytes};

use crate::block_bytes::{BLOCK_BYTES, SYMBOL_BYTES};

/// The bytes before the first place.
pub const HEADER_BYTES: usize = 16;

/// The bytes behind a block.
pub const MARK_BYTES: usize = 8;

/// The bytes of the longest place.
pub const PLACE_BYTES: usize = BLOCK_BYTES + MARK_BYTES;

/// Where the place of a stripe begins, in a file of blocks of so many bytes.
pub fn place_of(stripe: u32, size: u16) -> u64
    ensures { result ≡ place_at size stripe }
{
    16 + u64::from(stripe) * (u64::from(size) + 8)
}

/// What stands behind a block of a stripe.
pub fn mark_of(stripe: u32) -> [u8; 8]
    ensures { result ≡ mark_bytes stripe }
{
    let mut mark = *b"hail\0\0\0\0";
    mark[4..].copy_from_slice(&stripe.to_le_bytes());
    mark
}

/// What a file of blocks of so many bytes begins with.
pub fn header_of(size: u16) -> [u8; 16]
    ensures { result ≡ header_bytes size }
{
    let mut header = *b"HAILstk1\0\0\0\0\0\0\0\0";
    header[8..].copy_from_slice(&u64::from(size).to_le_bytes());
    header
}

/// Whether two are the same bytes.
pub fn are_same(some: &[u8], others: &[u8]) -> bool
    ensures { IsTrue result ↔ some.now ≡ others.now }
{
    some == others
}

/// Whether what was read of a stripe's place has its block.
pub fn has_block(place: &[u8], stripe: u32, size: u16) -> bool
    requires { length place.now ≡ size + 8 }
    ensures { IsTrue result ↔ drop size place.now ≡ mark_bytes stripe }
{
    are_same(&place[usize::from(size)..], &mark_of(stripe))
}

/// What the first bytes of a file say of its blocks, where they are looked for with so many bytes.
#[derive(Clone, Copy, PartialEq, Eq)]
pub enum Header {
    /// They have so many.
    Right,
    /// They have another number, of those that a block may have.
    Other,
    /// Nothing.
    Damaged,
}

/// How many bytes a block has by the first bytes of a file; none where these are no header.
pub fn size_in(header: &[u8; 16]) -> Option<u16>
    ensures most { IfSome result (λ size. size ≤ 2048) }
    ensures spelled { IfSome result (λ size. header.now ≡ header_bytes size) }
{
    let size = u16::from_le_bytes([header[8], header[9]]);
    if usize::from(size) > BLOCK_BYTES
        || usize::from(size) % SYMBOL_BYTES != 0
        || !are_same(header, &header_of(size))
    {
        return None;
    }
    Some(size)
}

/// What a header says where blocks of so many bytes are looked for.
pub fn judged(header: &[u8; 16], size: u16) -> Header
    ensures { result ≡ said.Right → header.now ≡ header_bytes size }
{
    match size_in(header) {
        Some(own) if own == size => Header::Right,
        Some(_) => Header::Other,
        None => Header::Damaged,
    }
}
