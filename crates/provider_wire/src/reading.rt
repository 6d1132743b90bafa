// Reads a request from the front of bytes.
ghost use Rattle.std.specs.Prelude.{◌≡◌, ◌∷◌, ◌≤◌, ◌<◌, false, length, take, IfSome, IfNone};
ghost use Rattle.std.specs.Option.{option_map};
ghost use Rattle.wire_defs.specs.Requests.{SpellsRequest, SpellsNoRequest, is_bad_request};
ghost use Rattle.provider_wire.specs.Asking.{request_of};
ghost use Rattle.provider_wire.specs.Reading.{block_read_at, store_at, fetch_at, ask_at, remove_at, request_at};

use crate::block::Block;
use crate::challenge_bytes::challenge_of;
use crate::fields::{u8_at, u32_at, u64_at};
use crate::request::Request;
use crate::symbol_bytes::SYMBOL_BYTES;

/// A block behind its size.
#[tactic(auto, unfolding(crate::specs::Reading::block_read_at))]
fn block_of(bytes: &[u8]) -> Option<(Block, &[u8])>
    ensures { option_map (λ x. (x.0, x.1.now)) result ≡ block_read_at bytes.now }
{
    let (size, rest) = u8_at(1, 128, bytes)?;
    let size = size as usize;
    let len = SYMBOL_BYTES * size;
    if rest.len() < len {
        return None;
    }
    let (front, rest) = rest.split_at(len);
    Some((Block::of_bytes(size, front), rest))
}

#[tactic(auto, unfolding(crate::specs::Reading::store_at))]
fn store_of(bytes: &[u8]) -> Option<(Request, &[u8])>
    ensures { option_map (λ x. (request_of x.0, x.1.now)) result ≡ store_at bytes.now }
{
    let (object, rest) = u64_at(bytes)?;
    let (stripe, rest) = u32_at(rest)?;
    match block_of(rest) {
        Some((block, rest)) => {
            let store = Request::Store {
                object,
                stripe,
                block,
            };
            Some((store, rest))
        }
        None => None,
    }
}

#[tactic(auto, unfolding(crate::specs::Reading::fetch_at))]
fn fetch_of(bytes: &[u8]) -> Option<(Request, &[u8])>
    ensures { option_map (λ x. (request_of x.0, x.1.now)) result ≡ fetch_at bytes.now }
{
    let (object, rest) = u64_at(bytes)?;
    let (stripe, rest) = u32_at(rest)?;
    let (size, rest) = u8_at(1, 128, rest)?;
    let fetch = Request::Fetch {
        object,
        stripe,
        size,
    };
    Some((fetch, rest))
}

#[tactic(auto, unfolding(crate::specs::Reading::ask_at))]
fn ask_of(bytes: &[u8]) -> Option<(Request, &[u8])>
    ensures { option_map (λ x. (request_of x.0, x.1.now)) result ≡ ask_at bytes.now }
{
    let (object, rest) = u64_at(bytes)?;
    match challenge_of(rest) {
        Some((challenge, rest)) => Some((Request::Ask { object, challenge }, rest)),
        None => None,
    }
}

#[tactic(auto, unfolding(crate::specs::Reading::remove_at))]
fn remove_of(bytes: &[u8]) -> Option<(Request, &[u8])>
    ensures { option_map (λ x. (request_of x.0, x.1.now)) result ≡ remove_at bytes.now }
{
    let (object, rest) = u64_at(bytes)?;
    Some((Request::Remove { object }, rest))
}

/// The request of this kind.
#[tactic(auto, unfolding(crate::specs::Reading::request_at))]
fn request_behind(kind: u8, bytes: &[u8]) -> Option<(Request, &[u8])>
    ensures { option_map (λ x. (request_of x.0, x.1.now)) result ≡ request_at (kind ∷ bytes.now) }
{
    match kind {
        1 => store_of(bytes),
        2 => fetch_of(bytes),
        3 => ask_of(bytes),
        4 => remove_of(bytes),
        _ => None,
    }
}

/// The request at the front of bytes, and what stands behind it.
#[tactic(auto, unfolding(crate::specs::Reading::request_at))]
fn request_in(bytes: &[u8]) -> Option<(Request, &[u8])>
    ensures { option_map (λ x. (request_of x.0, x.1.now)) result ≡ request_at bytes.now }
{
    match bytes {
        [] => None,
        [kind, rest @ ..] => request_behind(*kind, rest),
    }
}

impl Request {
    /// The request at the front of the bytes, and how many bytes it takes; None exactly where none stands
    /// there. Bytes may be any, and what stands behind the request does not count.
    pub fn read(bytes: &[u8]) -> Option<(Request, usize)>
        ensures size { IfSome result (λ x. x.1 ≤ length bytes.now) }
        ensures some { IfSome result (λ x. 0 < x.1) }
        ensures found { IfSome result (λ x. SpellsRequest (take x.1 bytes.now) (request_of x.0)) }
        ensures none { IfNone result (SpellsNoRequest bytes.now) }
        ensures short { IfNone result (is_bad_request bytes.now ≡ false → length bytes.now < 2062) }
    {
        match request_in(bytes) {
            Some((request, rest)) => Some((request, bytes.len() - rest.len())),
            None => None,
        }
    }
}
