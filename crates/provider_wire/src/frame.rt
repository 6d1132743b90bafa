// The bytes of requests.
ghost use Rattle.std.specs.Prelude.{◌≡◌, ◌≤◌, ◌∷◌, length};
ghost use Rattle.std.specs.Int.{w64, to_le_bytes};
ghost use Rattle.challenge.specs.Asked.{asked};
ghost use Rattle.wire_defs.specs.Requests.{Store, Fetch, Ask, Remove, SpellsRequest, place_bytes};

use crate::piece::Piece;
use challenge::Challenge;
use hail_field::Symbol;
use hail_field::laws::symbols_are_numbers;
use stream_model::laws::bytes_are_in_range;

/// A kind and an object.
fn begun(kind: u8, object: u64) -> Piece
    ensures bytes { result ≡ kind ∷ to_le_bytes w64 object }
    ensures size { length result ≡ 9 }
{
    let mut frame = Piece::new();
    frame.push(&[kind]);
    frame.push(&object.to_le_bytes());
    frame
}

/// A kind, an object and a stripe.
fn placed(kind: u8, object: u64, stripe: u32) -> Piece
    ensures bytes { result ≡ kind ∷ place_bytes object stripe }
    ensures size { length result ≡ 13 }
{
    let mut frame = begun(kind, object);
    frame.push(&stripe.to_le_bytes());
    frame
}

/// The bytes of a store.
pub fn store_frame(object: u64, stripe: u32, block: &[Symbol]) -> Piece
    requires some { 1 ≤ length block.now }
    requires few { length block.now ≤ 128 }
    ensures { SpellsRequest result (Store object stripe block.now) }
{
    symbols_are_numbers(block);
    let mut frame = placed(1, object, stripe);
    frame.push(&[block.len() as u8]);
    frame.push_symbols(block);
    frame
}

/// The bytes of a fetch.
pub fn fetch_frame(object: u64, stripe: u32, size: u8) -> Piece
    requires some { 1 ≤ size }
    requires few { size ≤ 128 }
    ensures { SpellsRequest result (Fetch object stripe size) }
{
    let mut frame = placed(2, object, stripe);
    frame.push(&[size]);
    frame
}

/// The bytes of an ask.
pub fn ask_frame(object: u64, challenge: &Challenge) -> Piece
    ensures { SpellsRequest result (Ask object (asked challenge.now)) }
{
    bytes_are_in_range(&challenge.seed);
    let mut frame = begun(3, object);
    frame.push(&challenge.seed);
    frame.push(&challenge.rows.to_le_bytes());
    frame.push(&[challenge.size as u8, challenge.picks as u8]);
    frame
}

/// The bytes of a removal.
pub fn remove_frame(object: u64) -> Piece
    ensures { SpellsRequest result (Remove object) }
{
    begun(4, object)
}
