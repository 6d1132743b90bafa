// Where a block stands, in the bytes of requests.
ghost use Rattle.std.specs.Prelude.{◌≡◌, ◌≤◌, length, slice_index, IfSome, IsSome};

/// The first bytes of requests.
pub const STORE: u8 = 1;

pub const FETCH: u8 = 2;

pub const ASK: u8 = 3;

pub const REMOVE: u8 = 4;

/// The bytes of a fetch.
pub const FETCH_BYTES: usize = 14;

/// A block: its object, its stripe and its size.
#[derive(Clone, Copy, PartialEq, Eq)]
pub struct Place {
    pub object: u64,
    pub stripe: u32,
    pub size: u8,
}

/// The object of a request, which stands behind its kind.
pub fn object_of(request: &[u8]) -> Option<u64>
    ensures { 9 ≤ length request.now → IsSome result }
{
    match request.get(1..9) {
        Some([a, b, c, d, e, f, g, h]) => {
            Some(u64::from_le_bytes([*a, *b, *c, *d, *e, *f, *g, *h]))
        }
        _ => None,
    }
}

/// The block that a store or a fetch speaks of, whose size is 128 at most.
pub fn place_of(request: &[u8]) -> Option<Place>
    ensures few { IfSome result (λ place. place.size ≤ 128) }
    ensures there { 14 ≤ length request.now → slice_index request.now 13 ≤ 128 → IsSome result }
{
    let object = object_of(request)?;
    match request.get(9..14) {
        Some([a, b, c, d, size]) if *size <= 128 => Some(Place {
            object,
            stripe: u32::from_le_bytes([*a, *b, *c, *d]),
            size: *size,
        }),
        _ => None,
    }
}

/// Writes a fetch of a block.
pub fn put_fetch(place: Place, out: &mut [u8])
    requires { length out.old ≡ 14 }
{
    out[0] = FETCH;
    out[1..9].copy_from_slice(&place.object.to_le_bytes());
    out[9..13].copy_from_slice(&place.stripe.to_le_bytes());
    out[13] = place.size;
}
