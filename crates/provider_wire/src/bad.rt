ghost use Rattle.std.specs.Prelude.{◌≡◌, ◌^◌, ◌∷◌};
ghost use Rattle.wire_defs.specs.Requests.{is_bad_request, misses, number_misses};

/// Whether the byte at a place is there, and not from `low` to `high`.
fn misses(place: usize, low: u8, high: u8, bytes: &[u8]) -> bool
    ensures { result ≡ misses place low high bytes.now }
{
    place < bytes.len() && !(low <= bytes[place] && bytes[place] <= high)
}

/// Whether the rows of an ask are there, and not 1 to 2^32.
fn rows_miss(bytes: &[u8]) -> bool
    ensures { result ≡ number_misses 40 1 (2 ^ 32) bytes.now }
{
    match bytes.get(40..48) {
        Some([a, b, c, d, e, f, g, h]) => {
            let rows = u64::from_le_bytes([*a, *b, *c, *d, *e, *f, *g, *h]);
            !(1 <= rows && rows <= 1 << 32)
        }
        _ => false,
    }
}

/// Whether these bytes, behind their kind, begin no request.
fn is_bad_behind(kind: u8, rest: &[u8]) -> bool
    ensures { result ≡ is_bad_request (kind ∷ rest.now) }
{
    match kind {
        1 | 2 => misses(12, 1, 128, rest),
        3 => rows_miss(rest) || misses(48, 1, 128, rest) || misses(49, 1, 64, rest),
        4 => false,
        _ => true,
    }
}

/// Whether bytes begin no request, whatever comes behind them: they have no kind of request, or a field that
/// stands whole in them is out of its limits.
pub fn is_bad(bytes: &[u8]) -> bool
    ensures { result ≡ is_bad_request bytes.now }
{
    match bytes {
        [] => false,
        [kind, rest @ ..] => is_bad_behind(*kind, rest),
    }
}
