ghost use Rattle.std.specs.Prelude.{◌≤◌, ◌^◌};

/// A challenge to a file of `rows` rows, of which it picks `picks`, in blocks of `size` symbols. Its picks
/// and weights are words of stream 0 of ChaCha20 (RFC 8439) under its seed.
#[derive(Clone, Copy, Debug, PartialEq, Eq)]
pub struct Challenge {
    pub seed: [u8; 32],
    pub rows: u64,
    pub size: u32,
    pub picks: u32,
    ghost some_rows: { 1 ≤ rows },
    ghost few_rows: { rows ≤ 2 ^ 32 },
    ghost some_size: { 1 ≤ size },
    ghost small_size: { size ≤ 128 },
    ghost some_picks: { 1 ≤ picks },
    ghost few_picks: { picks ≤ 64 },
}
