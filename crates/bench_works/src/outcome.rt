use column_codec::Decoded;

/// What a piece of work came to.
#[derive(Clone, Copy)]
pub struct Outcome {
    /// How many answers were computed.
    pub count: u32,
    /// A number that depends on each answer, and not on the machine.
    pub checksum: u128,
    /// How much was decoded since guesses at it failed, in works on stripes that are opened.
    pub decoded: Decoded,
}

/// Nothing was decoded.
pub const NOTHING: Decoded = Decoded { blocks: 0, rows: 0 };

impl Outcome {
    /// How many answers came in a second, if all came in these nanoseconds; none count as one.
    pub fn rate(&self, nanos: u128) -> u128 {
        u128::from(self.count) * 1_000_000_000 / nanos.max(1)
    }
}
