/// A number of rounds for each of `n` providers, at the provider's place. The places from `n` on are 0.
#[derive(Clone, Copy, Debug, PartialEq, Eq)]
pub struct Counts {
    pub n: u8,
    pub by: [u32; 16],
}
