use crate::cursor::{Cursor, Item};
use column_codec::{Bench, Codec};
use key_schedule::Master;
use stripe_bench::Blocks;

/// What a scrub has found: the stripes that were opened, and of each provider how many symbols and how many
/// blocks differed.
#[derive(Clone, Copy)]
pub struct Found {
    pub stripes: u64,
    pub symbols: [u64; 16],
    pub blocks: [u64; 16],
}

/// A scrub under way: its files and their benches, the blocks that are fetched of the stripe in work, what it
/// does next, how many symbols of each provider's block differ in the stripe that was opened last, what it has
/// found, and how many steps it may still make.
#[derive(Drop)]
pub struct Progress {
    pub master: Master,
    pub providers: u32,
    pub items: Vec<Item>,
    pub benches: Vec<Bench>,
    pub codec: Codec,
    pub blocks: Blocks,
    pub cursor: Cursor,
    pub off: [u64; 16],
    pub found: Found,
    pub left: u64,
}
