use crate::block::Block;
use challenge::Challenge;

/// A request to a provider, with an object's number and a stripe's. A block has 1 to 128 symbols.
#[derive(Drop)]
pub enum Request {
    /// Sets one block.
    Store {
        object: u64,
        stripe: u32,
        block: Block,
    },
    /// Asks for a block of so many symbols.
    Fetch {
        object: u64,
        stripe: u32,
        size: u8,
    },
    /// Asks for the answer to a challenge.
    Ask {
        object: u64,
        challenge: Challenge,
    },
    /// Takes away all blocks of an object.
    Remove {
        object: u64,
    },
}
