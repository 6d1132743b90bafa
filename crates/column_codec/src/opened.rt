ghost use Rattle.std.specs.Prelude.{◌≡◌, ◌<◌, ℕ, [], length, slice_index_or};

use crate::block::Block;
use crate::keys::ObjectKeys;

/// The blocks of a stripe of an object, one of each provider, and which of them were opened.
#[derive(Clone, Copy)]
pub(crate) struct Opened<'a> {
    pub(crate) keys: &'a ObjectKeys,
    pub(crate) marks: &'a [bool; 16],
    pub(crate) blocks: &'a [Block],
    pub ghost blocks_fit: { length blocks.now ≡ keys.now.file.shape.n },
    pub ghost sizes_fit: { (j : ℕ) → j < length blocks.now
        → length (slice_index_or blocks.now j []) ≡ keys.now.file.profile.size },
}
