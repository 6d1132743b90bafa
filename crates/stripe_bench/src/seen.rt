ghost use Rattle.std.specs.Prelude.{◌≡◌, ◌*◌, take, drop, slice_get};
ghost use Rattle.std.specs.Option.{option_map, option_copied};
ghost use Rattle.stripe_bench.specs.Blocks.{blocks_in};

use crate::blocks::Blocks;
use hail_field::Symbol;

/// The flag at a place.
fn flag_at(flags: &[bool], place: usize) -> Option<bool>
    ensures { result ≡ slice_get flags.now place }
{
    flags.get(place).copied()
}

impl Blocks {
    /// The symbols of the fetch at a place.
    fn part(&self, place: usize) -> &[Symbol]
        ensures { result.now ≡ take self.now.size (drop (place * self.now.size) self.now.symbols.items) }
    {
        let len = self.symbols.len();
        let start = place.saturating_mul(self.size).min(len);
        let end = (start + self.size).min(len);
        &self.symbols[start..end]
    }

    /// What the fetch at a place gave: the block, or none.
    pub fn at(&self, place: usize) -> Option<Option<&[Symbol]>>
        ensures { option_map option_copied result ≡ slice_get (blocks_in self.now) place }
    {
        match flag_at(&self.present, place) {
            Some(true) => Some(Some(self.part(place))),
            Some(false) => Some(None),
            None => None,
        }
    }
}
