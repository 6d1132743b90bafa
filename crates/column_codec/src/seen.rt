ghost use Rattle.std.specs.Prelude.{◌≡◌, ◌*◌, length};

use crate::coder::StripeCoder;
use hail_field::Symbol;

/// The blocks that were seen of a stripe, which lie one after the other, one a provider, each with a flag
/// whether it is present, and what they are opened with. What lies in the place of an absent one does not
/// count.
#[derive(Clone, Copy)]
pub struct SeenStripe<'a, 'b> {
    pub coder: StripeCoder<'a>,
    pub symbols: &'b [Symbol],
    pub present: &'b [bool],
    pub ghost symbols_fit: { length symbols.now
        ≡ coder.keys.now.file.shape.n * coder.keys.now.file.profile.size },
    pub ghost present_fits: { length present.now ≡ coder.keys.now.file.shape.n },
}
