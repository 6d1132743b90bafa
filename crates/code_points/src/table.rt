ghost use Rattle.std.specs.Prelude.{◌≡◌, ◌<◌};
ghost use Rattle.code_defs.specs.Points.{upto, multiplier as multiplier_of};

use crate::profile::Profile;
use hail_field::Symbol;

/// The multipliers of profile 0, by place.
const FIRST: [u8; 6] = [3, 3, 2, 2, 1, 1];

/// The inverse of the product, over all other points of the profile, of the point at `place` plus that point.
/// It is a byte.
pub fn byte_multiplier(profile: Profile, place: u32) -> u8
    requires { place < profile.size }
    ensures { result ≡ multiplier_of place (upto profile.size) }
{
    if profile.number == 0 {
        FIRST[place as usize]
    } else {
        1
    }
}

/// The inverse of the product, over all other points of the profile, of the point at `place` plus that point.
pub fn multiplier(profile: Profile, place: u32) -> Symbol
    requires { place < profile.size }
    ensures { result ≡ multiplier_of place (upto profile.size) }
{
    Symbol(u128::from(byte_multiplier(profile, place)))
}
