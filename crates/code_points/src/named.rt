// The profile that a number names.
ghost use Rattle.std.specs.Prelude.{◌≡◌};
ghost use Rattle.code_defs.specs.Profiles.{profile_of, is_unknown};
ghost use Rattle.code_points.specs.Profile.{plain_profile};

use crate::profile::{Profile, find_profile};
use code_defs::PROFILES;

/// The profile of a number; the last one of a greater number.
pub fn profile_at(number: u8) -> Profile
    ensures { plain_profile result ≡ profile_of number }
{
    match find_profile(number.min(PROFILES - 1)) {
        Some(profile) => profile,
        None => unreachable!(),
    }
}

/// A number is named, and no profile has it.
pub fn is_unknown(named: Option<u8>) -> bool
    ensures { result ≡ is_unknown named }
{
    match named {
        Some(number) => number >= PROFILES,
        None => false,
    }
}
