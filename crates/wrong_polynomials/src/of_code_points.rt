//! Bodies of code_points' public functions, for its must-fail edits to spoil.
ghost use Rattle.std.specs.Prelude.{◌≡◌, ◌<◌, ◌≤◌, ◌↔◌, length, IsSome};
ghost use Rattle.code_defs.specs.Points.{upto, multiplier as multiplier_of};
ghost use Rattle.code_defs.specs.ServerCode.{IsGeneratorRow};
ghost use Rattle.code_defs.specs.Profiles.{all_profiles};
ghost use Rattle.code_points.specs.Profile.{plain_profile};

use code_points::Profile;
use hail_field::Symbol;

/// `find_profile`.
pub fn find_profile(number: u8) -> Option<Profile>
    ensures known { IsSome result ↔ (number < all_profiles) }
{
    code_points::find_profile(number)
}

/// `generator_row`.
pub fn generator_row(profile: Profile, place: u32, out: &mut [Symbol])
    requires place { place < profile.size }
    requires out { length out.old ≡ profile.keep }
    ensures row { IsGeneratorRow (plain_profile profile) place out.new }
{
    code_points::generator_row(profile, place, out);
}

/// `multiplier`.
pub fn multiplier(profile: Profile, place: u32) -> Symbol
    requires { place < profile.size }
    ensures { result ≡ multiplier_of place (upto profile.size) }
{
    code_points::multiplier(profile, place)
}
