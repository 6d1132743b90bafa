ghost use Rattle.std.specs.Prelude.{◌≡◌, length};
ghost use Rattle.code_defs.specs.Profiles.{profiles, all_profiles};

/// How many profiles there are: their numbers are those below.
pub const PROFILES: u8 = 5;

/// The table has as many rows as are counted, here and in the definitions.
pub fn profiles_are_counted()
    ensures table { length profiles ≡ all_profiles }
    ensures constant { PROFILES ≡ all_profiles }
{}
