ghost use Rattle.std.specs.Prelude.{◌≡◌, ◌<◌, ◌↔◌, IsSome, IfSome};
ghost use Rattle.code_defs.specs.Profiles.{profile_of, all_profiles};

/// A row of the table of server codes: blocks of `size` symbols, of which the first `keep` are the kept ones,
/// and in which up to `fix` wrong symbols are corrected.
#[derive(Clone, Copy, Debug, PartialEq, Eq)]
pub struct Profile {
    pub number: u8,
    pub size: u32,
    pub keep: u32,
    pub fix: u32,
    ghost known: { number < all_profiles },
    ghost size_is: { size ≡ (profile_of number).size },
    ghost keep_is: { keep ≡ (profile_of number).keep },
    ghost fix_is: { fix ≡ (profile_of number).fix },
}

/// The profile of a number; none where no profile has it.
pub fn find_profile(number: u8) -> Option<Profile>
    ensures known { IsSome result ↔ (number < all_profiles) }
    ensures numbered { IfSome result (λ profile. profile.number ≡ number) }
{
    match number {
        0 => Some(Profile {
            number,
            size: 6,
            keep: 2,
            fix: 2,
        }),
        1 => Some(Profile {
            number,
            size: 16,
            keep: 8,
            fix: 4,
        }),
        2 => Some(Profile {
            number,
            size: 32,
            keep: 24,
            fix: 4,
        }),
        3 => Some(Profile {
            number,
            size: 64,
            keep: 48,
            fix: 8,
        }),
        4 => Some(Profile {
            number,
            size: 128,
            keep: 96,
            fix: 16,
        }),
        _ => None,
    }
}
