// Reads the numbers of the command `init`.
ghost use Rattle.std.specs.Prelude.{◌≡◌, ℕ, true, false, List, [], IfSome, MatchOption};
ghost use Rattle.record_defs.specs.Records.{is_setup};
ghost use Rattle.record_codec.specs.Entries.{with_master};
ghost use Rattle.command_defs.specs.Forms.{IsInitForm};
ghost use Rattle.command_defs.specs.Inits.{setup_with};
ghost use Rattle.command_words.specs.Commands.{numbers_of};

use crate::word::{read_number, read_three};
use record_codec::Setup;

/// The numbers of the command `init`, as its words spell them: they may fit no setup.
#[derive(Clone, Copy, PartialEq, Eq)]
pub struct Numbers {
    pub n: u128,
    pub l: u128,
    pub b: u128,
    pub profile: u128,
    pub rounds: u128,
    pub picks: u128,
    pub tolerance: u128,
}

/// The numbers that the words spell, or `None` where they are no form of the command.
pub fn read_init(words: &[String]) -> Option<Numbers>
    ensures { MatchOption result
        ((numbers : _) → IsInitForm words.now numbers → ⊥)
        (λ numbers. IsInitForm words.now (numbers_of numbers)) }
{
    let [command, n, l, b, profile, rounds, picks, tolerance] = words else {
        return None;
    };
    if command.as_str() != "init" {
        return None;
    }
    let (n, l, b) = read_three(n.as_str(), l.as_str(), b.as_str())?;
    let (profile, rounds, picks) = read_three(profile.as_str(), rounds.as_str(), picks.as_str())?;
    let tolerance = read_number(tolerance.as_str())?;
    Some(Numbers {
        n,
        l,
        b,
        profile,
        rounds,
        picks,
        tolerance,
    })
}

/// The numbers in the fields of a setup, or `None` where one does not fit its field.
fn in_fields(numbers: &Numbers) -> Option<Setup>
    ensures { MatchOption result
        (is_setup (setup_with (numbers_of numbers.now) []) ≡ false)
        (λ setup. (key : List ℕ) → with_master setup key ≡ setup_with (numbers_of numbers.now) key) }
{
    Some(Setup {
        n: u8::try_from(numbers.n).ok()?,
        l: u8::try_from(numbers.l).ok()?,
        b: u8::try_from(numbers.b).ok()?,
        profile: u8::try_from(numbers.profile).ok()?,
        rounds: u8::try_from(numbers.rounds).ok()?,
        picks: u8::try_from(numbers.picks).ok()?,
        tolerance: u16::try_from(numbers.tolerance).ok()?,
    })
}

/// The setup of these numbers, or `None` where they are outside the limits of a setup; one that does not fit
/// its field is.
pub fn read_setup(numbers: &Numbers) -> Option<Setup>
    ensures found { MatchOption result
        (is_setup (setup_with (numbers_of numbers.now) []) ≡ false)
        (λ setup. is_setup (setup_with (numbers_of numbers.now) []) ≡ true) }
    ensures value { IfSome result (λ setup. (key : List ℕ) → with_master setup key ≡ setup_with
        (numbers_of numbers.now) key) }
{
    let setup = in_fields(numbers)?;
    if setup.check() { Some(setup) } else { None }
}
