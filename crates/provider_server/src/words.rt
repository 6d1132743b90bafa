ghost use Rattle.std.specs.Prelude.{ℕ, MatchOption};
ghost use Rattle.provider_server.specs.Words.{IsServeForm};

use command_words::read_number;

/// How many providers there are at most.
const MOST_PROVIDERS: u128 = 16;

/// The number of the provider that the words ask to serve, or None where they don't.
pub fn read_serve(words: &[String]) -> Option<u8>
    ensures { MatchOption result ((number : ℕ) → IsServeForm words.now number → ⊥) (IsServeForm words.now) }
{
    match words {
        [word, number] if word.as_str() == "serve" => {
            let number = read_number(number.as_str())?;
            if number < MOST_PROVIDERS {
                Some(number as u8)
            } else {
                None
            }
        }
        _ => None,
    }
}
