// The words of the commands that carry a schedule out.
ghost use Rattle.std.specs.Prelude.{ℕ, ◌<◌, ◌^◌, MatchOption};
ghost use Rattle.command_defs.specs.Words.{IsNumberWord};
ghost use Rattle.hail_replay.specs.Forms.{IsFormOf};
ghost use Rattle.hail_replay.specs.declared.forms.Form.{Form as FormOf};

use command_words::read_number;

/// A command that carries a schedule out.
#[derive(Clone, Copy)]
pub enum Form {
    /// The schedule that the source gives.
    Replay,
    /// The trial of a number.
    Trial(u64),
}

/// The number of a trial that a word spells, or None where it spells none.
fn read_seed(word: &str) -> Option<u64>
    ensures { MatchOption result ((number : ℕ) → IsNumberWord word.now number → number < 2 ^ 64 → ⊥)
        (λ number. IsNumberWord word.now number × (number < 2 ^ 64)) }
{
    let number = read_number(word)?;
    u64::try_from(number).ok()
}

/// The command that the words spell, or None where they spell neither.
pub fn read_form(words: &[String]) -> Option<Form>
    ensures { MatchOption result ((form : FormOf) → IsFormOf words.now form → ⊥) (IsFormOf words.now) }
{
    match words {
        [word] if word.as_str() == "replay" => Some(Form::Replay),
        [word, number] if word.as_str() == "trial" => {
            let number = read_seed(number.as_str())?;
            Some(Form::Trial(number))
        }
        _ => None,
    }
}
