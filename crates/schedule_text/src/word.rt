// Takes the words of a line from its front.
ghost use Rattle.std.specs.Prelude.{◌≡◌, ◌≢◌, ◌⊎◌, length, slice_index, IfErr};
ghost use Rattle.schedule_text.specs.Grammar.{words};
ghost use Rattle.schedule_text.specs.Events.{event_command};
ghost use Rattle.schedule_text.specs.Reading.{Gives, word_at, only_command};

use crate::event::Event;
use crate::fault::LineFault;
use memchr::memchr;

/// What is left of a line once the spaces at its front are taken.
pub(crate) fn without_spaces(line: &[u8]) -> &[u8]
    ensures same { words result.now ≡ words line.now }
    ensures front { (length result.now ≡ 0) ⊎ (slice_index result.now 0 ≢ 32) }
{
    let mut left = line;
    while let [b' ', behind @ ..] = left {
        left = behind;
    }
    left
}

/// The first word that is left of a line, and what is left behind it.
pub(crate) fn take_word(line: &[u8]) -> Result<(&[u8], &[u8]), LineFault>
    ensures read { Gives (λ x. (x.0.now, words x.1.now)) result (word_at (words line.now)) }
    ensures bad { IfErr result (λ fault. fault ≡ LineFault.Bad) }
{
    let left = without_spaces(line);
    if left.is_empty() {
        return Err(LineFault::Bad);
    }
    match memchr(b' ', left) {
        Some(end) => Ok((&left[..end], &left[end..])),
        None => Ok((left, &[])),
    }
}

/// The event, where no word is left behind it.
pub(crate) fn ended(event: Event, line: &[u8]) -> Result<Event, LineFault>
    ensures read { Gives event_command result (only_command (event_command event) (words line.now)) }
    ensures bad { IfErr result (λ fault. fault ≡ LineFault.Bad) }
{
    if without_spaces(line).is_empty() {
        Ok(event)
    } else {
        Err(LineFault::Bad)
    }
}
