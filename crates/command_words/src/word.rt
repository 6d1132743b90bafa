// Reads words, each by itself.
ghost use Rattle.std.specs.Prelude.{ℕ, MatchOption};
ghost use Rattle.command_defs.specs.Words.{IsNumberWord, IsSymbolWord};

use hail_field::Symbol;

/// The number that the word spells.
pub fn read_number(word: &str) -> Option<u128>
    ensures { MatchOption result ((number : ℕ) → IsNumberWord word.now number → ⊥) (IsNumberWord word.now) }
{
    let text = word.as_bytes();
    if text.is_empty() || text[0] == b'+' || (text[0] == b'0' && text.len() > 1) {
        return None;
    }
    word.parse().ok()
}

/// The numbers that three words spell, or `None` where one of them spells none.
pub(crate) fn read_three(first: &str, second: &str, third: &str) -> Option<(u128, u128, u128)>
    ensures { MatchOption result
        ((a b c : ℕ) → IsNumberWord first.now a → IsNumberWord second.now b → IsNumberWord third.now c → ⊥)
        (λ numbers. IsNumberWord first.now numbers.0 × IsNumberWord second.now numbers.1
        × IsNumberWord third.now numbers.2) }
{
    Some((
        read_number(first)?,
        read_number(second)?,
        read_number(third)?,
    ))
}

/// The symbol that the word spells, or that it is absent.
pub fn read_symbol(word: &str) -> Option<Option<Symbol>>
    ensures { MatchOption result ((symbol : _) → IsSymbolWord word.now symbol → ⊥) (IsSymbolWord word.now) }
{
    if word == "-" {
        return Some(None);
    }
    Some(Some(Symbol(read_number(word)?)))
}
