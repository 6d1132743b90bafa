// Reads the master key.
ghost use Rattle.std.specs.Prelude.{◌↔◌, ℕ, List, IsTrue, MatchOption};
ghost use Rattle.command_defs.specs.Keys.{IsKeyForm, IsLineEnd};

use key_schedule::Master;

/// How many hexadecimal digits spell a master key.
const DIGITS: usize = 64;

/// Whether it is nothing, a newline, or a carriage return and a newline.
fn is_line_end(behind: &[u8]) -> bool
    ensures { IsTrue result ↔ IsLineEnd behind.now }
{
    matches!(behind, [] | [b'\n'] | [b'\r', b'\n'])
}

/// The master key that the text spells: 64 hexadecimal digits of either case, then nothing, a newline, or a
/// carriage return and a newline; `None` where the text is anything else.
pub fn read_key(text: &[u8]) -> Option<Master>
    ensures { MatchOption result
        ((key : List ℕ) → IsKeyForm text.now key → ⊥)
        (λ master. IsKeyForm text.now master.0) }
{
    let (digits, behind) = text.split_at_checked(DIGITS)?;
    if !is_line_end(behind) {
        return None;
    }
    Master::from_hex(digits)
}
