//! Bodies of command_words's public functions, for its must-fail edits to spoil.
ghost use Rattle.std.specs.Prelude.{◌≡◌, ℕ, true, false, List, [], IfOk, MatchOption};
ghost use Rattle.record_defs.specs.Records.{is_setup};
ghost use Rattle.command_defs.specs.Forms.{IsForm};
ghost use Rattle.command_defs.specs.Inits.{setup_with};
ghost use Rattle.command_defs.specs.Keys.{IsKeyForm};
ghost use Rattle.command_defs.specs.Words.{IsNumberWord};
ghost use Rattle.command_words.specs.Commands.{command_of, numbers_of};

use command_words::{Command, Numbers};
use hail_field::Memory;
use key_schedule::Master;
use record_codec::Setup;
use std::alloc::Global;

/// `read_command`.
pub fn read_command<'a>(alloc: Global, words: &'a [String]) -> Result<Option<Command<'a>>, Memory>
    ensures found { IfOk result (λ found. MatchOption found
        ((command : _) → IsForm words.now command → ⊥)
        (λ command. IsForm words.now (command_of command))) }
{
    command_words::read_command(alloc, words)
}

/// `read_setup`.
pub fn read_setup(numbers: &Numbers) -> Option<Setup>
    ensures found { MatchOption result
        (is_setup (setup_with (numbers_of numbers.now) []) ≡ false)
        (λ setup. is_setup (setup_with (numbers_of numbers.now) []) ≡ true) }
{
    command_words::read_setup(numbers)
}

/// `read_key`.
pub fn read_key(text: &[u8]) -> Option<Master>
    ensures { MatchOption result
        ((key : List ℕ) → IsKeyForm text.now key → ⊥)
        (λ master. IsKeyForm text.now master.0) }
{
    command_words::read_key(text)
}

/// `read_number`.
pub fn read_number(word: &str) -> Option<u128>
    ensures { MatchOption result ((number : ℕ) → IsNumberWord word.now number → ⊥) (IsNumberWord word.now) }
{
    command_words::read_number(word)
}
