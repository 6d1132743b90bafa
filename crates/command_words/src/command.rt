// Reads the words of a command line.
ghost use Rattle.std.specs.Prelude.{[], ◌∷◌, IfOk, OnErr, MatchOption};
ghost use Rattle.command_defs.specs.Forms.{IsForm};
ghost use Rattle.command_words.specs.Commands.{command_of, BeginWithRow};

use crate::init::{Numbers, read_init};
use crate::row::{Row, read_row};
use crate::word::read_number;
use hail_field::Memory;
use std::alloc::Global;

/// A command that words spell. A name is the bytes of its word, whatever they are: they may be no name of a
/// file.
#[derive(PartialEq, Eq, Drop)]
pub enum Command<'a> {
    /// `row` with a shape and the symbols that were seen.
    Row(Row),
    /// `init` with the numbers of a setup.
    Init(Numbers),
    /// `put` with a name, and the number of a profile where a word gives one. There may be no profile of this
    /// number.
    Put { name: &'a [u8], profile: Option<u8> },
    /// `get` with a name.
    Get { name: &'a [u8] },
    /// `drop` with a name.
    Drop { name: &'a [u8] },
    /// `list`.
    List,
    /// `audit`.
    Audit,
    /// `repair`.
    Repair,
    /// `upgrade`.
    Upgrade,
    /// `scrub`.
    Scrub,
    /// `pack`.
    Pack,
}

/// The command that one word spells, or `None` where it spells none.
fn read_bare<'a>(word: &'a String) -> Option<Command<'a>>
    ensures { MatchOption result
        ((command : _) → IsForm (word.now ∷ []) command → ⊥)
        (λ command. IsForm (word.now ∷ []) (command_of command)) }
{
    match word.as_str() {
        "list" => Some(Command::List),
        "audit" => Some(Command::Audit),
        "repair" => Some(Command::Repair),
        "upgrade" => Some(Command::Upgrade),
        "scrub" => Some(Command::Scrub),
        "pack" => Some(Command::Pack),
        _ => None,
    }
}

/// The command that a word and a name spell, or `None` where they spell none.
fn read_named<'a>(word: &'a String, name: &'a String) -> Option<Command<'a>>
    ensures { MatchOption result
        ((command : _) → IsForm (word.now ∷ name.now ∷ []) command → ⊥)
        (λ command. IsForm (word.now ∷ name.now ∷ []) (command_of command)) }
{
    let name = name.as_bytes();
    match word.as_str() {
        "put" => Some(Command::Put {
            name,
            profile: None,
        }),
        "get" => Some(Command::Get { name }),
        "drop" => Some(Command::Drop { name }),
        _ => None,
    }
}

/// The put that a word, a name and the number of a profile spell, or `None` where they spell none.
fn read_put_at<'a>(word: &'a String, name: &'a String, profile: &'a String) -> Option<Command<'a>>
    ensures { MatchOption result
        ((command : _) → IsForm (word.now ∷ name.now ∷ profile.now ∷ []) command → ⊥)
        (λ command. IsForm (word.now ∷ name.now ∷ profile.now ∷ []) (command_of command)) }
{
    if word.as_str() != "put" {
        return None;
    }
    let number = read_number(profile.as_str())?;
    let profile = u8::try_from(number).ok()?;
    Some(Command::Put {
        name: name.as_bytes(),
        profile: Some(profile),
    })
}

/// The command that the words spell, or `None` where they are no form of a command. Only words that begin
/// with `row` take memory.
pub fn read_command<'a>(alloc: Global, words: &'a [String]) -> Result<Option<Command<'a>>, Memory>
    ensures memory { OnErr result (BeginWithRow words.now) }
    ensures found { IfOk result (λ found. MatchOption found
        ((command : _) → IsForm words.now command → ⊥)
        (λ command. IsForm words.now (command_of command))) }
{
    match words {
        [word] => return Ok(read_bare(word)),
        [word, name] => return Ok(read_named(word, name)),
        [word, name, profile] => return Ok(read_put_at(word, name, profile)),
        _ => {}
    }
    if let Some(numbers) = read_init(words) {
        return Ok(Some(Command::Init(numbers)));
    }
    match read_row(alloc, words)? {
        Some(row) => Ok(Some(Command::Row(row))),
        None => Ok(None),
    }
}
