// Reads the words of the command `row`.
ghost use Rattle.std.specs.Prelude.{◌≡◌, ℕ, length, MatchOption, IfOk, OnErr};
ghost use Rattle.command_defs.specs.Words.{AreSymbolWords};
ghost use Rattle.command_defs.specs.Row.{IsRowForm};
ghost use Rattle.command_words.specs.Commands.{BeginWithRow};

use crate::word::{read_symbol, read_three};
use hail_field::Symbol;
use std::alloc::{AllocError, Global};

/// The numbers and the symbols of the command `row`.
#[derive(PartialEq, Eq, Drop)]
pub struct Row {
    pub n: u128,
    pub l: u128,
    pub b: u128,
    pub seen: Vec<Option<Symbol>>,
}

/// The symbols that the words spell, or `None` where one of them spells none.
fn read_symbols(alloc: Global, words: &[String]) -> Result<Option<Vec<Option<Symbol>>>, AllocError>
    ensures { IfOk result (λ found. MatchOption found
        ((symbols : _) → AreSymbolWords words.now symbols → ⊥)
        (λ symbols. AreSymbolWords words.now symbols.items)) }
{
    let mut symbols = Vec::new(alloc);
    for word in words {
        let Some(symbol) = read_symbol(word.as_str()) else {
            return Ok(None);
        };
        symbols.push(symbol)?;
    }
    Ok(Some(symbols))
}

/// The symbols that so many words spell, or `None` where one of them spells none, or they are more or fewer.
fn read_count(
    alloc: Global,
    count: u128,
    words: &[String],
) -> Result<Option<Vec<Option<Symbol>>>, AllocError>
    ensures { IfOk result (λ found. MatchOption found
        ((symbols : _) → length words.now ≡ count → AreSymbolWords words.now symbols → ⊥)
        (λ symbols. (length words.now ≡ count) × AreSymbolWords words.now symbols.items)) }
{
    if words.len() as u128 != count {
        return Ok(None);
    }
    read_symbols(alloc, words)
}

/// The row that the words spell, or `None` where they are no form of the command.
pub fn read_row(alloc: Global, words: &[String]) -> Result<Option<Row>, AllocError>
    ensures memory { OnErr result (BeginWithRow words.now) }
    ensures found { IfOk result (λ found. MatchOption found
        ((n l b : ℕ) (seen : _) → IsRowForm words.now n l b seen → ⊥)
        (λ row. IsRowForm words.now row.n row.l row.b row.seen.items)) }
{
    let [command, n, l, b, symbols @ ..] = words else {
        return Ok(None);
    };
    if command.as_str() != "row" {
        return Ok(None);
    }
    let Some((n, l, b)) = read_three(n.as_str(), l.as_str(), b.as_str()) else {
        return Ok(None);
    };
    let Some(seen) = read_count(alloc, n, symbols)? else {
        return Ok(None);
    };
    Ok(Some(Row { n, l, b, seen }))
}
