// Pieces of lines that are put behind a text. After want of memory some front of a piece may stand there.
ghost use Rattle.std.specs.Prelude.{◌≡◌, ◌++◌, IfOk, OnOk};
ghost use Rattle.machine_defs.specs.Lines.{line, then_number};

use std::alloc::{AllocError, Global};
use stream_model::{Bytes, Memory};

/// Puts a number, after a space, behind the text.
pub fn push_number(alloc: Global, text: &mut Vec<u8>, number: u64) -> Result<(), AllocError>
    ensures { OnOk result (text.new.items ≡ text.old.items ++ then_number number) }
{
    let digits = format!(in alloc; " {number}")?;
    text.extend_from_slice(digits.as_bytes())
}

/// Puts a word, and a number after a space, behind the text.
pub fn push_counted(
    alloc: Global,
    text: &mut Vec<u8>,
    word: &[u8],
    number: u64,
) -> Result<(), AllocError>
    ensures { OnOk result (text.new.items ≡ text.old.items ++ (word.now ++ then_number number)) }
{
    text.extend_from_slice(word)?;
    push_number(alloc, text, number)
}

/// Puts a word, a number after a space, and a newline behind the text.
pub fn push_line(
    alloc: Global,
    text: &mut Vec<u8>,
    word: &[u8],
    number: u64,
) -> Result<(), AllocError>
    ensures { OnOk result (text.new.items ≡ text.old.items ++ line (word.now ++ then_number number)) }
{
    push_counted(alloc, text, word, number)?;
    text.extend_from_slice(b"\n")
}

/// The line of a word and a number. Want of memory is its one refusal.
pub fn numbered_line(alloc: Global, word: &[u8], number: u64) -> Result<Bytes, Memory>
    ensures { IfOk result (λ text. text ≡ line (word.now ++ then_number number)) }
{
    let mut text = Vec::new(alloc);
    push_line(alloc, &mut text, word, number)?;
    Ok(Bytes::from_vec(text))
}
