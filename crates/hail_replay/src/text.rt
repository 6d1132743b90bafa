// Texts, and pieces that are put behind them. After want of memory some front of a piece may stand there.
ghost use Rattle.std.specs.Prelude.{◌≡◌, ◌++◌, OnOk};
ghost use Rattle.std.specs.List.{flat_map};
ghost use Rattle.std.specs.String.{string_bytes};
ghost use Rattle.machine_defs.specs.Lines.{line, then_number};

use command_lines::push_number;
use std::alloc::{AllocError, Global};
use stream_model::Bytes;

/// The bytes of a text.
pub(crate) fn of_text(text: String) -> Bytes
    ensures { result ≡ string_bytes text }
{
    Bytes::from_vec(text.into_bytes())
}

/// Puts each number, after a space, behind a text.
fn push_numbers(alloc: Global, text: &mut Vec<u8>, numbers: &[u32]) -> Result<(), AllocError>
    ensures { OnOk result (text.new.items ≡ text.old.items ++ flat_map then_number numbers.now) }
{
    for place in 0..numbers.len() {
        push_number(alloc, text, u64::from(numbers[place]))?;
    }
    Ok(())
}

/// Puts each sum, after a space, behind a text.
pub(crate) fn push_sums(alloc: Global, text: &mut Vec<u8>, sums: &[u64]) -> Result<(), AllocError>
    ensures { OnOk result (text.new.items ≡ text.old.items ++ flat_map then_number sums.now) }
{
    for place in 0..sums.len() {
        push_number(alloc, text, sums[place])?;
    }
    Ok(())
}

/// Puts a word, each number after a space, and a newline behind a text.
pub(crate) fn push_list(
    alloc: Global,
    text: &mut Vec<u8>,
    word: &[u8],
    numbers: &[u32],
) -> Result<(), AllocError>
    ensures { OnOk result (text.new.items ≡ text.old.items ++ line
        (word.now ++ flat_map then_number numbers.now)) }
{
    text.extend_from_slice(word)?;
    push_numbers(alloc, text, numbers)?;
    text.extend_from_slice(b"\n")
}
