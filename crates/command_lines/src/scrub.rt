// The lines of a scrub.
ghost use Rattle.std.specs.Prelude.{◌≡◌, ◌++◌, codes, length, take, IfOk, OnOk};
ghost use Rattle.machine_defs.specs.Lines.{line, then_number};
ghost use Rattle.command_defs.specs.Lines.{off_line, off_lines, scrub_lines};

use crate::pieces::{push_counted, push_line};
use std::alloc::{AllocError, Global};
use stream_model::{Bytes, Memory};

/// The numbers of so many providers.
fn numbers_in_use(providers: usize, by: &[u64; 16]) -> &[u64]
    ensures { result.now ≡ take providers by.now }
{
    &by[..providers.min(by.len())]
}

/// Puts the line of the provider at a place behind the text.
fn push_off(
    alloc: Global,
    text: &mut Vec<u8>,
    place: usize,
    symbols: u64,
    blocks: u64,
) -> Result<(), AllocError>
    ensures { OnOk result (text.new.items ≡ text.old.items ++ off_line place symbols blocks) }
{
    push_counted(alloc, text, b"provider", place as u64)?;
    push_counted(alloc, text, b" symbols", symbols)?;
    push_line(alloc, text, b" blocks", blocks)
}

/// Puts the line of each provider behind the text.
fn push_all_off(
    alloc: Global,
    text: &mut Vec<u8>,
    symbols: &[u64],
    blocks: &[u64],
) -> Result<(), AllocError>
    requires { length symbols.now ≡ length blocks.now }
    ensures { OnOk result (text.new.items ≡ text.old.items ++ off_lines 0 symbols.now blocks.now) }
{
    for place in 0..symbols.len() {
        push_off(alloc, text, place, symbols[place], blocks[place])?;
    }
    Ok(())
}

/// The lines after a scrub of so many stripes: how many, then a line for each provider with how many of its
/// symbols, and how many of its blocks, differed. Want of memory is its one refusal.
pub fn scrub_lines(
    alloc: Global,
    providers: usize,
    stripes: u64,
    symbols: &[u64; 16],
    blocks: &[u64; 16],
) -> Result<Bytes, Memory>
    ensures { IfOk result (λ lines. lines ≡ scrub_lines stripes (take providers symbols.now)
        (take providers blocks.now)) }
{
    let symbols = numbers_in_use(providers, symbols);
    let blocks = numbers_in_use(providers, blocks);
    let mut text = Vec::new(alloc);
    push_line(alloc, &mut text, b"scrub stripes", stripes)?;
    push_all_off(alloc, &mut text, symbols, blocks)?;
    Ok(Bytes::from_vec(text))
}
