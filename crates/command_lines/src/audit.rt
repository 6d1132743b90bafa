// The lines of an audit.
ghost use Rattle.std.specs.Prelude.{◌≡◌, ◌≤◌, ◌++◌, codes, length, nat_lt, IfOk, OnOk, if◌then◌else◌};
ghost use Rattle.machine_defs.specs.Lines.{line, then_number};
ghost use Rattle.command_defs.specs.Lines.{count_line, count_lines, audit_lines};
ghost use Rattle.record_codec.specs.Entries.{counted};

use crate::pieces::{push_counted, push_line};
use record_codec::Counts;
use std::alloc::{AllocError, Global};
use stream_model::{Bytes, Memory};

/// The counts of the providers that are in use.
pub fn counts_in_use(counts: &Counts) -> &[u32]
    ensures value { result.now ≡ counted counts.now }
    ensures most { length result.now ≤ 16 }
{
    let n = usize::from(counts.n).min(counts.by.len());
    &counts.by[..n]
}

/// Puts the first line behind the text: the audit's number, and how many rounds were undecided.
fn push_first(
    alloc: Global,
    text: &mut Vec<u8>,
    number: u64,
    undecided: u32,
) -> Result<(), AllocError>
    ensures { OnOk result (text.new.items ≡ text.old.items ++ line
        (codes "audit" ++ then_number number ++ codes " undecided" ++ then_number undecided)) }
{
    push_counted(alloc, text, b"audit", number)?;
    push_line(alloc, text, b" undecided", u64::from(undecided))
}

/// The end of the line of a provider with this count.
fn verdict(tolerance: u16, count: u32) -> &'static [u8]
    ensures { result.now ≡ line (if nat_lt tolerance count then codes " flagged" else codes " ok") }
{
    if count > u32::from(tolerance) {
        b" flagged\n"
    } else {
        b" ok\n"
    }
}

/// Puts the line of the provider at a place behind the text.
fn push_count(
    alloc: Global,
    text: &mut Vec<u8>,
    tolerance: u16,
    place: usize,
    count: u32,
) -> Result<(), AllocError>
    ensures { OnOk result (text.new.items ≡ text.old.items ++ count_line tolerance place count) }
{
    push_counted(alloc, text, b"provider", place as u64)?;
    push_counted(alloc, text, b" count", u64::from(count))?;
    text.extend_from_slice(verdict(tolerance, count))
}

/// Puts the line of each provider behind the text.
fn push_counts(
    alloc: Global,
    text: &mut Vec<u8>,
    tolerance: u16,
    counts: &[u32],
) -> Result<(), AllocError>
    ensures { OnOk result (text.new.items ≡ text.old.items ++ count_lines tolerance 0 counts.now) }
{
    for place in 0..counts.len() {
        push_count(alloc, text, tolerance, place, counts[place])?;
    }
    Ok(())
}

/// The lines after an audit: its number and how many rounds were undecided, then a line for each provider
/// with its count, flagged where the count exceeds the tolerance. Want of memory is its one refusal.
pub fn audit_lines(
    alloc: Global,
    tolerance: u16,
    number: u64,
    undecided: u32,
    counts: &Counts,
) -> Result<Bytes, Memory>
    ensures { IfOk result (λ lines. lines ≡ audit_lines tolerance number undecided (counted counts.now)) }
{
    let mut text = Vec::new(alloc);
    push_first(alloc, &mut text, number, undecided)?;
    push_counts(alloc, &mut text, tolerance, counts_in_use(counts))?;
    Ok(Bytes::from_vec(text))
}
