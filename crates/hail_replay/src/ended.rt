// The line of a job, a scrub or a pack that ended.
ghost use Rattle.std.specs.Prelude.{◌≡◌, ◌++◌, [], codes, take, IfOk, OnOk};
ghost use Rattle.std.specs.List.{flat_map};
ghost use Rattle.std.specs.String.{string_bytes};
ghost use Rattle.machine_defs.specs.Answers.{Got, Audited, Lost, Scrubbed};
ghost use Rattle.machine_defs.specs.Lines.{line, then_number, hex, hex_or_dash, answer_text};
ghost use Rattle.record_codec.specs.Entries.{counted};
ghost use Rattle.vault.specs.Outcomes.{machine_answer};
ghost use Rattle.vault.specs.Packing.{pack_answer};
ghost use Rattle.hail_scrub.specs.Stands.{scrub_answer};

use crate::text::{of_text, push_list, push_sums};
use command_lines::{counts_in_use, numbered_line, packed_line, push_counted, push_line};
use hail_scrub::ScrubAnswer;
use record_codec::Counts;
use std::alloc::{AllocError, Global};
use stream_model::{Bytes, Memory};
use vault::{Answer, PackAnswer};

/// Bytes in hexadecimal, in lower case.
fn digits_of(alloc: Global, bytes: &[u8]) -> Result<String, AllocError>
    ensures { IfOk result (λ text. string_bytes text ≡ hex bytes.now) }
{
    hex::encode(alloc, bytes)
}

/// Bytes in hexadecimal, or a dash for none.
fn word_of(alloc: Global, bytes: &[u8]) -> Result<String, AllocError>
    ensures { IfOk result (λ text. string_bytes text ≡ hex_or_dash bytes.now) }
{
    if bytes.is_empty() {
        Ok(String::from_str(alloc, "-")?)
    } else {
        digits_of(alloc, bytes)
    }
}

/// The line of a get, in time that grows with the bytes.
fn got_line(alloc: Global, bytes: &[u8]) -> Result<Bytes, Memory>
    ensures { IfOk result (λ text. text ≡ line (answer_text (Got bytes.now))) }
{
    let word = word_of(alloc, bytes)?;
    Ok(of_text(format!(in alloc; "got {word}\n")?))
}

/// Puts the line of an audit behind a text.
fn push_audited(
    alloc: Global,
    text: &mut Vec<u8>,
    number: u64,
    undecided: u32,
    counts: &[u32],
) -> Result<(), AllocError>
    ensures { OnOk result (text.new.items ≡ text.old.items ++ line (answer_text
        (Audited number undecided counts.now))) }
{
    push_counted(alloc, text, b"audited", number)?;
    push_counted(alloc, text, b" undecided", u64::from(undecided))?;
    push_list(alloc, text, b" counts", counts)
}

/// The line of an audit.
fn audited_line(
    alloc: Global,
    number: u64,
    undecided: u32,
    counts: &Counts,
) -> Result<Bytes, Memory>
    ensures { IfOk result (λ text. text ≡ line (answer_text
        (Audited number undecided (counted counts.now)))) }
{
    let mut text = Vec::new(alloc);
    push_audited(alloc, &mut text, number, undecided, counts_in_use(counts))?;
    Ok(Bytes::from_vec(text))
}

/// Puts the line of a lost row behind a text.
fn push_lost(alloc: Global, text: &mut Vec<u8>, stripe: u32, row: u64) -> Result<(), AllocError>
    ensures { OnOk result (text.new.items ≡ text.old.items ++ line (answer_text (Lost stripe row))) }
{
    push_counted(alloc, text, b"lost", u64::from(stripe))?;
    push_line(alloc, text, b"", row)
}

/// The line of a lost row.
fn lost_line(alloc: Global, stripe: u32, row: u64) -> Result<Bytes, Memory>
    ensures { IfOk result (λ text. text ≡ line (answer_text (Lost stripe row))) }
{
    let mut text = Vec::new(alloc);
    push_lost(alloc, &mut text, stripe, row)?;
    Ok(Bytes::from_vec(text))
}

/// The line of a job that ended so.
pub fn answer_line(alloc: Global, answer: &Answer) -> Result<Bytes, Memory>
    ensures { IfOk result (λ text. text ≡ line (answer_text (machine_answer answer.now))) }
{
    match answer {
        Answer::Put => Bytes::from_slice(alloc, b"put\n"),
        Answer::Got { bytes } => got_line(alloc, bytes.as_slice()),
        Answer::Dropped => Bytes::from_slice(alloc, b"dropped\n"),
        Answer::Audited {
            number,
            undecided,
            counts,
        } => audited_line(alloc, *number, *undecided, counts),
        Answer::Repaired { number } => numbered_line(alloc, b"repaired", *number),
        Answer::Upgraded => Bytes::from_slice(alloc, b"upgraded\n"),
        Answer::Lost { stripe, row } => lost_line(alloc, *stripe, *row),
        Answer::ProviderFault { provider } => {
            numbered_line(alloc, b"provider fault", u64::from(*provider))
        }
        Answer::DiskFault => Bytes::from_slice(alloc, b"disk fault\n"),
        Answer::Memory => Bytes::from_slice(alloc, b"memory\n"),
    }
}

/// What was counted of the first so many providers.
fn sums_in_use(sums: &[u64; 16], providers: u8) -> &[u64]
    ensures { result.now ≡ take providers sums.now }
{
    let n = usize::from(providers).min(sums.len());
    &sums[..n]
}

/// Puts the line of a scrub behind a text, with the symbols that differed of each provider in use. It leaves
/// out how many blocks differed.
fn push_scrubbed(
    alloc: Global,
    text: &mut Vec<u8>,
    stripes: u64,
    symbols: &[u64],
) -> Result<(), AllocError>
    ensures { OnOk result (text.new.items ≡ text.old.items ++ line (answer_text
        (Scrubbed stripes symbols.now []))) }
{
    push_counted(alloc, text, b"scrubbed", stripes)?;
    text.extend_from_slice(b" symbols")?;
    push_sums(alloc, text, symbols)?;
    text.extend_from_slice(b"\n")
}

/// The line of a scrub of so many providers.
fn scrubbed_line(
    alloc: Global,
    providers: u8,
    stripes: u64,
    symbols: &[u64; 16],
) -> Result<Bytes, Memory>
    ensures { IfOk result (λ text. text ≡ line (answer_text
        (Scrubbed stripes (take providers symbols.now) []))) }
{
    let mut text = Vec::new(alloc);
    push_scrubbed(alloc, &mut text, stripes, sums_in_use(symbols, providers))?;
    Ok(Bytes::from_vec(text))
}

/// The line of a scrub of so many providers that ended so.
pub fn scrub_answer_line(
    alloc: Global,
    providers: u8,
    answer: &ScrubAnswer,
) -> Result<Bytes, Memory>
    ensures { IfOk result (λ text. text ≡ line (answer_text (scrub_answer providers answer.now))) }
{
    match answer {
        ScrubAnswer::Scrubbed {
            stripes,
            symbols,
            ..
        } => scrubbed_line(alloc, providers, *stripes, symbols),
        ScrubAnswer::Lost { stripe, row } => lost_line(alloc, *stripe, *row),
        ScrubAnswer::ProviderFault { provider } => {
            numbered_line(alloc, b"provider fault", u64::from(*provider))
        }
        ScrubAnswer::Memory => Bytes::from_slice(alloc, b"memory\n"),
    }
}

/// The line of a pack that ended so.
pub fn pack_answer_line(alloc: Global, answer: &PackAnswer) -> Result<Bytes, Memory>
    ensures { IfOk result (λ text. text ≡ line (answer_text (pack_answer answer.now))) }
{
    match answer {
        PackAnswer::Packed { before, after } => packed_line(alloc, *before, *after),
        PackAnswer::DiskFault => Bytes::from_slice(alloc, b"disk fault\n"),
        PackAnswer::Memory => Bytes::from_slice(alloc, b"memory\n"),
    }
}
