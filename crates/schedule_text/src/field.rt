// Takes a number, bytes or a key from the front of a line.
ghost use Rattle.std.specs.Prelude.{◌≡◌, MatchOption, IfOk, IfErr, None, Some};
ghost use Rattle.std.specs.Option.{option_map};
ghost use Rattle.schedule_text.specs.Grammar.{words};
ghost use Rattle.schedule_text.specs.Reading.{Gives, number_in, bytes_in, key_in, numeral_at, number_word_at, profile_at, bytes_at, key_at};

use crate::fault::LineFault;
use crate::word::{take_word, without_spaces};
use command_words::read_number;
use hex::FromHexError;
use key_schedule::Master;
use std::alloc::Global;
use std::str::from_utf8;
use stream_model::Bytes;

/// The number that a word spells.
fn number_of(word: &[u8]) -> Option<u128>
    ensures { result ≡ number_in word.now }
{
    match from_utf8(word) {
        Ok(text) => read_number(text),
        Err(_) => None,
    }
}

/// The bytes that a word spells.
fn bytes_of(alloc: Global, word: &[u8]) -> Result<Bytes, LineFault>
    ensures { Gives (λ bytes. bytes) result (bytes_in word.now) }
{
    if word == b"-".as_slice() {
        return Ok(Bytes::from_vec(Vec::new(alloc)));
    }
    match hex::decode(alloc, word) {
        Ok(bytes) => Ok(Bytes::from_vec(bytes)),
        Err(FromHexError::OutOfMemory) => Err(LineFault::Memory),
        Err(_) => Err(LineFault::Bad),
    }
}

/// The master key that a word spells.
fn key_of(word: &[u8]) -> Option<Master>
    ensures { option_map (λ master. master.0) result ≡ key_in word.now }
{
    Master::from_hex(word)
}

/// A number below 2^128.
#[tactic(auto, unfolding(crate::specs::Reading::numeral_at))]
pub(crate) fn take_u128(line: &[u8]) -> Result<(u128, &[u8]), LineFault>
    ensures read { Gives (λ x. (x.0, words x.1.now)) result (numeral_at (words line.now)) }
    ensures bad { IfErr result (λ fault. fault ≡ LineFault.Bad) }
{
    let (word, left) = take_word(line)?;
    match number_of(word) {
        Some(number) => Ok((number, left)),
        None => Err(LineFault::Bad),
    }
}

/// A number of one byte.
#[tactic(auto, unfolding(crate::specs::Reading::number_word_at))]
pub(crate) fn take_u8(line: &[u8]) -> Result<(u8, &[u8]), LineFault>
    ensures read { Gives (λ x. (x.0, words x.1.now)) result (number_word_at 8 (words line.now)) }
    ensures bad { IfErr result (λ fault. fault ≡ LineFault.Bad) }
{
    let (number, left) = take_u128(line)?;
    match u8::try_from(number) {
        Ok(number) => Ok((number, left)),
        Err(_) => Err(LineFault::Bad),
    }
}

/// A number of two bytes.
#[tactic(auto, unfolding(crate::specs::Reading::number_word_at))]
pub(crate) fn take_u16(line: &[u8]) -> Result<(u16, &[u8]), LineFault>
    ensures read { Gives (λ x. (x.0, words x.1.now)) result (number_word_at 16 (words line.now)) }
    ensures bad { IfErr result (λ fault. fault ≡ LineFault.Bad) }
{
    let (number, left) = take_u128(line)?;
    match u16::try_from(number) {
        Ok(number) => Ok((number, left)),
        Err(_) => Err(LineFault::Bad),
    }
}

/// A number of four bytes.
#[tactic(auto, unfolding(crate::specs::Reading::number_word_at))]
pub(crate) fn take_u32(line: &[u8]) -> Result<(u32, &[u8]), LineFault>
    ensures read { Gives (λ x. (x.0, words x.1.now)) result (number_word_at 32 (words line.now)) }
    ensures bad { IfErr result (λ fault. fault ≡ LineFault.Bad) }
{
    let (number, left) = take_u128(line)?;
    match u32::try_from(number) {
        Ok(number) => Ok((number, left)),
        Err(_) => Err(LineFault::Bad),
    }
}

/// A number of eight bytes.
#[tactic(auto, unfolding(crate::specs::Reading::number_word_at))]
pub(crate) fn take_u64(line: &[u8]) -> Result<(u64, &[u8]), LineFault>
    ensures read { Gives (λ x. (x.0, words x.1.now)) result (number_word_at 64 (words line.now)) }
    ensures bad { IfErr result (λ fault. fault ≡ LineFault.Bad) }
{
    let (number, left) = take_u128(line)?;
    match u64::try_from(number) {
        Ok(number) => Ok((number, left)),
        Err(_) => Err(LineFault::Bad),
    }
}

/// The number of a profile, where a word is left for it.
#[tactic(auto, unfolding(crate::specs::Reading::profile_at))]
pub(crate) fn take_profile(line: &[u8]) -> Result<(Option<u8>, &[u8]), LineFault>
    ensures read { Gives (λ x. (x.0, words x.1.now)) result (profile_at (words line.now)) }
    ensures bad { IfErr result (λ fault. fault ≡ LineFault.Bad) }
{
    if without_spaces(line).is_empty() {
        return Ok((None, line));
    }
    let (number, left) = take_u8(line)?;
    Ok((Some(number), left))
}

/// The bytes of a word of hexadecimal digits.
#[tactic(auto, unfolding(crate::specs::Reading::bytes_at))]
pub(crate) fn take_bytes(alloc: Global, line: &[u8]) -> Result<(Bytes, &[u8]), LineFault>
    ensures { Gives (λ x. (x.0, words x.1.now)) result (bytes_at (words line.now)) }
{
    let (word, left) = take_word(line)?;
    let bytes = bytes_of(alloc, word)?;
    Ok((bytes, left))
}

/// A master key.
#[tactic(auto, unfolding(crate::specs::Reading::key_at))]
pub(crate) fn take_key(line: &[u8]) -> Result<(Master, &[u8]), LineFault>
    ensures read { Gives (λ x. (x.0.0, words x.1.now)) result (key_at (words line.now)) }
    ensures bad { IfErr result (λ fault. fault ≡ LineFault.Bad) }
{
    let (word, left) = take_word(line)?;
    match key_of(word) {
        Some(master) => Ok((master, left)),
        None => Err(LineFault::Bad),
    }
}
