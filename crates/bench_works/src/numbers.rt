use crate::failure::Failure;

/// The number that a word writes; `Usage` where it writes none.
pub(crate) fn number_named(word: &str) -> Result<u32, Failure> {
    Ok(word.parse::<u32>()?)
}

/// The number after a number, in a row that looks like chance.
pub(crate) fn after(number: u128) -> u128 {
    number
        .wrapping_mul(290_540_817_353_171_031_345_215_227_939_350_468_789)
        .wrapping_add(1)
}
