use hail_field::Symbol;
use hail_top::Report;
use vault::{Heard, HeardList};

/// What is still wanted behind a list, of what jobs heard that heard something; None where it heard
/// otherwise.
fn behind<'a>(list: &HeardList, wanted: &'a [usize]) -> Option<&'a [usize]> {
    match wanted {
        _ if list.len() == 0 => Some(wanted),
        [len, rest @ ..] if *len == list.len() => Some(rest),
        _ => None,
    }
}

/// Whether the jobs of a report that heard something heard so much each.
pub fn has_heard(report: &Report, wanted: &[usize]) -> Option<bool> {
    let (first, lists) = report.heard.lists();
    let mut left = behind(first, wanted)?;
    for list in lists {
        left = behind(list, left)?;
    }
    Some(left.is_empty())
}

/// Whether what the first job heard at a place is this block, from the provider at the same place.
pub fn is_block_at(report: &Report, place: usize, wanted: &[Symbol]) -> bool {
    match report.heard.lists().0.at(place) {
        Some(
            Heard::Fetched {
                provider,
                block: Some(block),
                ..
            },
        ) => provider as usize == place && block == wanted,
        _ => false,
    }
}
