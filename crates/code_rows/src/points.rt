use crate::given::*;
use code_points::{Profile, find_profile, generator_row, multiplier};
use hail_field::Symbol;

/// The number, size, kept symbols and corrected symbols of each profile.
static PROFILES: [(u8, u32, u32, u32); 5] = [
    (0, 6, 2, 2),
    (1, 16, 8, 4),
    (2, 32, 24, 4),
    (3, 64, 48, 8),
    (4, 128, 96, 16),
];

/// Whether the profile of a row's number is the row's.
fn is_profile((number, size, keep, fix): &(u8, u32, u32, u32)) -> bool {
    match find_profile(*number) {
        Some(it) => it.number == *number && it.size == *size && it.keep == *keep && it.fix == *fix,
        None => false,
    }
}

/// The place of the first row that is no profile.
fn first_other_profile() -> Option<usize> {
    for (place, row) in PROFILES.iter().enumerate() {
        if !is_profile(row) {
            return Some(place);
        }
    }
    None
}

#[test]
fn five_numbers_have_profiles(rt: HostRuntime) {
    no_other(&rt, first_other_profile());
}

#[test]
fn other_numbers_have_no_profile(rt: HostRuntime) {
    assert!(rt; find_profile(5).is_none() && find_profile(255).is_none());
}

/// The multipliers of the points of the first two profiles.
static MULTIPLIERS: [(u8, &[u128]); 2] = [
    (0, &[3, 3, 2, 2, 1, 1]),
    (1, &[1, 1, 1, 1, 1, 1, 1, 1, 1, 1, 1, 1, 1, 1, 1, 1]),
];

/// Whether the multipliers of a profile have these numbers.
fn has_multipliers(profile: Profile, numbers: &[u128]) -> bool {
    for place in 0..profile.size {
        let at = place as usize;
        if at >= numbers.len() || multiplier(profile, place).0 != numbers[at] {
            return false;
        }
    }
    true
}

/// Whether this number has a profile with these multipliers.
fn has_profile((number, multipliers): &(u8, &[u128])) -> bool {
    match find_profile(*number) {
        Some(profile) => has_multipliers(profile, multipliers),
        None => false,
    }
}

/// The place of the first row with another multiplier.
fn first_other_multiplier() -> Option<usize> {
    for (place, row) in MULTIPLIERS.iter().enumerate() {
        if !has_profile(row) {
            return Some(place);
        }
    }
    None
}

#[test]
fn multipliers_are_those_of_the_table(rt: HostRuntime) {
    no_other(&rt, first_other_multiplier());
}

/// A profile's number, a place, and the row of the generator at the place.
static GENERATOR_ROWS: [(u8, u32, &[u128]); 5] = [
    (0, 0, &[1, 0]),
    (0, 1, &[0, 1]),
    (0, 2, &[3, 2]),
    (0, 5, &[4, 5]),
    (1, 8, &[10, 6, 8, 7, 5, 14, 13, 4]),
];

/// Whether a profile's row of the generator at a place has these numbers.
fn has_row(profile: Profile, place: u32, numbers: &[u128]) -> bool {
    let mut row = [Symbol::ZERO; 8];
    let keep = profile.keep as usize;
    if place >= profile.size || keep > 8 {
        return false;
    }
    generator_row(profile, place, &mut row[..keep]);
    are_numbers(&row[..keep], numbers)
}

/// The place of the first row that is another.
fn first_other_row() -> Option<usize> {
    for (at, (number, place, numbers)) in GENERATOR_ROWS.iter().enumerate() {
        match find_profile(*number) {
            Some(profile) if has_row(profile, *place, numbers) => {}
            _ => return Some(at),
        }
    }
    None
}

#[test]
fn rows_are_those_computed_elsewhere(rt: HostRuntime) {
    no_other(&rt, first_other_row());
}
