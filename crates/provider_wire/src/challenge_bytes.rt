// Takes a challenge from the front of bytes.
ghost use Rattle.std.specs.Prelude.{◌≡◌, ◌≤◌, ◌^◌, IfSome};
ghost use Rattle.std.specs.Option.{option_map};
ghost use Rattle.challenge.specs.Asked.{asked};
ghost use Rattle.provider_wire.specs.Reading.{seed_at, rows_at, challenge_read_at};

use crate::fields::{u8_at, u64_at};
use challenge::Challenge;

/// The most rows of a challenge.
const MOST_ROWS: u64 = 1 << 32;

/// A seed of 32 bytes.
#[tactic(auto, unfolding(crate::specs::Reading::seed_at))]
fn seed_of(bytes: &[u8]) -> Option<([u8; 32], &[u8])>
    ensures { option_map (λ x. (x.0, x.1.now)) result ≡ seed_at bytes.now }
{
    if bytes.len() < 32 {
        return None;
    }
    let (front, rest) = bytes.split_at(32);
    let mut seed = [0u8; 32];
    seed.copy_from_slice(front);
    Some((seed, rest))
}

/// How many rows there are, 1 to 2^32.
#[tactic(auto, unfolding(crate::specs::Reading::rows_at))]
fn rows_of(bytes: &[u8]) -> Option<(u64, &[u8])>
    ensures value { option_map (λ x. (x.0, x.1.now)) result ≡ rows_at bytes.now }
    ensures low { IfSome result (λ x. 1 ≤ x.0) }
    ensures high { IfSome result (λ x. x.0 ≤ 2 ^ 32) }
{
    let (rows, rest) = u64_at(bytes)?;
    if rows < 1 {
        return None;
    }
    if rows > MOST_ROWS {
        return None;
    }
    Some((rows, rest))
}

/// A challenge: its seed, its rows, the size of a block and its picks.
#[tactic(auto, unfolding(crate::specs::Reading::challenge_read_at))]
pub fn challenge_of(bytes: &[u8]) -> Option<(Challenge, &[u8])>
    ensures { option_map (λ x. (asked x.0, x.1.now)) result ≡ challenge_read_at bytes.now }
{
    let (seed, rest) = seed_of(bytes)?;
    let (rows, rest) = rows_of(rest)?;
    let (size, rest) = u8_at(1, 128, rest)?;
    let (picks, rest) = u8_at(1, 64, rest)?;
    let challenge = Challenge {
        seed,
        rows,
        size: u32::from(size),
        picks: u32::from(picks),
    };
    Some((challenge, rest))
}
