// Takes a number from the front of bytes, lowest byte first.
ghost use Rattle.std.specs.Prelude.{◌≡◌, ◌≤◌, IfSome};
ghost use Rattle.std.specs.Option.{option_map};
ghost use Rattle.std.specs.Int.{w32, w64};
ghost use Rattle.record_codec.specs.Reading.{number_at};
ghost use Rattle.provider_wire.specs.Reading.{within_at};

/// A number of four bytes.
pub fn u32_at(bytes: &[u8]) -> Option<(u32, &[u8])>
    ensures { option_map (λ x. (x.0, x.1.now)) result ≡ number_at w32 bytes.now }
{
    if bytes.len() < 4 {
        return None;
    }
    let (front, rest) = bytes.split_at(4);
    let number = u32::from_le_bytes([front[0], front[1], front[2], front[3]]);
    Some((number, rest))
}

/// A number of eight bytes.
pub fn u64_at(bytes: &[u8]) -> Option<(u64, &[u8])>
    ensures { option_map (λ x. (x.0, x.1.now)) result ≡ number_at w64 bytes.now }
{
    if bytes.len() < 8 {
        return None;
    }
    let (front, rest) = bytes.split_at(8);
    let number = u64::from_le_bytes([
        front[0], front[1], front[2], front[3], front[4], front[5], front[6], front[7],
    ]);
    Some((number, rest))
}

/// A number of one byte, from `low` to `high`.
#[tactic(auto, unfolding(crate::specs::Reading::within_at))]
pub fn u8_at(low: u8, high: u8, bytes: &[u8]) -> Option<(u8, &[u8])>
    ensures value { option_map (λ x. (x.0, x.1.now)) result ≡ within_at low high bytes.now }
    ensures low { IfSome result (λ x. low ≤ x.0) }
    ensures high { IfSome result (λ x. x.0 ≤ high) }
{
    let (number, rest) = bytes.split_first()?;
    let number = *number;
    if number < low {
        return None;
    }
    if number > high {
        return None;
    }
    Some((number, rest))
}
