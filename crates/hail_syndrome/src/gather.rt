ghost use Rattle.std.specs.Prelude.{◌≡◌, ◌≤◌, length, take};
ghost use Rattle.hail_field.specs.Nim.{nim};
ghost use Rattle.hail_syndrome.specs.Sound.{sound_points, sound_values};

use hail_field::Symbol;
use hail_poly::Work;

/// Writes the points at which `factor` is not 0, and the values there, to the front of two buffers, and tells
/// how many they are.
pub fn gather(
    points: &[Symbol],
    values: &[Symbol],
    work: &Work,
    sound: &mut [Symbol],
    seen: &mut [Symbol],
) -> usize
    requires even { length points.now ≡ length values.now }
    requires points_room { length points.now ≤ length sound.old }
    requires values_room { length points.now ≤ length seen.old }
    ensures points { take result sound.new ≡ sound_points nim work.now.factor points.now }
    ensures values { take result seen.new ≡ sound_values nim work.now.factor points.now values.now }
    ensures bound { result ≤ length points.now }
{
    let mut count = 0;
    for k in 0..points.len() {
        let point = points[k];
        if !work.factor_at(point).is_zero() {
            sound[count] = point;
            seen[count] = values[k];
            count += 1;
        }
    }
    count
}
