ghost use Rattle.std.specs.Prelude.{◌≡◌, ◌<◌, ◌≤◌, ◌+◌, [], length, take};
ghost use Rattle.code_defs.specs.Polynomials.{vanish, interpolate};
ghost use Rattle.algebra_laws.specs.Field.{Apart};

use crate::read::eval;
use crate::slices::{add_scaled, multiply_root};
use hail_field::Symbol;

/// Makes the product of all x + point, and the polynomial that takes the values at the points.
pub fn interpolate_into(
    points: &[Symbol],
    values: &[Symbol],
    whole: &mut [Symbol],
    rest: &mut [Symbol],
)
    requires apart { Apart points.now }
    requires even { length points.now ≡ length values.now }
    requires whole_room { length whole.old ≡ length points.now + 1 }
    requires rest_room { length rest.old ≡ length points.now }
    ensures whole { whole.new ≡ vanish points.now }
    ensures rest { rest.new ≡ interpolate points.now values.now }
{
    let count = points.len();
    whole[0] = Symbol::ONE;
    for done in 0..count {
        let x = points[count - 1 - done];
        let y = values[count - 1 - done];
        let gap = y.add(eval(&rest[..done], x));
        let c = gap.mul(eval(&whole[..done + 1], x).inv().unwrap());
        rest[done] = Symbol::ZERO;
        add_scaled(&mut rest[..done + 1], &whole[..done + 1], c);
        let last = multiply_root(&mut whole[..done + 1], x);
        whole[done + 1] = last;
    }
}

/// The same in the front of longer slices.
pub fn interpolate_within(
    points: &[Symbol],
    values: &[Symbol],
    whole: &mut [Symbol],
    rest: &mut [Symbol],
)
    requires apart { Apart points.now }
    requires even { length points.now ≡ length values.now }
    requires whole_room { length points.now < length whole.old }
    requires rest_room { length points.now ≤ length rest.old }
    ensures whole { take (length points.now + 1) whole.new ≡ vanish points.now }
    ensures rest { take (length points.now) rest.new ≡ interpolate points.now values.now }
{
    let count = points.len();
    interpolate_into(points, values, &mut whole[..count + 1], &mut rest[..count]);
}
