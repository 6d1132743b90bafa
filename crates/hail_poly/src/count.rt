ghost use Rattle.std.specs.Prelude.{◌≡◌, ◌≤◌, length, Some};
ghost use Rattle.code_defs.specs.Polynomials.{is_seen};
ghost use Rattle.hail_poly.specs.Decoding.{matches};

use crate::read::eval;
use hail_field::Symbol;

/// Whether a symbol is the value.
#[tactic(auto, unfolding(algebra_laws::specs::Poly::is_seen))]
fn meets(value: Symbol, seen: Symbol) -> bool
    ensures { result ≡ is_seen value (Some seen) }
{
    seen == value
}

/// At how many points the polynomial takes the value.
pub fn agreements(coefficients: &[Symbol], points: &[Symbol], values: &[Symbol]) -> usize
    requires { length points.now ≡ length values.now }
    ensures bound { result ≤ length points.now }
    ensures count { result ≡ matches coefficients.now points.now values.now }
{
    let mut count = 0;
    for k in 0..points.len() {
        let value = eval(coefficients, points[k]);
        if meets(value, values[k]) {
            count += 1;
        }
    }
    count
}
