ghost use Rattle.std.specs.Prelude.{◌≡◌, ◌≢◌, ◌≤◌, ◌+◌, [], length, take};
ghost use Rattle.code_defs.specs.Polynomials.{plus, times, trim};
ghost use Rattle.hail_poly.specs.Quotient.{IsDivision};

use crate::euclid::reduce;
use crate::slices::{add_scaled, add_shifted, clear};
use hail_field::Symbol;

/// Writes the sum of two polynomials.
pub fn sum_into(into: &mut [Symbol], p: &[Symbol], q: &[Symbol])
    requires p_fits { length p.now ≤ length into.old }
    requires q_fits { length q.now ≤ length into.old }
    ensures { trim into.new ≡ trim (plus p.now q.now) }
{
    clear(into);
    add_scaled(into, p, Symbol::ONE);
    add_scaled(into, q, Symbol::ONE);
}

/// Writes the product of two polynomials.
pub fn product_into(into: &mut [Symbol], p: &[Symbol], q: &[Symbol])
    requires { length p.now + length q.now ≤ length into.old }
    ensures { trim into.new ≡ trim (times p.now q.now) }
{
    clear(into);
    for k in 0..p.len() {
        add_shifted(into, k, q, p[k]);
    }
}

/// Divides a polynomial, which becomes the remainder, and gives the remainder's length.
pub fn divide_into(rest: &mut [Symbol], by: &[Symbol], quotient: &mut [Symbol]) -> usize
    requires some { by.now ≢ [] }
    requires trimmed { by.now ≡ trim by.now }
    requires room { length quotient.old ≡ length rest.old }
    ensures held { result ≤ length rest.new }
    ensures division { IsDivision rest.old by.now (trim quotient.new) (take result rest.new) }
{
    clear(quotient);
    let one = [Symbol::ONE];
    reduce(rest, rest.len(), quotient, by, &one)
}
