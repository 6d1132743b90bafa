ghost use Rattle.std.specs.Prelude.{◌≡◌, ◌≢◌, ◌<◌, ◌≤◌, ◌+◌, ◌-◌, length, take, slice_index};
ghost use Rattle.code_defs.specs.Polynomials.{trim};
ghost use Rattle.hail_poly.specs.Rows.{Reduces};

use crate::read::used;
use crate::slices::add_shifted;
use hail_field::Symbol;

/// Takes multiples of the row (r1, f1) from the row (r0, f0) until its remainder is shorter than r1, and
/// gives its length.
pub fn reduce(
    r0: &mut [Symbol],
    len: usize,
    f0: &mut [Symbol],
    r1: &[Symbol],
    f1: &[Symbol],
) -> usize
    requires some { 0 < length r1.now }
    requires lead { slice_index r1.now (length r1.now - 1) ≢ 0 }
    requires held { len ≤ length r0.old }
    requires room { len + length f1.now ≤ length f0.old + length r1.now }
    ensures less { result < length r1.now }
    ensures held { result ≤ length r0.new }
    ensures trimmed { take result r0.new ≡ trim (take result r0.new) }
    ensures rows { Reduces (take len r0.old) f0.old r1.now f1.now (take result r0.new) f0.new }
{
    let inverse = r1[r1.len() - 1].inv().unwrap();
    let mut n = used(&r0[..len]);
    while n >= r1.len() {
        let shift = n - r1.len();
        let c = r0[n - 1].mul(inverse);
        add_shifted(r0, shift, r1, c);
        add_shifted(f0, shift, f1, c);
        n = used(&r0[..n - 1]);
    }
    n
}
