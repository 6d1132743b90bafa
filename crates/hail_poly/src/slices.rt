ghost use Rattle.std.specs.Prelude.{◌≡◌, ◌<◌, ◌≤◌, ◌+◌, ◌++◌, ◌∷◌, [], length, take, drop, replicate, reverse};
ghost use Rattle.code_defs.specs.Polynomials.{plus, scale, root_times};
ghost use Rattle.hail_poly.specs.Key.{power};

use hail_field::Symbol;

/// Adds c times a polynomial to another that has room for it.
#[tactic(auto, using(crate::proofs::Steps::add_scaled_step, crate::proofs::Steps::add_scaled_end))]
pub fn add_scaled(into: &mut [Symbol], from: &[Symbol], c: Symbol)
    requires { length from.now ≤ length into.old }
    ensures { into.new ≡ plus into.old (scale c from.now) }
{
    for (k, b) in from.iter().enumerate() {
        into[k] = into[k].add(c.mul(*b));
    }
}

/// Multiplies a polynomial by x + r, and gives the coefficient that has no place.
#[tactic(auto, using(crate::proofs::Steps::root_times_step, crate::proofs::Steps::root_times_end))]
pub fn multiply_root(items: &mut [Symbol], r: Symbol) -> Symbol
    ensures { items.new ++ result ∷ [] ≡ root_times r 0 items.old }
{
    let mut carry = Symbol::ZERO;
    for k in 0..items.len() {
        let a = items[k];
        items[k] = r.mul(a).add(carry);
        carry = a;
    }
    carry
}

/// Adds c times a polynomial from a place on.
pub fn add_shifted(into: &mut [Symbol], shift: usize, from: &[Symbol], c: Symbol)
    requires { shift + length from.now ≤ length into.old }
    ensures { into.new ≡ take shift into.old ++ plus (drop shift into.old) (scale c from.now) }
{
    add_scaled(&mut into[shift..], from, c);
}

/// Copies a polynomial to the front.
pub fn put_front(into: &mut [Symbol], from: &[Symbol])
    requires { length from.now ≤ length into.old }
    ensures { into.new ≡ from.now ++ drop (length from.now) into.old }
{
    into[..from.len()].copy_from_slice(from);
}

/// Makes each coefficient zero.
pub fn clear(into: &mut [Symbol])
    ensures { into.new ≡ replicate (length into.old) 0 }
{
    into.fill(Symbol::ZERO);
}

/// Copies coefficients to the front, the last of them first.
pub fn put_reversed(into: &mut [Symbol], from: &[Symbol])
    requires { length from.now ≤ length into.old }
    ensures { into.new ≡ reverse from.now ++ drop (length from.now) into.old }
{
    put_front(into, from);
    into[..from.len()].reverse();
}

/// Makes the power of x at the front.
#[tactic(auto, using(crate::proofs::KeySteps::power_made))]
pub fn put_power(into: &mut [Symbol], exponent: usize)
    requires { exponent < length into.old }
    ensures { take (exponent + 1) into.new ≡ power exponent }
{
    clear(into);
    into[exponent] = Symbol::ONE;
}
