ghost use Rattle.std.specs.Prelude.{◌≡◌, ◌<◌, ◌+◌, ◌↔◌, ℕ, length, get_or};
ghost use Rattle.algebra_laws.specs.Lists.{Each};
ghost use Rattle.algebra_laws.specs.Field.{Apart};
ghost use Rattle.hail_field.specs.Nim.{nim_add, nim_mul, nim_pow};
ghost use Rattle.hail_syndrome.specs.Syndromes.{syndromes_of, AreValues};

use crate::multipliers::{multiplier_at, profile_of_points};
use hail_field::Symbol;

/// Adds c times the powers of x in turn.
fn add_powers(out: &mut [Symbol], x: Symbol, c: Symbol)
    ensures { (k : ℕ) → k < length out.old
        → get_or out.new k 0 ≡ nim_add (get_or out.old k 0) (nim_mul c (nim_pow x k)) }
{
    let mut term = c;
    for k in 0..out.len() {
        out[k] = out[k].add(term);
        term = term.mul(x);
    }
}

/// Fills `out` with the syndromes of values at points: the sums of multiplier times value times the powers of
/// the point, where the multiplier is the inverse of the product of the point plus each other point. They are
/// all 0 exactly where the values are those of a polynomial of degree below `keep` (MacWilliams and Sloane,
/// The Theory of Error-Correcting Codes, 1977, chapter 10).
pub fn syndromes(points: &[Symbol], values: &[Symbol], keep: usize, out: &mut [Symbol])
    requires apart { Apart points.now }
    requires even { length points.now ≡ length values.now }
    requires room { keep + length out.old ≡ length values.now }
    ensures are { out.new ≡ syndromes_of points.now values.now (length out.old) }
    ensures zero { Each (λ s. s ≡ 0) out.new ↔ AreValues points.now values.now keep }
{
    let known = profile_of_points(points);
    out.fill(Symbol::ZERO);
    for place in (0..points.len()).rev() {
        let c = multiplier_at(known, points, place).mul(values[place]);
        add_powers(out, points[place], c);
    }
}
