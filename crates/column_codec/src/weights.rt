ghost use Rattle.std.specs.Prelude.{◌≡◌, ◌≢◌, ◌<◌, ◌≤◌, ◌==◌, if◌then◌else◌, ℕ};
ghost use Rattle.hail_field.specs.Nim.{nim_mul, nim_inv, nim_add};
ghost use Rattle.code_defs.specs.Points.{upto, others_product};
ghost use Rattle.column_codec.specs.ObjectKeys.{AreWeights};

use hail_field::Symbol;

/// A product with x + point as one more factor, where the point is not x.
fn with_gap(x: Symbol, point: Symbol, product: Symbol) -> Symbol
    ensures { result ≡ (if point == x then product else nim_mul (nim_add x point) product) }
{
    if point == x {
        product
    } else {
        x.add(point).mul(product)
    }
}

/// The product of x + point over the points 0 to l - 1 that are not x.
#[tactic(auto, using(crate::proofs::WeightLemmas::gaps_start, crate::proofs::WeightLemmas::gaps_step))]
fn product_of_gaps(x: Symbol, l: u8) -> Symbol
    ensures { result ≡ others_product x (upto l) }
{
    let mut product = Symbol::ONE;
    for p in (0..l).rev() {
        product = with_gap(x, Symbol(u128::from(p)), product);
    }
    product
}

/// The weight of the primary provider at a point, where `whole` is the product of x + point over all l of
/// them, by Lagrange's formula.
fn weight(whole: Symbol, x: Symbol, point: Symbol, l: u8) -> Symbol
    requires { x ≢ point }
    ensures { result ≡ nim_mul whole
        (nim_mul (nim_inv (nim_add x point)) (nim_inv (others_product point (upto l)))) }
{
    let gaps = x.add(point).mul(product_of_gaps(point, l));
    whole.mul(gaps.inv().unwrap())
}

/// The weights at x, which is none of the points 0 to l - 1.
pub fn weights(x: Symbol, l: u8) -> [Symbol; 16]
    requires few { l ≤ 16 }
    requires outside { (p : ℕ) → p < l → x ≢ p }
    ensures { AreWeights l x result }
{
    let mut weights = [Symbol::ZERO; 16];
    let whole = product_of_gaps(x, l);
    for k in 0..l {
        weights[usize::from(k)] = weight(whole, x, Symbol(u128::from(k)), l);
    }
    weights
}
