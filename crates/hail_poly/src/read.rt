ghost use Rattle.std.specs.Prelude.{◌≡◌, ◌≤◌, length, take};
ghost use Rattle.code_defs.specs.Polynomials.{value, trim};

use hail_field::Symbol;

/// The value of a polynomial at x.
#[tactic(auto, using(crate::proofs::Steps::value_step, crate::proofs::Steps::value_past))]
pub fn eval(coefficients: &[Symbol], x: Symbol) -> Symbol
    ensures { result ≡ value coefficients.now x }
{
    let mut sum = Symbol::ZERO;
    for k in (0..coefficients.len()).rev() {
        sum = coefficients[k].add(x.mul(sum));
    }
    sum
}

/// How many coefficients there are up to the last that is not zero.
#[tactic(auto, using(crate::proofs::TrimSteps::trim_step, crate::proofs::TrimSteps::trim_stop, crate::proofs::TrimSteps::trim_none))]
pub fn used(coefficients: &[Symbol]) -> usize
    ensures bound { result ≤ length coefficients.now }
    ensures trimmed { take result coefficients.now ≡ trim coefficients.now }
    ensures stays { take result coefficients.now ≡ trim (take result coefficients.now) }
{
    let mut count = coefficients.len();
    while count > 0 && coefficients[count - 1].is_zero() {
        count -= 1;
    }
    count
}
