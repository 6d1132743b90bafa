//! Bodies of hail_poly's public functions, for its must-fail edits to spoil.
ghost use Rattle.std.specs.Prelude.{◌≡◌, ◌≢◌, ◌≤◌, [], length, IfOk};
ghost use Rattle.std.specs.Bool.{OnTrue};
ghost use Rattle.algebra_laws.specs.Field.{Apart};
ghost use Rattle.code_defs.specs.Polynomials.{value, trim, times, TakesSymbols};
ghost use Rattle.hail_poly.specs.Quotient.{IsDivision, IsQuotient};
ghost use Rattle.hail_poly.specs.Registers.{IsLoaded};

use hail_field::{Memory, Symbol};
use hail_poly::{Poly, Work};
use std::alloc::Global;

/// `eval`.
pub fn eval(coefficients: &[Symbol], x: Symbol) -> Symbol
    ensures { result ≡ value coefficients.now x }
{
    hail_poly::eval(coefficients, x)
}

/// `Poly::interpolate`.
pub fn interpolate(alloc: Global, points: &[Symbol], values: &[Symbol]) -> Result<Poly, Memory>
    requires apart { Apart points.now }
    requires even { length points.now ≡ length values.now }
    ensures takes { IfOk result (λ p. TakesSymbols p points.now values.now) }
{
    Poly::interpolate(alloc, points, values)
}

/// `Poly::mul`.
pub fn mul(poly: &Poly, other: &Poly) -> Result<Poly, Memory>
    ensures { IfOk result (λ p. p ≡ trim (times poly.now other.now)) }
{
    poly.mul(other)
}

/// `Poly::div_rem`.
pub fn div_rem(poly: &Poly, by: &Poly) -> Result<(Poly, Poly), Memory>
    requires { by.now ≢ [] }
    ensures { IfOk result (λ r. IsDivision poly.now by.now r.0 r.1) }
{
    poly.div_rem(by)
}

/// `Work::euclid`.
pub fn euclid(work: &mut Work, below: usize)
    requires { IsLoaded work.old }
    ensures below { length work.new.rest ≤ below }
{
    work.euclid(below);
}

/// `Work::divide`.
pub fn divide(work: &mut Work) -> bool
    requires { work.old.factor ≢ [] }
    ensures quotient { OnTrue result (IsQuotient work.old.rest work.old.factor work.new.rest) }
{
    work.divide()
}
