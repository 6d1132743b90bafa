use crate::arith::{divide_into, product_into, sum_into};
use crate::load::interpolate_into;
use crate::read::{eval, used};
use hail_field::{Memory, Symbol};
use std::alloc::Global;
use std::marker::Model;

/// A polynomial over the nim field, seen as the list of its coefficients, lowest first and without a zero at
/// the end: 0 is the empty list. The one refusal of its calls is `Memory`.
#[derive(Drop)]
pub struct Poly {
    alloc: Global,
    coefficients: Vec<Symbol>,
}

impl Model for Poly {
    ghost use Rattle.std.specs.Prelude.{◌≡◌, ℕ, List};
    ghost use Rattle.code_defs.specs.Polynomials.{trim};

    ghost Value = { List ℕ };

    ghost view = { λ w. w.coefficients.items };

    ghost invariant = { λ w. w.coefficients.items ≡ trim w.coefficients.items };
}

impl Poly {
    ghost use Rattle.std.specs.Prelude.{◌≡◌, ◌≢◌, ◌≤◌, [], length, IfOk};
    ghost use Rattle.algebra_laws.specs.Field.{Apart};
    ghost use Rattle.code_defs.specs.Polynomials.{value, plus, times, interpolate, trim, TakesSymbols};
    ghost use Rattle.hail_poly.specs.Quotient.{IsDivision};

    /// The polynomial of coefficients in memory.
    fn from_vec(alloc: Global, mut coefficients: Vec<Symbol>) -> Poly
        ensures { result ≡ trim coefficients.items }
    {
        let count = used(&coefficients);
        coefficients.truncate(count);
        Poly {
            alloc,
            coefficients,
        }
    }

    /// The polynomial of these coefficients, lowest first; zeros at the end are dropped.
    pub fn from_slice(alloc: Global, coefficients: &[Symbol]) -> Result<Poly, Memory>
        ensures { IfOk result (λ p. p ≡ trim coefficients.now) }
    {
        let items = Vec::from_slice(alloc, coefficients)?;
        Ok(Poly::from_vec(alloc, items))
    }

    /// The polynomial of degree below the number of points that takes the values at the points.
    pub fn interpolate(alloc: Global, points: &[Symbol], values: &[Symbol]) -> Result<Poly, Memory>
        requires apart { Apart points.now }
        requires even { length points.now ≡ length values.now }
        ensures is { IfOk result (λ p. p ≡ trim (interpolate points.now values.now)) }
        ensures short { IfOk result (λ p. length p ≤ length points.now) }
        ensures takes { IfOk result (λ p. TakesSymbols p points.now values.now) }
    {
        let zero = Symbol::ZERO;
        let mut whole = vec![in alloc; zero; points.len() + 1]?;
        let mut rest = vec![in alloc; zero; points.len()]?;
        interpolate_into(points, values, &mut whole, &mut rest);
        Ok(Poly::from_vec(alloc, rest))
    }

    /// The coefficients, lowest first.
    pub fn coefficients(&self) -> &[Symbol]
        ensures is { result.now ≡ self.now }
        ensures trimmed { result.now ≡ trim result.now }
    {
        &self.coefficients
    }

    /// The value at x.
    pub fn eval(&self, x: Symbol) -> Symbol
        ensures { result ≡ value self.now x }
    {
        eval(&self.coefficients, x)
    }

    /// The sum.
    pub fn add(&self, other: &Poly) -> Result<Poly, Memory>
        ensures { IfOk result (λ p. p ≡ trim (plus self.now other.now)) }
    {
        let zero = Symbol::ZERO;
        let len = self.coefficients.len().max(other.coefficients.len());
        let mut sum = vec![in self.alloc; zero; len]?;
        sum_into(&mut sum, &self.coefficients, &other.coefficients);
        Ok(Poly::from_vec(self.alloc, sum))
    }

    /// The product.
    pub fn mul(&self, other: &Poly) -> Result<Poly, Memory>
        ensures { IfOk result (λ p. p ≡ trim (times self.now other.now)) }
    {
        let zero = Symbol::ZERO;
        let len = self.coefficients.len() + other.coefficients.len();
        let mut product = vec![in self.alloc; zero; len]?;
        product_into(&mut product, &self.coefficients, &other.coefficients);
        Ok(Poly::from_vec(self.alloc, product))
    }

    /// The quotient and the remainder of the division by a polynomial that is not 0. No other two polynomials
    /// fit.
    pub fn div_rem(&self, by: &Poly) -> Result<(Poly, Poly), Memory>
        requires { by.now ≢ [] }
        ensures { IfOk result (λ r. IsDivision self.now by.now r.0 r.1) }
    {
        let zero = Symbol::ZERO;
        let mut rest = Vec::from_slice(self.alloc, &self.coefficients)?;
        let mut quotient = vec![in self.alloc; zero; self.coefficients.len()]?;
        let left = divide_into(&mut rest, &by.coefficients, &mut quotient);
        rest.truncate(left);
        Ok((
            Poly::from_vec(self.alloc, quotient),
            Poly::from_vec(self.alloc, rest),
        ))
    }
}
