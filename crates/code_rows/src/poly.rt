ghost use Rattle.std.specs.Prelude.{◌≡◌, ◌≤◌};

use crate::given::*;
use hail_field::Symbol;
use hail_poly::{Poly, Work, eval};
use std::alloc::Global;
use std::process::Abort;

/// The polynomial with these numbers as coefficients, lowest first.
fn poly(rt: &impl Abort, alloc: Global, [a, b, c]: [u128; 3]) -> Poly {
    Poly::from_slice(alloc, &[Symbol(a), Symbol(b), Symbol(c)]).expect(rt, "memory")
}

/// The line through (0, 0) and (1, 5).
fn line(rt: &impl Abort, alloc: Global) -> Poly {
    let points = [Symbol(0), Symbol(1)];
    let values = [Symbol(0), Symbol(5)];
    Poly::interpolate(alloc, &points, &values).expect(rt, "memory")
}

/// Whether the division leaves 5 x and no remainder.
fn leaves_the_line(product: &Poly, by: &Poly) -> bool {
    if by.coefficients().is_empty() {
        return false;
    }
    match product.div_rem(by) {
        Ok((found, rest)) => are_numbers(found.coefficients(), &[0, 5])
            && rest.coefficients().is_empty(),
        Err(_) => false,
    }
}

/// Whether the product with 1 + x is as worked out, and is divided by it.
fn multiplies(line: &Poly, one_and_x: &Poly) -> bool {
    match line.mul(one_and_x) {
        Ok(product) => {
            are_numbers(product.coefficients(), &[0, 5, 5]) && leaves_the_line(&product, one_and_x)
        }
        Err(_) => false,
    }
}

/// Whether nothing is left of a line and itself.
fn cancels(line: &Poly) -> bool {
    match line.add(line) {
        Ok(sum) => sum.coefficients().is_empty(),
        Err(_) => false,
    }
}

/// Whether 5 x and 1 + x are as worked out, and what is made of them.
fn compute(line: &Poly, one_and_x: &Poly) -> bool {
    are_numbers(line.coefficients(), &[0, 5])
        && are_numbers(one_and_x.coefficients(), &[1, 1])
        && line.eval(Symbol(4)).0 == 2
        && multiplies(line, one_and_x)
        && cancels(line)
}

#[test]
fn polynomials_interpolate_multiply_divide_and_add(rt: HostRuntime) {
    let line = line(&rt, rt.alloc());
    let one_and_x = poly(&rt, rt.alloc(), [1, 1, 0]);
    assert!(rt; compute(&line, &one_and_x));
}

/// The number of the value of 5 + 7 x + 9 x^2 at 300.
fn value() -> u128 {
    eval(&[Symbol(5), Symbol(7), Symbol(9)], Symbol(300)).0
}

#[test]
fn coefficients_have_a_value_at_a_symbol(rt: HostRuntime) {
    assert!(rt; value() == 3773);
}

/// Whether registers loaded with three points have the polynomial through them, and Euclid's algorithm leaves
/// the row that another program computed.
fn run_euclid(work: &mut Work) -> bool
    requires { 3 ≤ work.old.size }
    ensures { work.new.size ≡ work.old.size }
{
    let points = [Symbol(0), Symbol(1), Symbol(2)];
    let values = [Symbol(0), Symbol(5), Symbol(3)];
    work.load(&points, &values);
    if !are_numbers(work.rest(), &[0, 12, 9]) || work.value(Symbol(2)).0 != 3 {
        return false;
    }
    work.euclid(2);
    are_numbers(work.rest(), &[0, 9])
}

/// Whether registers take a polynomial without its zero at the end, and divide that of one point by 1.
fn divide(work: &mut Work) -> bool
    requires { 2 ≤ work.old.size }
{
    work.set_rest(&[Symbol(7), Symbol(0)]);
    let is_set = are_numbers(work.rest(), &[7]);
    work.load(&[Symbol(0)], &[Symbol(5)]);
    is_set && work.divide() && are_numbers(work.rest(), &[5])
}

#[test]
fn registers_load_run_euclid_and_divide(rt: HostRuntime) {
    let mut work = work(&rt, rt.alloc(), 128);
    assert!(rt; run_euclid(&mut work) && divide(&mut work));
}

/// Whether Euclid's algorithm finds by four syndromes that the places 4 and 5 are wrong, and 0 is not.
fn find_the_wrong_places(work: &mut Work) -> bool
    requires { 4 ≤ work.old.size }
    ensures { work.new.size ≡ work.old.size }
{
    work.load_key(&six([5, 5, 15, 5, 0, 0])[..4]);
    if !are_numbers(work.rest(), &[5, 15, 5, 5]) || work.factor_at(Symbol(9)).0 != 1 {
        return false;
    }
    work.euclid(2);
    let at_4 = work.factor_at(Symbol(4)).0;
    let at_5 = work.factor_at(Symbol(5)).0;
    let at_0 = work.factor_at(Symbol(0)).0;
    at_4 == 0 && at_5 == 0 && at_0 != 0
}

/// Whether the zero before the last syndrome stays.
fn load_a_zero(work: &mut Work) -> bool
    requires { 2 ≤ work.old.size }
{
    work.load_key(&[Symbol(3), Symbol(0)]);
    are_numbers(work.rest(), &[0, 3])
}

#[test]
fn registers_load_a_key_equation_and_find_the_wrong_places(rt: HostRuntime) {
    let mut work = work(&rt, rt.alloc(), 6);
    assert!(rt; find_the_wrong_places(&mut work) && load_a_zero(&mut work));
}
