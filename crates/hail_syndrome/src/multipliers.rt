ghost use Rattle.std.specs.Prelude.{◌≡◌, ◌<◌, length, slice_index, IfSome, cond, nat_eq};
ghost use Rattle.std.specs.Bool.{OnTrue};
ghost use Rattle.hail_field.specs.Nim.{nim_add, nim_mul};
ghost use Rattle.code_defs.specs.Points.{upto, others_product as others_product_of, multiplier as multiplier_of};

use code_points::{Profile, find_profile, multiplier};
use hail_field::Symbol;

/// The product of x + point over the points that are not x.
#[tactic(auto, using(crate::proofs::MultiplierSteps::others_step, crate::proofs::MultiplierSteps::others_past))]
fn others_product(x: Symbol, points: &[Symbol]) -> Symbol
    ensures { result ≡ others_product_of x points.now }
{
    let mut product = Symbol::ONE;
    for k in (0..points.len()).rev() {
        product = factor_more(x, points[k], product);
    }
    product
}

/// One factor more, if the point is another.
fn factor_more(x: Symbol, point: Symbol, product: Symbol) -> Symbol
    ensures { result ≡ cond (nat_eq point x) product (nim_mul (nim_add x point) product) }
{
    if point == x {
        product
    } else {
        x.add(point).mul(product)
    }
}

/// The inverse of the product of x + point over the points that are not x.
fn inverse_of_others(x: Symbol, points: &[Symbol]) -> Symbol
    ensures { result ≡ multiplier_of x points.now }
{
    others_product(x, points).inv().unwrap()
}

/// Whether the points are the numbers from 0 on.
fn are_places(points: &[Symbol]) -> bool
    ensures { OnTrue result (points.now ≡ upto (length points.now)) }
{
    for k in 0..points.len() {
        if points[k] != Symbol(k as u128) {
            return false;
        }
    }
    true
}

/// The profile of blocks of as many symbols, if there is one.
fn profile_of_size(size: usize) -> Option<Profile>
    ensures { IfSome result (λ profile. profile.size ≡ size) }
{
    match size {
        6 => find_profile(0),
        16 => find_profile(1),
        32 => find_profile(2),
        64 => find_profile(3),
        128 => find_profile(4),
        _ => None,
    }
}

/// The profile whose points these are, if there is one.
pub fn profile_of_points(points: &[Symbol]) -> Option<Profile>
    ensures { IfSome result (λ profile. points.now ≡ upto profile.size) }
{
    if !are_places(points) {
        return None;
    }
    profile_of_size(points.len())
}

/// The multiplier of the point at a place: from the table, where the points are those of a profile.
pub fn multiplier_at(known: Option<Profile>, points: &[Symbol], place: usize) -> Symbol
    requires known { IfSome known (λ profile. points.now ≡ upto profile.size) }
    requires place { place < length points.now }
    ensures { result ≡ multiplier_of (slice_index points.now place) points.now }
{
    match known {
        Some(profile) => multiplier(profile, place as u32),
        None => inverse_of_others(points[place], points),
    }
}
