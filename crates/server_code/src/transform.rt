//! The additive transform: between the values of a polynomial at 2^level points in order and its coefficients
//! in a basis that is made of the polynomials that vanish on the points 0 to 2^i - 1 (S.-J. Lin, W.-H. Chung
//! and Y. S. Han, Novel polynomial basis and its application to Reed-Solomon erasure codes, 2014). In the nim
//! field each of these is s (s + 1), where s is the one before (D. G. Cantor, On arithmetical algorithms over
//! finite fields, 1989), and none needs a norming factor. The points are leaves of a binary tree, whose nodes
//! are numbered from 1, the children of h being 2 h and 2 h + 1.
ghost use Rattle.std.specs.Prelude.{◌≡◌, ◌≤◌, ◌<◌, ◌+◌, ◌*◌, length};
ghost use Rattle.server_code.specs.Products.{AreProducts};
ghost use Rattle.server_code.specs.Transform.{places, joined, parted, inverse as inverse_of, forward as forward_of};

use crate::products::{Multiples, scaled};
use hail_field::Symbol;

/// At each node, the value at its first point of the polynomial that vanishes on as many points from 0 on as
/// are under one of its children, and is 1 at the next. The first entry is not used.
pub const TWIDDLE: [u8; 128] = [
    0, 0, 0, 2, 0, 2, 4, 6, 0, 2, 4, 6, 11, 9, 15, 13, 0, 2, 5, 7, 10, 8, 15, 13, 23, 21, 18, 16,
    29, 31, 24, 26, 0, 2, 5, 7, 8, 10, 13, 15, 20, 22, 17, 19, 28, 30, 25, 27, 39, 37, 34, 32, 47,
    45, 42, 40, 51, 49, 54, 52, 59, 57, 62, 60, 0, 2, 4, 6, 8, 10, 12, 14, 16, 18, 20, 22, 24, 26,
    28, 30, 32, 34, 36, 38, 40, 42, 44, 46, 48, 50, 52, 54, 56, 58, 60, 62, 64, 66, 68, 70, 72, 74,
    76, 78, 80, 82, 84, 86, 88, 90, 92, 94, 96, 98, 100, 102, 104, 106, 108, 110, 112, 114, 116,
    118, 120, 122, 124, 126,
];

/// Makes the coefficients of a node of those of its children.
#[inline(always)]
fn join(products: &[Multiples], c: u8, half: usize, v: &mut [Symbol])
    requires products { AreProducts products.now }
    requires even { length v.old ≡ half + half }
    ensures { v.new ≡ joined half c v.old }
{
    for k in 0..half {
        let left = v[k];
        let sum = left.add(v[half + k]);
        v[half + k] = sum;
        v[k] = left.add(scaled(products, c, sum));
    }
}

/// Makes the coefficients of its children of those of a node.
#[inline(always)]
fn part(products: &[Multiples], c: u8, half: usize, v: &mut [Symbol])
    requires products { AreProducts products.now }
    requires even { length v.old ≡ half + half }
    ensures { v.new ≡ parted half c v.old }
{
    for k in 0..half {
        let sum = v[half + k];
        let left = v[k].add(scaled(products, c, sum));
        v[k] = left;
        v[half + k] = left.add(sum);
    }
}

/// The coefficients, under a node, of 2 values.
#[inline(always)]
fn inverse_2(products: &[Multiples], h: usize, v: &mut [Symbol])
    requires products { AreProducts products.now }
    requires node { h < 128 }
    requires even { length v.old ≡ 2 }
    ensures { v.new ≡ inverse_of 1 h v.old }
{
    join(products, TWIDDLE[h], 1, v);
}

/// The coefficients, under a node, of 4 values.
#[inline(always)]
fn inverse_4(products: &[Multiples], h: usize, v: &mut [Symbol])
    requires products { AreProducts products.now }
    requires node { h < 64 }
    requires even { length v.old ≡ 4 }
    ensures { v.new ≡ inverse_of 2 h v.old }
{
    let (left, right) = v.split_at_mut(2);
    inverse_2(products, 2 * h, left);
    inverse_2(products, 2 * h + 1, right);
    join(products, TWIDDLE[h], 2, v);
}

/// The coefficients, under a node, of 8 values.
fn inverse_8(products: &[Multiples], h: usize, v: &mut [Symbol])
    requires products { AreProducts products.now }
    requires node { h < 32 }
    requires even { length v.old ≡ 8 }
    ensures { v.new ≡ inverse_of 3 h v.old }
{
    let (left, right) = v.split_at_mut(4);
    inverse_4(products, 2 * h, left);
    inverse_4(products, 2 * h + 1, right);
    join(products, TWIDDLE[h], 4, v);
}

/// The coefficients, under a node, of 16 values.
fn inverse_16(products: &[Multiples], h: usize, v: &mut [Symbol])
    requires products { AreProducts products.now }
    requires node { h < 16 }
    requires even { length v.old ≡ 16 }
    ensures { v.new ≡ inverse_of 4 h v.old }
{
    let (left, right) = v.split_at_mut(8);
    inverse_8(products, 2 * h, left);
    inverse_8(products, 2 * h + 1, right);
    join(products, TWIDDLE[h], 8, v);
}

/// The coefficients, under a node, of 32 values.
fn inverse_32(products: &[Multiples], h: usize, v: &mut [Symbol])
    requires products { AreProducts products.now }
    requires node { h < 8 }
    requires even { length v.old ≡ 32 }
    ensures { v.new ≡ inverse_of 5 h v.old }
{
    let (left, right) = v.split_at_mut(16);
    inverse_16(products, 2 * h, left);
    inverse_16(products, 2 * h + 1, right);
    join(products, TWIDDLE[h], 16, v);
}

/// The values of 2 coefficients under a node.
#[inline(always)]
fn forward_2(products: &[Multiples], h: usize, v: &mut [Symbol])
    requires products { AreProducts products.now }
    requires node { h < 128 }
    requires even { length v.old ≡ 2 }
    ensures { v.new ≡ forward_of 1 h v.old }
{
    part(products, TWIDDLE[h], 1, v);
}

/// The values of 4 coefficients under a node.
#[inline(always)]
fn forward_4(products: &[Multiples], h: usize, v: &mut [Symbol])
    requires products { AreProducts products.now }
    requires node { h < 64 }
    requires even { length v.old ≡ 4 }
    ensures { v.new ≡ forward_of 2 h v.old }
{
    part(products, TWIDDLE[h], 2, v);
    let (left, right) = v.split_at_mut(2);
    forward_2(products, 2 * h, left);
    forward_2(products, 2 * h + 1, right);
}

/// The values of 8 coefficients under a node.
fn forward_8(products: &[Multiples], h: usize, v: &mut [Symbol])
    requires products { AreProducts products.now }
    requires node { h < 32 }
    requires even { length v.old ≡ 8 }
    ensures { v.new ≡ forward_of 3 h v.old }
{
    part(products, TWIDDLE[h], 4, v);
    let (left, right) = v.split_at_mut(4);
    forward_4(products, 2 * h, left);
    forward_4(products, 2 * h + 1, right);
}

/// The values of 16 coefficients under a node.
fn forward_16(products: &[Multiples], h: usize, v: &mut [Symbol])
    requires products { AreProducts products.now }
    requires node { h < 16 }
    requires even { length v.old ≡ 16 }
    ensures { v.new ≡ forward_of 4 h v.old }
{
    part(products, TWIDDLE[h], 8, v);
    let (left, right) = v.split_at_mut(8);
    forward_8(products, 2 * h, left);
    forward_8(products, 2 * h + 1, right);
}

/// The values of 32 coefficients under a node.
fn forward_32(products: &[Multiples], h: usize, v: &mut [Symbol])
    requires products { AreProducts products.now }
    requires node { h < 8 }
    requires even { length v.old ≡ 32 }
    ensures { v.new ≡ forward_of 5 h v.old }
{
    part(products, TWIDDLE[h], 16, v);
    let (left, right) = v.split_at_mut(16);
    forward_16(products, 2 * h, left);
    forward_16(products, 2 * h + 1, right);
}

/// The coefficients, under a node, of 2^level values.
pub fn inverse(products: &[Multiples], level: u32, h: usize, v: &mut [Symbol])
    requires products { AreProducts products.now }
    requires least { 3 ≤ level }
    requires most { level ≤ 5 }
    requires node { h * places level < 256 }
    requires even { length v.old ≡ places level }
    ensures { v.new ≡ inverse_of level h v.old }
{
    match level {
        3 => inverse_8(products, h, v),
        4 => inverse_16(products, h, v),
        _ => inverse_32(products, h, v),
    }
}

/// The values of 2^level coefficients under a node.
pub fn forward(products: &[Multiples], level: u32, h: usize, v: &mut [Symbol])
    requires products { AreProducts products.now }
    requires least { 3 ≤ level }
    requires most { level ≤ 5 }
    requires node { h * places level < 256 }
    requires even { length v.old ≡ places level }
    ensures { v.new ≡ forward_of level h v.old }
{
    match level {
        3 => forward_8(products, h, v),
        4 => forward_16(products, h, v),
        _ => forward_32(products, h, v),
    }
}
