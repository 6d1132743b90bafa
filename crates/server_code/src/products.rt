ghost use Rattle.std.specs.Prelude.{◌≡◌, ◌≤◌, ◌<◌, ◌*◌, ℕ, map, slice_index, IfOk};
ghost use Rattle.std.specs.Int.{w128, to_le_bytes};
ghost use Rattle.hail_field.specs.Nim.{nim_mul};
ghost use Rattle.server_code.specs.Products.{AreMultiples, AreProducts};

use code_points::byte_product;
use hail_field::Symbol;
use hail_field::laws::bytes_of_product;
use std::alloc::{AllocError, Global};
use std::simd::prelude::*;

/// The products of a byte with the numbers below 16, and with 16 times these: a product with any byte is the
/// sum of two of them.
#[derive(Clone, Copy)]
pub struct Multiples {
    pub low: [u8; 16],
    pub high: [u8; 16],
}

/// The products of a byte with 16 multiples of `step`.
fn steps(c: u8, step: u8) -> [u8; 16]
    requires { step ≤ 16 }
    ensures { (b : ℕ) → b < 16 → slice_index result b ≡ nim_mul (step * b) c }
{
    let mut out = [0u8; 16];
    for b in 0..16u8 {
        out[usize::from(b)] = byte_product(step * b, c);
    }
    out
}

/// The products of a byte.
fn multiples_of(c: u8) -> Multiples
    ensures { AreMultiples c result }
{
    Multiples {
        low: steps(c, 1),
        high: steps(c, 16),
    }
}

/// The products of each byte, in order.
pub fn products(alloc: Global) -> Result<Vec<Multiples>, AllocError>
    ensures { IfOk result (λ table. AreProducts table.items) }
{
    let mut table = Vec::with_capacity(alloc, 256)?;
    for c in 0..256u32 {
        table.push(multiples_of(c as u8))?;
    }
    Ok(table)
}

/// The bytes of a symbol, lowest first. The two halves go into a vector faster than the bytes would.
fn lanes(a: Symbol) -> u8x16
    ensures { result ≡ to_le_bytes w128 a }
{
    let low = (a.0 % 18_446_744_073_709_551_616) as u64;
    let high = (a.0 >> 64) as u64;
    u64x2::from_array([low, high]).to_le_bytes()
}

/// The products of a byte, from the table.
fn entry(products: &[Multiples], c: u8) -> Multiples
    requires { AreProducts products.now }
    ensures { AreMultiples c result }
{
    products[usize::from(c)]
}

/// c times a symbol: c acts on each of its bytes by itself. The products of the low and of the high halves of
/// all bytes are looked up at once.
pub fn scaled(products: &[Multiples], c: u8, a: Symbol) -> Symbol
    requires { AreProducts products.now }
    ensures { result ≡ nim_mul c a }
{
    let multiples = entry(products, c);
    let bytes = lanes(a);
    let low = u8x16::from_array(multiples.low).swizzle_dyn_within::<16>(bytes & u8x16::splat(15));
    let high = u8x16::from_array(multiples.high).swizzle_dyn_within::<16>(bytes >> u8x16::splat(4));
    let out = low ^ high;
    bytes_of_product(a, c);
    Symbol::from_bytes(out.to_array())
}
