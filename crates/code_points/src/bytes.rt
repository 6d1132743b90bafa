//! The bytes, which are a field within the nim field: each but 0 is a power of 18.
ghost use Rattle.std.specs.Prelude.{◌≡◌, ◌≢◌};
ghost use Rattle.hail_field.specs.Nim.{nim_add, nim_mul, nim_inv};

use hail_field::tables::{EXP, LOG};

/// The sum of two bytes, which is one.
#[tactic(auto, unfolding(hail_field::specs::Nim::nim_add))]
pub fn byte_sum(a: u8, b: u8) -> u8
    ensures { result ≡ nim_add a b }
{
    a ^ b
}

/// The product of two bytes, which is one: exponents add up.
pub fn byte_product(a: u8, b: u8) -> u8
    ensures { result ≡ nim_mul a b }
{
    if a == 0 || b == 0 {
        return 0;
    }
    EXP[LOG[a as usize] as usize + LOG[b as usize] as usize]
}

/// The inverse of a byte but 0: exponents add up to 255.
pub fn byte_inverse(a: u8) -> u8
    requires { a ≢ 0 }
    ensures { result ≡ nim_inv a }
{
    EXP[255 - LOG[a as usize] as usize]
}
