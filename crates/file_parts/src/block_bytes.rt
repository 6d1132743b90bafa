// The bytes of a block: 16 a symbol, the lowest first.
ghost use Rattle.std.specs.Prelude.{◌≡◌, ◌*◌, ◌≤◌, length};
ghost use Rattle.std.specs.Int.{w128, to_le_bytes};
ghost use Rattle.column_defs.specs.Objects.{bytes_of_symbols};

use hail_field::{Symbol, laws};
use std::simd::prelude::*;

/// The bytes of a symbol.
pub const SYMBOL_BYTES: usize = 16;

/// The bytes of the longest block.
pub const BLOCK_BYTES: usize = 2048;

/// The bytes of a symbol, lowest first. The two halves go into a vector faster than the bytes would.
fn lanes(symbol: Symbol) -> u8x16
    ensures { result ≡ to_le_bytes w128 symbol }
{
    let low = (symbol.0 % 18_446_744_073_709_551_616) as u64;
    let high = (symbol.0 >> 64) as u64;
    u64x2::from_array([low, high]).to_le_bytes()
}

/// Fills `out` with the bytes of a block.
pub fn put_symbols(block: &[Symbol], out: &mut [u8])
    requires few { length block.now ≤ 128 }
    requires fits { length out.old ≡ 16 * length block.now }
    ensures { out.new ≡ bytes_of_symbols block.now }
{
    for k in 0..block.len() {
        let at = SYMBOL_BYTES * k;
        out[at..at + SYMBOL_BYTES].copy_from_slice(&lanes(block[k]).to_array());
    }
}

/// The symbol of 16 bytes.
pub fn symbol_of(bytes: &[u8]) -> Symbol
    requires { length bytes.now ≡ 16 }
    ensures { to_le_bytes w128 result ≡ bytes.now }
{
    let mut own = [0; SYMBOL_BYTES];
    own.copy_from_slice(bytes);
    laws::symbol_gives_bytes_back(own);
    Symbol::from_bytes(own)
}

/// Fills `out` with the block of these bytes.
pub fn take_symbols(bytes: &[u8], out: &mut [Symbol])
    requires few { length out.old ≤ 128 }
    requires fits { length bytes.now ≡ 16 * length out.old }
    ensures { bytes_of_symbols out.new ≡ bytes.now }
{
    for k in 0..out.len() {
        let at = SYMBOL_BYTES * k;
        out[k] = symbol_of(&bytes[at..at + SYMBOL_BYTES]);
    }
}
