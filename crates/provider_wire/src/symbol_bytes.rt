// The symbols of bytes: 16 a symbol, the lowest first.
ghost use Rattle.std.specs.Prelude.{◌≡◌, ◌*◌, ◌≤◌, length};
ghost use Rattle.std.specs.Int.{w128, from_le_bytes};
ghost use Rattle.provider_wire.specs.Reading.{symbols_read};

use hail_field::Symbol;

/// The bytes of a symbol.
pub const SYMBOL_BYTES: usize = 16;

/// The symbol of 16 bytes.
pub fn symbol_of(bytes: &[u8]) -> Symbol
    requires { length bytes.now ≡ 16 }
    ensures { result ≡ from_le_bytes w128 bytes.now }
{
    let mut own = [0; SYMBOL_BYTES];
    own.copy_from_slice(bytes);
    Symbol::from_bytes(own)
}

/// Fills `out` with the symbols of these bytes.
pub fn take_symbols(bytes: &[u8], out: &mut [Symbol])
    requires few { length out.old ≤ 128 }
    requires fits { length bytes.now ≡ 16 * length out.old }
    ensures { out.new ≡ symbols_read (length out.old) bytes.now }
{
    for k in 0..out.len() {
        let at = SYMBOL_BYTES * k;
        out[k] = symbol_of(&bytes[at..at + SYMBOL_BYTES]);
    }
}
