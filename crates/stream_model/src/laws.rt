//! What holds of every byte.
ghost use Rattle.std.specs.Prelude.{All};
ghost use Rattle.device_defs.specs.Told.{IsByte};

/// A byte is a number below 256.
pub fn byte_is_in_range(byte: u8)
    ensures { IsByte byte }
{}

/// Each byte of a slice is such a number. A check learns it of an element once it is read, so this reads them
/// all.
pub fn bytes_are_in_range(bytes: &[u8])
    ensures { All IsByte bytes.now }
{
    for k in 0..bytes.len() {
        byte_is_in_range(bytes[k]);
    }
}
