ghost use Rattle.std.specs.Prelude.{◌≡◌, ◌↔◌, length, IsSome, IfSome};
ghost use Rattle.std.specs.List.{AllPass};
ghost use Rattle.hex.specs.Hex.{decode_of, is_hex_digit};

use hex::FromHex;

/// A master key of 32 bytes, from which all keys of a vault are derived.
#[derive(Clone, Copy, Debug, PartialEq, Eq)]
pub struct Master(pub [u8; 32]);

impl Master {
    /// The key that 64 hexadecimal digits of either case spell, the first byte first; none where the text is
    /// anything else.
    pub fn from_hex(text: &[u8]) -> Option<Master>
        ensures found { IsSome result ↔ ((length text.now ≡ 64) × AllPass is_hex_digit text.now) }
        ensures value { IfSome result (λ master. decode_of text.now ≡ Ok master.0) }
    {
        match <[u8; 32] as FromHex>::from_hex(text) {
            Ok(bytes) => Some(Master(bytes)),
            Err(_) => None,
        }
    }
}
