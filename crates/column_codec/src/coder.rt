ghost use Rattle.std.specs.Prelude.{◌≡◌};
ghost use Rattle.server_code.specs.Any.{code_profile};

use crate::keys::ObjectKeys;
use server_code::AnyCode;

/// What the blocks of one stripe are made and opened with: the keys of its object, the server code of its
/// profile, and its number.
#[derive(Clone, Copy)]
pub struct StripeCoder<'a> {
    pub keys: &'a ObjectKeys,
    pub code: &'a AnyCode,
    pub stripe: u32,
    pub ghost code_fits: { code_profile code.now ≡ keys.now.file.profile },
}
