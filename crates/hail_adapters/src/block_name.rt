ghost use Rattle.std.specs.Prelude.{◌≡◌, ◌∷◌, ◌++◌, string_bytes, OnOk};
ghost use Rattle.hail_adapters.specs.BlockNames.{block_name, object_file, provider_folder};

use std::alloc::AllocError;

/// The most bytes that a block's name has, with the slash before it.
pub const NAME_BYTES: usize = 32;

/// Puts the path of a block's file in place of what `out` holds.
pub fn put_path(out: &mut String, folder: &str, object: u64, stripe: u32) -> Result<(), AllocError>
    ensures { OnOk result (string_bytes out.new ≡ folder.now ++ 47 ∷ block_name object stripe) }
{
    out.clear();
    write!(out, "{folder}/{object}-{stripe}")
}

/// Puts the path of a provider's folder in place of what `out` holds.
pub fn put_folder(out: &mut String, home: &str, provider: u8) -> Result<(), AllocError>
    ensures { OnOk result (string_bytes out.new ≡ home.now ++ provider_folder provider) }
{
    out.clear();
    write!(out, "{home}/provider-{provider}")
}

/// Puts the path of an object's file in place of what `out` holds.
pub fn put_file(out: &mut String, home: &str, provider: u8, object: u64) -> Result<(), AllocError>
    ensures { OnOk result (string_bytes out.new ≡ home.now ++ object_file provider object) }
{
    out.clear();
    write!(out, "{home}/provider-{provider}/{object}")
}
