ghost use Rattle.std.specs.Prelude.{◌≡◌, ◌≤◌, IfNone, OnSome, IfSome, length};
ghost use Rattle.code_defs.specs.ServerCode.{Opens, OpensToNone, differences};
ghost use Rattle.code_points.specs.Profile.{plain_profile};

use crate::behind::decode;
use crate::correct::correct;
use crate::tables::Tables;
use hail_field::Symbol;
use hail_poly::Work;

/// Corrects up to `fix` wrong symbols of a block, and tells how many it changed. None where no codeword is so
/// near; then the block is unchanged. A codeword is left as it is; else a guess is tried, and where it is
/// wrong, the decoder decides.
pub fn open_block(tables: &Tables, block: &mut [Symbol], work: &mut Work) -> Option<u32>
    requires block { length block.old ≡ tables.now.profile.size }
    requires room { tables.now.profile.size ≤ work.old.size }
    ensures none { IfNone result (OpensToNone (plain_profile tables.now.profile) block.old) }
    ensures unchanged { IfNone result (block.new ≡ block.old) }
    ensures opened { OnSome result (Opens (plain_profile tables.now.profile) block.old block.new) }
    ensures changed { IfSome result (λ count. count ≡ differences block.old block.new) }
    ensures work { work.new.size ≡ work.old.size }
{
    if tables.is_clean(block) {
        return Some(0);
    }
    if let Some(changed) = correct(tables, block) {
        return Some(changed);
    }
    decode(tables, block, work)
}
