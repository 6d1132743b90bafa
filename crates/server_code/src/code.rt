ghost use Rattle.std.specs.Prelude.{◌≡◌};
ghost use Rattle.code_points.specs.Profile.{plain_profile};

use crate::correct::correct;
use crate::open::open_block;
use crate::tables::Tables;
use code_points::Profile;
use hail_field::{Memory, Symbol};
use hail_poly::Work;
use std::alloc::Global;

/// The server code of blocks of `N` symbols, of which the first `K` are the kept ones.
#[derive(Drop)]
pub struct ServerCode<const N: usize, const K: usize> {
    pub profile: Profile,
    tables: Tables,
    pub ghost size_is: { profile.size ≡ N },
    pub ghost keep_is: { profile.keep ≡ K },
    ghost tables_are: { tables.profile ≡ profile },
}

impl<const N: usize, const K: usize> ServerCode<N, K> {
    ghost use Rattle.std.specs.Prelude.{◌≤◌, ◌↔◌, IfOk, IfNone, OnSome, IfSome, IsTrue, length};
    ghost use Rattle.code_defs.specs.ServerCode.{codeword, IsCodeword, Opens, OpensToNone, differences};

    /// The code of a profile, with its coefficients.
    pub fn new(alloc: Global, profile: Profile) -> Result<ServerCode<N, K>, Memory>
        requires size { profile.size ≡ N }
        requires keep { profile.keep ≡ K }
        ensures { IfOk result (λ code. code.profile ≡ profile) }
    {
        let tables = Tables::new(alloc, profile)?;
        Ok(ServerCode { profile, tables })
    }

    /// Fills `out` with the codeword of the kept symbols.
    pub fn encode_into(&self, kept: &[Symbol], out: &mut [Symbol])
        requires kept { length kept.now ≡ K }
        requires out { length out.old ≡ N }
        ensures { out.new ≡ codeword (plain_profile self.now.profile) kept.now }
    {
        self.tables.encode(kept, out);
    }

    /// Whether a block is a codeword.
    pub fn is_codeword(&self, block: &[Symbol]) -> bool
        requires { length block.now ≡ N }
        ensures { IsTrue result ↔ IsCodeword (plain_profile self.now.profile) block.now }
    {
        self.tables.is_codeword(block)
    }

    /// Corrects up to `fix` wrong symbols of a block, and tells how many it changed. None where no codeword
    /// is so near; then the block is unchanged.
    pub fn decode_in(&self, block: &mut [Symbol], work: &mut Work) -> Option<u32>
        requires block { length block.old ≡ N }
        requires room { N ≤ work.old.size }
        ensures none { IfNone result (OpensToNone (plain_profile self.now.profile) block.old) }
        ensures unchanged { IfNone result (block.new ≡ block.old) }
        ensures opened { OnSome result (Opens (plain_profile self.now.profile) block.old block.new) }
        ensures changed { IfSome result (λ count. count ≡ differences block.old block.new) }
        ensures work { work.new.size ≡ work.old.size }
    {
        open_block(&self.tables, block, work)
    }

    /// Corrects a block by a guess alone, which `decode_in` tries before it decodes, and tells how many symbols
    /// it changed. None where the guess is wrong; then the block is unchanged.
    pub fn guess_in(&self, block: &mut [Symbol]) -> Option<u32>
        requires { length block.old ≡ N }
        ensures unchanged { IfNone result (block.new ≡ block.old) }
        ensures opened { OnSome result (Opens (plain_profile self.now.profile) block.old block.new) }
        ensures changed { IfSome result (λ count. count ≡ differences block.old block.new) }
    {
        correct(&self.tables, block)
    }
}
