ghost use Rattle.std.specs.Prelude.{◌≡◌, ◌≤◌, ◌↔◌, IfOk, IfNone, OnSome, IfSome, IsTrue, length};
ghost use Rattle.code_defs.specs.ServerCode.{codeword, IsCodeword, Opens, OpensToNone, differences};
ghost use Rattle.code_points.specs.Profile.{plain_profile};
ghost use Rattle.server_code.specs.Any.{code_profile};

use crate::code::ServerCode;
use code_points::Profile;
use hail_field::{Memory, Symbol};
use hail_poly::Work;
use std::alloc::Global;

/// The server code of any profile (Bowers, Juels and Oprea, HAIL, 2009: the code within a provider's column).
#[derive(Drop)]
pub enum AnyCode {
    /// Profile 0: 6 symbols a block, 2 of them kept.
    P0(ServerCode<6, 2>),
    /// Profile 1: 16 symbols, 8 kept.
    P1(ServerCode<16, 8>),
    /// Profile 2: 32 symbols, 24 kept.
    P2(ServerCode<32, 24>),
    /// Profile 3: 64 symbols, 48 kept.
    P3(ServerCode<64, 48>),
    /// Profile 4: 128 symbols, 96 kept.
    P4(ServerCode<128, 96>),
}

macro_rules! with_code {
    ($any:expr, $code:ident => $body:expr) => {
        match $any {
            AnyCode::P0($code) => $body,
            AnyCode::P1($code) => $body,
            AnyCode::P2($code) => $body,
            AnyCode::P3($code) => $body,
            AnyCode::P4($code) => $body,
        }
    };
}

impl AnyCode {
    /// The code of a profile, with its coefficients.
    pub fn new(alloc: Global, profile: Profile) -> Result<AnyCode, Memory>
        ensures { IfOk result (λ code. code_profile code ≡ profile) }
    {
        match profile.number {
            0 => Ok(AnyCode::P0(ServerCode::new(alloc, profile)?)),
            1 => Ok(AnyCode::P1(ServerCode::new(alloc, profile)?)),
            2 => Ok(AnyCode::P2(ServerCode::new(alloc, profile)?)),
            3 => Ok(AnyCode::P3(ServerCode::new(alloc, profile)?)),
            4 => Ok(AnyCode::P4(ServerCode::new(alloc, profile)?)),
            _ => unreachable!(),
        }
    }

    /// The profile.
    pub fn profile(&self) -> Profile
        ensures { result ≡ code_profile self.now }
    {
        with_code!(self, code => code.profile)
    }

    /// Fills `out` with the codeword of the kept symbols.
    pub fn encode_into(&self, kept: &[Symbol], out: &mut [Symbol])
        requires kept { length kept.now ≡ (code_profile self.now).keep }
        requires out { length out.old ≡ (code_profile self.now).size }
        ensures { out.new ≡ codeword (plain_profile (code_profile self.now)) kept.now }
    {
        with_code!(self, code => code.encode_into(kept, out))
    }

    /// Whether a block is a codeword.
    pub fn is_codeword(&self, block: &[Symbol]) -> bool
        requires { length block.now ≡ (code_profile self.now).size }
        ensures { IsTrue result ↔ IsCodeword (plain_profile (code_profile self.now)) block.now }
    {
        with_code!(self, code => code.is_codeword(block))
    }

    /// Corrects up to `fix` wrong symbols of a block, and tells how many it changed. None where no codeword
    /// is so near; then the block is unchanged.
    pub fn decode_in(&self, block: &mut [Symbol], work: &mut Work) -> Option<u32>
        requires block { length block.old ≡ (code_profile self.now).size }
        requires room { (code_profile self.now).size ≤ work.old.size }
        ensures none { IfNone result (OpensToNone (plain_profile (code_profile self.now)) block.old) }
        ensures unchanged { IfNone result (block.new ≡ block.old) }
        ensures opened { OnSome result (Opens (plain_profile (code_profile self.now)) block.old block.new) }
        ensures changed { IfSome result (λ count. count ≡ differences block.old block.new) }
        ensures work { work.new.size ≡ work.old.size }
    {
        with_code!(self, code => code.decode_in(block, work))
    }

    /// Corrects a block by a guess alone, which `decode_in` tries before it decodes, and tells how many symbols
    /// it changed. None where the guess is wrong; then the block is unchanged.
    pub fn guess_in(&self, block: &mut [Symbol]) -> Option<u32>
        requires { length block.old ≡ (code_profile self.now).size }
        ensures unchanged { IfNone result (block.new ≡ block.old) }
        ensures opened { OnSome result (Opens (plain_profile (code_profile self.now)) block.old block.new) }
        ensures changed { IfSome result (λ count. count ≡ differences block.old block.new) }
    {
        with_code!(self, code => code.guess_in(block))
    }
}
