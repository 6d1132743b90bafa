//! Bodies of server_code's public functions, for its must-fail edits to spoil.
ghost use Rattle.std.specs.Prelude.{◌≡◌, ◌≤◌, ◌↔◌, IfNone, OnSome, IsTrue, length};
ghost use Rattle.code_defs.specs.ServerCode.{codeword, IsCodeword, Opens, OpensToNone};
ghost use Rattle.code_points.specs.Profile.{plain_profile};

use hail_field::Symbol;
use hail_poly::Work;
use server_code::ServerCode;

/// `ServerCode::encode_into`.
pub fn encode_into<const N: usize, const K: usize>(
    code: &ServerCode<N, K>,
    kept: &[Symbol],
    out: &mut [Symbol],
)
    requires kept { length kept.now ≡ K }
    requires out { length out.old ≡ N }
    ensures { out.new ≡ codeword (plain_profile code.now.profile) kept.now }
{
    code.encode_into(kept, out);
}

/// `ServerCode::is_codeword`.
pub fn is_codeword<const N: usize, const K: usize>(
    code: &ServerCode<N, K>,
    block: &[Symbol],
) -> bool
    requires { length block.now ≡ N }
    ensures { IsTrue result ↔ IsCodeword (plain_profile code.now.profile) block.now }
{
    code.is_codeword(block)
}

/// `ServerCode::decode_in`.
pub fn decode_in<const N: usize, const K: usize>(
    code: &ServerCode<N, K>,
    block: &mut [Symbol],
    work: &mut Work,
) -> Option<u32>
    requires block { length block.old ≡ N }
    requires room { N ≤ work.old.size }
    ensures none { IfNone result (OpensToNone (plain_profile code.now.profile) block.old) }
    ensures unchanged { IfNone result (block.new ≡ block.old) }
    ensures opened { OnSome result (Opens (plain_profile code.now.profile) block.old block.new) }
{
    code.decode_in(block, work)
}

/// `ServerCode::guess_in`.
pub fn guess_in<const N: usize, const K: usize>(
    code: &ServerCode<N, K>,
    block: &mut [Symbol],
) -> Option<u32>
    requires { length block.old ≡ N }
    ensures opened { OnSome result (Opens (plain_profile code.now.profile) block.old block.new) }
{
    code.guess_in(block)
}
