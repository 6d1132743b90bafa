//! A body of hail_gao's public function, for its must-fail edits to spoil.
ghost use Rattle.std.specs.Prelude.{◌≡◌, ◌≤◌, ◌+◌, ◌*◌, length, MatchOption};
ghost use Rattle.algebra_laws.specs.Field.{Apart};
ghost use Rattle.hail_poly.specs.Decoding.{IsDecoded, NoneDecodes};

use hail_field::Symbol;
use hail_poly::Work;

/// `decode_gao`.
pub fn decode_gao(
    points: &[Symbol],
    values: &[Symbol],
    keep: usize,
    fix: usize,
    work: &mut Work,
) -> Option<()>
    requires apart { Apart points.now }
    requires even { length points.now ≡ length values.now }
    requires keep { 1 ≤ keep }
    requires enough { keep + 2 * fix ≤ length values.now }
    requires room { length points.now ≤ work.old.size }
    ensures decoded { MatchOption result
        (NoneDecodes points.now values.now keep fix)
        (λ _. IsDecoded points.now values.now keep fix work.new.rest) }
{
    hail_gao::decode_gao(points, values, keep, fix, work)
}
