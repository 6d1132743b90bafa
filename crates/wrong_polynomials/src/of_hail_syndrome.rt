//! Bodies of hail_syndrome's public functions, for its must-fail edits to spoil.
ghost use Rattle.std.specs.Prelude.{◌≡◌, ◌≤◌, ◌+◌, ◌*◌, ◌↔◌, length, MatchOption};
ghost use Rattle.algebra_laws.specs.Lists.{Each};
ghost use Rattle.algebra_laws.specs.Field.{Apart};
ghost use Rattle.hail_poly.specs.Decoding.{IsDecoded, NoneDecodes};
ghost use Rattle.hail_syndrome.specs.Syndromes.{AreValues};

use hail_field::Symbol;
use hail_poly::Work;

/// `syndromes`.
pub fn syndromes(points: &[Symbol], values: &[Symbol], keep: usize, out: &mut [Symbol])
    requires apart { Apart points.now }
    requires even { length points.now ≡ length values.now }
    requires room { keep + length out.old ≡ length values.now }
    ensures zero { Each (λ s. s ≡ 0) out.new ↔ AreValues points.now values.now keep }
{
    hail_syndrome::syndromes(points, values, keep, out);
}

/// `decode_syndromes`.
pub fn decode_syndromes(
    points: &[Symbol],
    values: &[Symbol],
    keep: usize,
    fix: usize,
    work: &mut Work,
) -> Option<()>
    requires apart { Apart points.now }
    requires even { length points.now ≡ length values.now }
    requires keep { 1 ≤ keep }
    requires enough { keep + 2 * fix ≤ length values.now }
    requires room { length points.now ≤ work.old.size }
    ensures decoded { MatchOption result
        (NoneDecodes points.now values.now keep fix)
        (λ _. IsDecoded points.now values.now keep fix work.new.rest) }
{
    hail_syndrome::decode_syndromes(points, values, keep, fix, work)
}
