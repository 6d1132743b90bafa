ghost use Rattle.std.specs.Prelude.{◌≡◌, ◌≤◌, ◌+◌, ◌*◌, ◌-◌, ◌∷◌, [], length, MatchOption};
ghost use Rattle.algebra_laws.specs.Field.{Apart};
ghost use Rattle.hail_poly.specs.Decoding.{IsDecoded, NoneDecodes};
ghost use Rattle.hail_poly.specs.Key.{power, key};
ghost use Rattle.hail_syndrome.specs.Syndromes.{syndromes_of};

use crate::gather::gather;
use crate::syndrome::syndromes;
use hail_field::Symbol;
use hail_poly::{MOST, Work, agreements};

/// Puts the key equation of the syndromes into the registers; they are made in `buffer` first.
fn load_syndromes(
    points: &[Symbol],
    values: &[Symbol],
    keep: usize,
    buffer: &mut [Symbol],
    work: &mut Work,
)
    requires apart { Apart points.now }
    requires even { length points.now ≡ length values.now }
    requires enough { keep ≤ length values.now }
    requires room { length points.now ≤ work.old.size }
    requires buffer { length points.now ≤ length buffer.old }
    ensures { work.new ≡ record {
      size = work.old.size;
      whole = power (length points.now - keep);
      rest = key (syndromes_of points.now values.now (length points.now - keep));
      factor = 1 ∷ [];
    } }
{
    let count = points.len() - keep;
    syndromes(points, values, keep, &mut buffer[..count]);
    work.load_key(&buffer[..count]);
}

/// The decoder by syndromes, with Euclid's algorithm (Sugiyama and others, 1975). Looks for the polynomial of
/// degree below `keep` that takes all the values at the points but `fix` of them; where there is one, it is
/// then the rest of `work`. None exactly where there is none.
pub fn decode_syndromes(
    points: &[Symbol],
    values: &[Symbol],
    keep: usize,
    fix: usize,
    work: &mut Work,
) -> Option<()>
    requires apart { Apart points.now }
    requires even { length points.now ≡ length values.now }
    requires keep { 1 ≤ keep }
    requires enough { keep + 2 * fix ≤ length values.now }
    requires room { length points.now ≤ work.old.size }
    ensures size { work.new.size ≡ work.old.size }
    ensures decoded { MatchOption result
        (NoneDecodes points.now values.now keep fix)
        (λ _. IsDecoded points.now values.now keep fix work.new.rest) }
{
    let _room = work.size();
    let mut sound = [Symbol::ZERO; MOST];
    let mut seen = [Symbol::ZERO; MOST];
    load_syndromes(points, values, keep, &mut sound, work);
    work.euclid(points.len() - keep - fix);
    gather(points, values, work, &mut sound, &mut seen);
    work.load(&sound[..keep], &seen[..keep]);
    if agreements(work.rest(), points, values) + fix < points.len() {
        return None;
    }
    Some(())
}
