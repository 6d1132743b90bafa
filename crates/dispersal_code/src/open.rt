ghost use Rattle.std.specs.Prelude.{◌≡◌, ◌≤◌, length, OnSome, IfNone};
ghost use Rattle.algebra_laws.specs.Field.{Apart};
ghost use Rattle.code_defs.specs.DispersalCode.{Accepts, AcceptsNone, IsOnlyAccepted};

use crate::present::present_of;
use hail_field::{Shape, Symbol};
use hail_poly::{Work, agreements};
use hail_syndrome::decode_syndromes;

/// Looks for the polynomial of degree below `l` that agrees with all but `b` of a row's symbols, an absent
/// one among those that don't agree (the dispersal code of Bowers, Juels and Oprea, HAIL, 2009; the threshold
/// is this project's own). It is then the rest of `work`. The first look is at the polynomial through the
/// first `l` present symbols.
pub fn open_row(
    points: &[Symbol],
    seen: &[Option<Symbol>],
    shape: Shape,
    work: &mut Work,
) -> Option<()>
    requires apart { Apart points.now }
    requires even { length points.now ≡ length seen.now }
    requires whole { length seen.now ≡ shape.n }
    requires room { 16 ≤ work.old.size }
    ensures accepted { OnSome result (Accepts points.now seen.now shape.l shape.b work.new.rest) }
    ensures only { OnSome result (IsOnlyAccepted points.now seen.now shape.l shape.b work.new.rest) }
    ensures none { IfNone result (AcceptsNone points.now seen.now shape.l shape.b) }
    ensures room { work.new.size ≡ work.old.size }
{
    let keep = usize::from(shape.l);
    let need = usize::from(shape.n - shape.b);
    let present = present_of(points, seen);
    if present.len() < need {
        return None;
    }
    work.load(&present.points()[..keep], &present.symbols()[..keep]);
    if agreements(work.rest(), present.points(), present.symbols()) >= need {
        return Some(());
    }
    let fix = present.len() - need;
    decode_syndromes(present.points(), present.symbols(), keep, fix, work)?;
    Some(())
}
