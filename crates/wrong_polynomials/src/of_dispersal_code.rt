//! Bodies of dispersal_code's public functions, for its must-fail edits to spoil.
ghost use Rattle.std.specs.Prelude.{◌≡◌, ◌≤◌, length, OnSome, IfNone};
ghost use Rattle.algebra_laws.specs.Field.{Apart};
ghost use Rattle.code_defs.specs.DispersalCode.{Accepts, AcceptsNone, row_of};

use hail_field::{Shape, Symbol};
use hail_poly::Work;

/// `encode_row`.
pub fn encode_row(points: &[Symbol], primary: &[Symbol], out: &mut [Symbol], work: &mut Work)
    requires apart { Apart points.now }
    requires few { length points.now ≤ 16 }
    requires fits { length primary.now ≤ length points.now }
    requires out_fits { length out.old ≡ length points.now }
    requires room { 16 ≤ work.old.size }
    ensures row { out.new ≡ row_of points.now primary.now }
{
    dispersal_code::encode_row(points, primary, out, work);
}

/// `open_row`.
pub fn open_row(
    points: &[Symbol],
    seen: &[Option<Symbol>],
    shape: Shape,
    work: &mut Work,
) -> Option<()>
    requires apart { Apart points.now }
    requires even { length points.now ≡ length seen.now }
    requires whole { length seen.now ≡ shape.n }
    requires room { 16 ≤ work.old.size }
    ensures accepted { OnSome result (Accepts points.now seen.now shape.l shape.b work.new.rest) }
    ensures none { IfNone result (AcceptsNone points.now seen.now shape.l shape.b) }
{
    dispersal_code::open_row(points, seen, shape, work)
}
