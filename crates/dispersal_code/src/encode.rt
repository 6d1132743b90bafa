ghost use Rattle.std.specs.Prelude.{◌≡◌, ◌≤◌, length};
ghost use Rattle.algebra_laws.specs.Field.{Apart};
ghost use Rattle.code_defs.specs.DispersalCode.{row_of};

use hail_field::Symbol;
use hail_poly::Work;

/// Fills `out` with a row: the values, at all points, of the polynomial of degree below the number of primary
/// symbols that takes these at the first points (Bowers, Juels and Oprea, HAIL, 2009: a systematic
/// Reed-Solomon code).
pub fn encode_row(points: &[Symbol], primary: &[Symbol], out: &mut [Symbol], work: &mut Work)
    requires apart { Apart points.now }
    requires few { length points.now ≤ 16 }
    requires fits { length primary.now ≤ length points.now }
    requires out_fits { length out.old ≡ length points.now }
    requires room { 16 ≤ work.old.size }
    ensures row { out.new ≡ row_of points.now primary.now }
    ensures room { work.new.size ≡ work.old.size }
{
    work.load(&points[..primary.len()], primary);
    for k in 0..points.len() {
        out[k] = work.value(points[k]);
    }
}
