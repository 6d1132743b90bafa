ghost use Rattle.std.specs.Prelude.{◌≡◌, ◌*◌, length, replicate, IfErr, OnOk};
ghost use Rattle.column_defs.specs.Opened.{GivesSymbols};
ghost use Rattle.file_layout.specs.Files.{shaped_object};
ghost use Rattle.stripe_parts.specs.Seen.{IsOpenFault, LeavesRows};

use crate::fault::OpenFault;
use crate::laying::lay_all;
use column_codec::{Bench, Block, Codec};
use file_layout::FileShape;
use hail_field::Symbol;
use key_schedule::Master;
use std::alloc::Global;

/// Fills `rows` with the symbols of a stripe in layout order, from the blocks that were seen of all providers,
/// in their order: each is opened to the codeword near it, each row to the polynomial of degree below `l` that
/// agrees with all but `b` of them. A block of another size opens to nothing. `Lost` comes exactly where some
/// row at a kept place is not accepted, with the lowest such row; `rows` is then all zero. At want of memory
/// it is as before. Where more stripes are opened, a `Bench` and a `Codec` save making them each time.
pub fn open_stripe(
    alloc: Global,
    master: &Master,
    file: &FileShape,
    stripe: u32,
    seen: &[Option<Block>],
    rows: &mut [Symbol],
) -> Result<(), OpenFault>
    requires seen { length seen.now ≡ file.now.shape.n }
    requires rows { length rows.old ≡ file.now.shape.l * file.now.profile.keep }
    ensures given { OnOk result (GivesSymbols (shaped_object master.now.0 file.now) stripe seen.now rows.new) }
    ensures fault { IfErr result (IsOpenFault (shaped_object master.now.0 file.now) stripe seen.now) }
    ensures left { IfErr result (LeavesRows rows.old rows.new) }
{
    let mut bench = Bench::made(alloc, master, file)?;
    let mut codec = Codec::new(alloc)?;
    let (symbols, present) = lay_all(alloc, file.profile.size as usize, seen)?;
    let answer = bench.open(&mut codec, stripe, &symbols, &present);
    rows.copy_from_slice(&bench.rows);
    Ok(answer?)
}
