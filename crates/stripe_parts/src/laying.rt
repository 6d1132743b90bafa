ghost use Rattle.std.specs.Prelude.{◌≡◌, ◌++◌, ◌*◌, length, map, IfOk, OnOk};
ghost use Rattle.column_codec.specs.PresentBlocks.{present_blocks};
ghost use Rattle.stripe_parts.specs.Seen.{of_size, symbols_or, is_there};

use column_codec::Block;
use hail_field::{Memory, Symbol};
use std::alloc::Global;

/// Adds the symbols of a block that was seen, and answers true; in the place of one that was not, or has
/// another size, so many zeros, and false.
fn lay(seen: &Option<Block>, zeros: &[Symbol], symbols: &mut Vec<Symbol>) -> Result<bool, Memory>
    ensures symbols { OnOk result (symbols.new.items
        ≡ symbols.old.items ++ symbols_or zeros.now (of_size (length zeros.now) seen.now)) }
    ensures there { IfOk result (λ there. there ≡ is_there (of_size (length zeros.now) seen.now)) }
{
    match seen {
        Some(block) if block.symbols().len() == zeros.len() => {
            symbols.extend_from_slice(block.symbols())?;
            Ok(true)
        }
        _ => {
            symbols.extend_from_slice(zeros)?;
            Ok(false)
        }
    }
}

/// The blocks that were seen one after the other, and a flag for each that was and has the size.
pub(crate) fn lay_all(
    alloc: Global,
    size: usize,
    seen: &[Option<Block>],
) -> Result<(Vec<Symbol>, Vec<bool>), Memory>
    ensures blocks { IfOk result (λ v. present_blocks size v.1.items v.0.items
        ≡ map (of_size size) seen.now) }
    ensures symbols { IfOk result (λ v. length v.0.items ≡ length seen.now * size) }
    ensures present { IfOk result (λ v. length v.1.items ≡ length seen.now) }
{
    let zeros = vec![in alloc; Symbol::ZERO; size]?;
    let mut symbols = Vec::new(alloc);
    let mut present = vec![in alloc; false; seen.len()]?;
    for j in 0..seen.len() {
        present[j] = lay(&seen[j], &zeros, &mut symbols)?;
    }
    Ok((symbols, present))
}
