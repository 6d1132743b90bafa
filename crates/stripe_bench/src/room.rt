ghost use Rattle.std.specs.Prelude.{◌≡◌, ◌≤◌, ◌^◌, IfOk};
ghost use Rattle.stripe_bench.specs.Blocks.{IsEmptyFor};

use crate::blocks::Blocks;
use hail_field::Memory;
use std::alloc::Global;

impl Blocks {
    /// No block yet, with room for so many of `size` symbols, 1 to 128.
    pub fn with_room(alloc: Global, count: usize, size: usize) -> Result<Blocks, Memory>
        requires some { 1 ≤ size }
        requires few { size ≤ 128 }
        requires count { count ≤ 2 ^ 32 }
        ensures { IfOk result (IsEmptyFor count size) }
    {
        Ok(Blocks {
            present: Vec::with_capacity(alloc, count)?,
            symbols: Vec::with_capacity(alloc, count * size)?,
            size,
        })
    }

    /// Turns to blocks of another size, 1 to 128.
    pub fn turn_to(&mut self, size: usize)
        requires some { 1 ≤ size }
        requires few { size ≤ 128 }
        ensures size { self.new.size ≡ size }
        ensures present { self.new.present ≡ self.old.present }
        ensures symbols { self.new.symbols ≡ self.old.symbols }
    {
        self.size = size;
    }
}
