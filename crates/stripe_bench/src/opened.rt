use crate::blocks::Blocks;
use column_codec::{Bench, Codec, RowLost};

impl Blocks {
    ghost use Rattle.std.specs.Prelude.{◌≡◌};
    ghost use Rattle.column_codec.specs.Bench.{bench_object, OpensAs};
    ghost use Rattle.stripe_bench.specs.Bench.{HasAllBlocks};
    ghost use Rattle.stripe_bench.specs.Blocks.{last_blocks, HasEmptied};

    /// Opens the stripe of the last blocks, one of each provider.
    pub fn open(&self, bench: &mut Bench, codec: &mut Codec, stripe: u32) -> Result<(), RowLost>
        requires { HasAllBlocks bench.old self.now }
        ensures opened { OpensAs (bench_object bench.old) stripe
            (last_blocks bench.old.keys.file.shape.n self.now) result bench.new.rows.items }
        ensures keys { bench.new.keys ≡ bench.old.keys }
    {
        let n = usize::from(bench.keys.file.shape.n);
        let flags = self.present.len() - n;
        let start = self.symbols.len() - n * self.size;
        let seen = &self.symbols[start..];
        let present = &self.present[flags..];
        bench.open(codec, stripe, seen, present)
    }

    /// Forgets the blocks, and keeps their room.
    pub fn clear(&mut self)
        ensures { HasEmptied self.old self.new }
    {
        self.present.clear();
        self.symbols.clear();
    }
}
