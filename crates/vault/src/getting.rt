ghost use Rattle.std.specs.Prelude.{IfOk};
ghost use Rattle.vault.specs.Benches.{IsNewGet};
ghost use Rattle.vault.specs.declared.tasks.GetTask.{GetTask as GetTaskValue};

use crate::heard::Fetches;
use crate::tasks::GetTask;
use column_codec::Bench;
use hail_field::Memory;
use std::alloc::Global;
use stripe_bench::Blocks;

/// No fetch and no byte yet, with room for all of the bench's file.
fn room_for(alloc: Global, job: u32, bench: &Bench) -> Result<(Fetches, Vec<u8>), Memory>
    ensures { IfOk result (λ room. IsNewGet job bench.now (record {
      fetched = room.0;
      bytes = room.1;
      length = bench.now.keys.file.length;
      bench = bench.now;
    })) }
{
    let file = bench.keys.file;
    let stripes = file.stripes() as usize;
    let count = stripes * usize::from(file.shape.n);
    let stripe = 16 * (usize::from(file.shape.l) * file.profile.keep as usize);
    let blocks = Blocks::with_room(alloc, count, file.profile.size as usize)?;
    let bytes = Vec::with_capacity(alloc, stripes * stripe)?;
    let fetched = Fetches {
        job,
        object: file.id,
        n: file.shape.n,
        blocks,
    };
    Ok((fetched, bytes))
}

impl GetTask {
    /// What the get of the bench's file works with before its first fetch, with room for all that its steps
    /// keep.
    pub(crate) fn new(alloc: Global, job: u32, bench: Bench) -> Result<GetTask, Memory>
        ensures { IfOk result (IsNewGet job bench) }
    {
        match room_for(alloc, job, &bench) {
            Ok((fetched, bytes)) => Ok(GetTask {
                fetched,
                bytes,
                length: bench.keys.file.length as usize,
                bench,
            }),
            Err(memory) => {
                drop(bench);
                Err(memory)
            }
        }
    }
}
