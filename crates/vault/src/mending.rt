ghost use Rattle.std.specs.Prelude.{◌≡◌, IfOk, IsErrOf, IsErr};
ghost use Rattle.vault_core.specs.declared.wish.BeginFault.TheVariants as fault;
ghost use Rattle.vault.specs.Benches.{IsNewRepair, HasTaken, TakesUp};

use crate::benches::place_of;
use crate::desk::Desk;
use crate::tasks::RepairTask;
use code_points::profile_at;
use record_defs::LARGEST_FILE;
use std::mem;
use stripe_bench::Blocks;
use vault_core::BeginFault;

/// How many symbols the largest block has.
const LARGEST_BLOCK: usize = 128;

impl RepairTask {
    /// Takes up the bench whose blocks have this size, if there is one.
    fn take(&mut self, size: u32)
        ensures blocks { self.new.blocks ≡ self.old.blocks }
        ensures taken { HasTaken size self.old self.new }
    {
        if self.bench.keys.file.profile.size == size {
            return;
        }
        match place_of(&self.others, size) {
            Some(place) => mem::swap(&mut self.bench, &mut self.others[place]),
            None => {}
        }
    }

    /// Takes up the bench of a profile, and turns the blocks, of which there are none, to its size.
    pub(crate) fn take_up(&mut self, profile: u8)
        ensures { TakesUp profile self.old self.new }
    {
        self.take(profile_at(profile).size);
        self.blocks
            .turn_to(self.bench.keys.file.profile.size as usize);
    }
}

impl Desk {
    /// What a repair works with before its first fetch, with room for a block of each provider at any profile.
    pub(crate) fn repair_task(&self) -> Result<RepairTask, BeginFault>
        ensures ok { IfOk result (IsNewRepair self.now) }
        ensures err { IsErr result → IsErrOf result fault.Memory }
    {
        let bench = self.bench_for(0, LARGEST_FILE, self.setup.profile)?;
        let others = self.others_for(&bench)?;
        let size = bench.keys.file.profile.size as usize;
        match Blocks::with_room(self.alloc, usize::from(self.setup.n), LARGEST_BLOCK) {
            Ok(mut blocks) => {
                blocks.turn_to(size);
                Ok(RepairTask {
                    blocks,
                    bench,
                    others,
                })
            }
            Err(_) => Err(BeginFault::Memory),
        }
    }
}
