ghost use Rattle.std.specs.Prelude.{IfOk};
ghost use Rattle.vault_open.specs.Disks.{StartsOver};
ghost use Rattle.vault.specs.Started.{IsStarted};

use crate::fresh::open_fresh;
use crate::vault::Vault;
use disk_model::Disk;
use std::alloc::Global;
use vault_open::{StartFault, read_store};

impl Vault {
    /// Opens a vault over what the disk reads; what lies beyond 2^24 bytes is not looked at. Jobs are
    /// numbered from `first` on.
    pub fn start<D: Disk>(alloc: Global, disk: &mut D, first: u32) -> Result<Vault, StartFault>
        ensures opened { IfOk result (λ v. IsStarted v (D.holds disk.old) (D.holds disk.new) (D.faults disk.new)
            first) }
        ensures start { StartsOver (D.holds disk.old) (D.holds disk.new) (D.faults disk.old) (D.faults disk.new)
            result }
    {
        let store = read_store(alloc, disk)?;
        let desk = open_fresh(alloc, store, first)?;
        Ok(Vault { desk, held: None })
    }
}
