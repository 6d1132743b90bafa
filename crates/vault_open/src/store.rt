ghost use Rattle.std.specs.Prelude.{List, IfOk};
ghost use Rattle.record_defs.specs.Records.{Record};
ghost use Rattle.record_defs.specs.Areas.{Area};
ghost use Rattle.opening_defs.specs.Journals.{IsRead};
ghost use Rattle.vault_open.specs.Disks.{StartsOver};
ghost use Rattle.vault_open.specs.Stores.{IsStoreOf};

use crate::fault::StartFault;
use crate::folding::fold_active;
use crate::reading::read_disk;
use disk_model::Disk;
use key_schedule::Master;
use record_codec::Setup;
use std::alloc::Global;
use vault_table::Table;

/// What a start reads of a disk: the fold of the records of its active area, the setup and the key among them,
/// where that area begins, and the offset past the gate that closes its text, in bytes from the start of the
/// disk.
#[derive(Drop)]
pub struct Store {
    pub table: Table,
    pub base: u64,
    pub end: u64,
    pub setup: Setup,
    pub master: Master,
}

/// Reads the store on a disk, after a sync; what lies beyond 2^24 bytes is not looked at. It refuses, as
/// `StartFault` tells, a disk of at most nine bytes or with no record, bytes that are no journal, a record
/// that may not follow, a call of the disk that fails, and want of memory.
pub fn read_store<D: Disk>(alloc: Global, disk: &mut D) -> Result<Store, StartFault>
    ensures read { IfOk result (λ store. (area : Area) × (rs : List Record)
        × IsRead (D.holds disk.old) area rs × IsStoreOf store area rs (D.holds disk.new)) }
    ensures start { StartsOver (D.holds disk.old) (D.holds disk.new) (D.faults disk.old) (D.faults disk.new)
        result }
{
    let Some(bytes) = read_disk(alloc, disk)? else {
        return Err(StartFault::NotSetUp);
    };
    let (table, base, end) = fold_active(alloc, &bytes)?;
    let Some((setup, master)) = table.setup() else {
        return Err(StartFault::NotSetUp);
    };
    Ok(Store {
        table,
        base,
        end,
        setup,
        master,
    })
}
