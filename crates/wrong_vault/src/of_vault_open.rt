//! Bodies of vault_open's public functions, for its must-fail edits to spoil.
ghost use Rattle.std.specs.Prelude.{◌≡◌, List, IfOk, IsErrOf};
ghost use Rattle.record_defs.specs.Records.{Record};
ghost use Rattle.record_defs.specs.Areas.{Area};
ghost use Rattle.record_codec.specs.Entries.{with_master};
ghost use Rattle.opening_defs.specs.Journals.{IsRead};
ghost use Rattle.vault_open.specs.declared.fault.InitFault.TheVariants as init_fault;
ghost use Rattle.vault_open.specs.Disks.{SetsUp, StartsOver};
ghost use Rattle.vault_open.specs.Stores.{IsStoreOf};

use disk_model::Disk;
use key_schedule::Master;
use record_codec::Setup;
use std::alloc::Global;
use vault_open::{InitFault, StartFault, Store};

/// `init`.
pub fn init<D: Disk>(
    alloc: Global,
    disk: &mut D,
    master: &Master,
    setup: &Setup,
) -> Result<(), InitFault>
    ensures unlooked { IsErrOf result init_fault.BadSetup → disk.new ≡ disk.old }
    ensures set_up { SetsUp (with_master setup.now master.now.0) (D.holds disk.old) (D.holds disk.new)
        result }
{
    let told = vault_open::init(alloc, disk, master, setup);
    told
}

/// `read_store`.
pub fn read_store<D: Disk>(alloc: Global, disk: &mut D) -> Result<Store, StartFault>
    ensures read { IfOk result (λ store. (area : Area) × (rs : List Record)
        × IsRead (D.holds disk.old) area rs × IsStoreOf store area rs (D.holds disk.new)) }
    ensures start { StartsOver (D.holds disk.old) (D.holds disk.new) (D.faults disk.old) (D.faults disk.new)
        result }
{
    let told = vault_open::read_store(alloc, disk);
    told
}
