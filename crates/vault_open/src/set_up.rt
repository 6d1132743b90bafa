ghost use Rattle.std.specs.Prelude.{◌≡◌, ℕ, List, IsErrOf};
ghost use Rattle.device_defs.specs.Providers.{Provider};
ghost use Rattle.record_codec.specs.Entries.{with_master};
ghost use Rattle.machine_defs.specs.States.{State};
ghost use Rattle.vault_open.specs.declared.fault.InitFault.TheVariants as init_fault;
ghost use Rattle.vault_open.specs.Devices.{devices, AreDevices};
ghost use Rattle.vault_open.specs.Disks.{CallsDisk, SetsUp};
ghost use Rattle.vault_open.specs.Inits.{MakesInit, MayInit};

use crate::fault::InitFault;
use crate::preparing::{append_setup, prepare};
use disk_model::Disk;
use key_schedule::Master;
use record_codec::Setup;
use std::alloc::Global;

/// Sets a store up on a disk: its journal has the setup and the key as its one record. A disk of at most nine
/// bytes counts as empty, a journal with no record stays in its area, and what lies beyond 2^24 bytes is not
/// looked at. After a fault of the disk the call may be made again, unless the store is set up.
pub fn init<D: Disk>(
    alloc: Global,
    disk: &mut D,
    master: &Master,
    setup: &Setup,
) -> Result<(), InitFault>
    ensures unlooked { IsErrOf result init_fault.BadSetup → disk.new ≡ disk.old }
    ensures set_up { SetsUp (with_master setup.now master.now.0) (D.holds disk.old) (D.holds disk.new)
        result }
    ensures called { CallsDisk (D.holds disk.old) (D.holds disk.new) (D.faults disk.old) (D.faults disk.new)
        (IsErrOf result init_fault.DiskFault) }
    ensures machine { (w : State) (providers : List Provider) (moment : ℕ) → MayInit w (D.holds disk.old)
        → AreDevices (devices (D.holds disk.old) (D.faults disk.old) providers) w
        → MakesInit w moment (with_master setup.now master.now.0) result
        (devices (D.holds disk.new) (D.faults disk.new) providers) }
{
    if !setup.check() {
        return Err(InitFault::BadSetup);
    }
    let base = prepare(alloc, disk)?;
    append_setup(disk, base, master, setup)?;
    Ok(())
}
