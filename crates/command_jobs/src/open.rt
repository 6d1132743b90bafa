ghost use Rattle.std.specs.Prelude.{◌≡◌, List, IfOk, IfErr, IsErrOf};
ghost use Rattle.std.specs.Option.{option_map};
ghost use Rattle.device_defs.specs.Cells.{reads};
ghost use Rattle.record_defs.specs.Records.{Record};
ghost use Rattle.record_defs.specs.Areas.{Area};
ghost use Rattle.vault_open.specs.Disks.{ReadsDisk};
ghost use Rattle.command_jobs.specs.declared.open.Unopened.TheVariants as unopened;
ghost use Rattle.command_jobs.specs.Opened.{IsFreshOver, IsReadFor, IsFreshFor, IsUnopened, HasReadStore, unopened_of};

use disk_model::Disk;
use job_laws::alone::opened_states;
use std::alloc::Global;
use vault::{StartFault, Vault};

/// The number of the first job of a vault.
const FIRST_JOB: u32 = 1;

/// Why no vault is opened.
#[derive(Clone, Copy, Drop)]
pub enum Unopened {
    /// A call of the disk failed.
    DiskFault,
    /// The disk has at most nine bytes, or a journal with no record.
    NotSetUp,
    /// More than nine bytes are no journal, or a record may not follow those before it: the offset of the
    /// first bad byte.
    BadJournal { at: u64 },
    /// Fewer providers are handed in than the store was set up with.
    TooFewProviders,
    /// Memory ran out.
    Memory,
}

impl From<StartFault> for Unopened {
    ghost from_gives = { λ f e. e ≡ unopened_of f };

    fn from(fault: StartFault) -> Self {
        match fault {
            StartFault::DiskFault => Unopened::DiskFault,
            StartFault::NotSetUp => Unopened::NotSetUp,
            StartFault::BadJournal { at } => Unopened::BadJournal { at },
            StartFault::Memory => Unopened::Memory,
        }
    }
}

/// Opens the vault over what a disk reads, where so many providers are handed in.
pub fn open_vault<D: Disk>(alloc: Global, disk: &mut D, handed: usize) -> Result<Vault, Unopened>
    ensures opened { IfOk result (λ vault. (area : Area) × (records : List Record)
        × IsReadFor (D.holds disk.old) area records handed
        × IsFreshOver vault area records (D.holds disk.new) (D.faults disk.new)) }
    ensures ready { IfOk result (λ vault. IsFreshFor vault (D.holds disk.new) (D.faults disk.new) handed) }
    ensures refused { IfErr result (IsUnopened (D.holds disk.old) handed) }
    ensures reads { option_map reads (D.holds disk.new) ≡ option_map reads (D.holds disk.old) }
    ensures disk { ReadsDisk (D.holds disk.old) (D.holds disk.new) (D.faults disk.old) (D.faults disk.new)
        (HasReadStore result) (IsErrOf result unopened.DiskFault) }
{
    opened_states();
    let vault = Vault::start(alloc, disk, FIRST_JOB)?;
    if handed < usize::from(vault.setup().n) {
        vault.close();
        return Err(Unopened::TooFewProviders);
    }
    Ok(vault)
}
