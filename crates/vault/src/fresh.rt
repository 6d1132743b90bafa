ghost use Rattle.std.specs.Prelude.{◌≡◌, ◌≤◌, ◌^◌, IfOk, IfErr, IsTrue, Some};
ghost use Rattle.record_defs.specs.Records.{is_setup, largest_journal};
ghost use Rattle.record_codec.specs.Entries.{with_master};
ghost use Rattle.vault_open.specs.declared.fault.StartFault.TheVariants as start_fault;
ghost use Rattle.vault.specs.Fresh.{IsFreshDesk};

use crate::desk::Desk;
use column_codec::Codec;
use hail_field::Shape;
use std::alloc::Global;
use vault_core::Core;
use vault_open::{StartFault, Store};

/// A desk with no job, over a store; jobs are numbered from `first` on. Conditions: its setup is the table's
/// and within its limits, and its text has at least 9 bytes and at most 2^24.
pub(crate) fn open_fresh(alloc: Global, store: Store, first: u32) -> Result<Desk, StartFault>
    requires set_up { store.table.setup ≡ Some (with_master store.setup store.master.0) }
    requires limits { IsTrue (is_setup (with_master store.setup store.master.0)) }
    requires least { 9 ≤ store.end }
    requires most { store.end ≤ largest_journal }
    ensures ok { IfOk result (λ v. IsFreshDesk v store first) }
    ensures refused { IfErr result (λ why. why ≡ start_fault.Memory) }
{
    let Store {
        table,
        base,
        end,
        setup,
        master,
    } = store;
    let Some(shape) = Shape::new(setup.n, setup.l, setup.b) else {
        unreachable!()
    };
    let Ok(codec) = Codec::new(alloc) else {
        return Err(StartFault::Memory);
    };
    Ok(Desk {
        alloc,
        core: Core::new(alloc, table, end, first),
        base,
        setup,
        master,
        shape,
        codec,
        flight: None,
        jobs: Vec::new(alloc),
    })
}
