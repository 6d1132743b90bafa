//! Bodies of journal_pack's public functions, for its must-fail edits to spoil.
ghost use Rattle.std.specs.Prelude.{◌≡◌, ◌⊎◌, ◌+◌, ◌^◌, ◌<◌, ◌≤◌, All, List, IfOk, IfErr, IsErrOf, IsSome, IsTrue};
ghost use Rattle.std.specs.List.{list_all};
ghost use Rattle.stream_model.specs.declared.fault.WriteFault.TheVariants as write_fault;
ghost use Rattle.device_defs.specs.Faults.{HasCause};
ghost use Rattle.record_defs.specs.Records.{Record as Entry, is_in_grammar};
ghost use Rattle.record_defs.specs.Areas.{Area, other_area, base_of, entries_size, text_length};
ghost use Rattle.record_codec.specs.Entries.{IsInGrammar};
ghost use Rattle.journal_core.specs.Lists.{newest_first};
ghost use Rattle.journal_pack.specs.Actives.{IsReadActive, IsActiveFault};
ghost use Rattle.journal_pack.specs.Packs.{moves_of, WritesText, PacksDisk};
ghost use Rattle.journal_pack.specs.Tables.{packed_table};

use disk_model::Disk;
use journal_core::JournalFault;
use journal_pack::{Active, Pack};
use record_codec::Record;
use std::alloc::Global;
use stream_model::{Memory, WriteFault};
use vault_table::Table;

/// `read_active`.
pub fn read_active(alloc: Global, bytes: &[u8]) -> Result<Active, JournalFault>
    ensures active { IfOk result (IsReadActive bytes.now) }
    ensures fault { IfErr result (IsActiveFault bytes.now) }
{
    journal_pack::read_active(alloc, bytes)
}

/// `pack_records`.
pub fn pack_records(alloc: Global, table: &Table) -> Result<Vec<Record>, Memory>
    requires set_up { IsSome table.now.setup }
    requires second { table.now.version ≡ 2 }
    ensures table { IfOk result (λ v. newest_first v.items ≡ packed_table table.now) }
{
    journal_pack::pack_records(alloc, table)
}

/// `Pack::new`.
pub fn new(alloc: Global, base: u64, records: &[Record]) -> Result<Pack, Memory>
    requires area { (base ≡ 8) ⊎ (base ≡ 2 ^ 23) }
    requires spelled { All IsInGrammar records.now }
    requires short { entries_size (newest_first records.now) + 9 ≤ 2 ^ 23 }
    ensures writes { IfOk result (λ p. (area : Area) → base ≡ base_of area
        → WritesText (other_area area) (newest_first records.now) p) }
{
    Pack::new(alloc, base, records)
}

/// `Pack::size`.
pub fn size(pack: &Pack) -> u64
    ensures { (area : Area) (qs : List Entry) → IsTrue (list_all is_in_grammar qs)
        → WritesText area qs pack.now → result ≡ text_length area qs }
{
    pack.size()
}

/// `Pack::turn`.
pub fn turn<D: Disk>(pack: &mut Pack, disk: &mut D) -> Result<bool, WriteFault>
    requires { moves_of pack.old < 4 }
    ensures disk { PacksDisk pack.old result (D.holds disk.old) (D.holds disk.new) }
    ensures cause { HasCause (D.faults disk.old) (D.faults disk.new) (IsErrOf result write_fault.Failed) }
{
    pack.turn(disk)
}
