// The command `list`.
ghost use Rattle.std.specs.Prelude.{◌≡◌, ◌≤◌, ℕ, List, Option, length, is_some};
ghost use Rattle.device_defs.specs.Providers.{Provider};
ghost use Rattle.record_defs.specs.Records.{Record};
ghost use Rattle.record_defs.specs.Table.{files_of};
ghost use Rattle.command_defs.specs.Lines.{list_lines};
ghost use Rattle.command_defs.specs.Sinking.{WritesLine};
ghost use Rattle.command_defs.specs.Commands.{AnswersList};
ghost use Rattle.vault.specs.Seen.{table_of};
ghost use Rattle.vault_table.specs.Values.{IsFoldOf};
ghost use Rattle.hail_top.specs.Endings.{ending_of};
ghost use Rattle.command_defs.specs.Seen.{seen};

use crate::refusals::unopened;
use crate::report::Report;
use command_jobs::open_vault;
use command_lines::{list_lines, write_text};
use disk_model::Disk;
use exit_statuses::NO_MEMORY;
use std::alloc::Global;
use stream_model::{Memory, Sink};
use vault::Vault;

/// Writes the files in effect.
fn write_files<K: Sink>(alloc: Global, vault: &Vault, sink: &mut K) -> u8
    ensures written { (records : List Record) → IsFoldOf records (table_of vault.now)
        → WritesLine (list_lines (files_of records)) result
        (record {
          old = K.written sink.old;
          new = K.written sink.new;
          before = K.faults sink.old;
          now = K.faults sink.new;
        }) }
    ensures count { K.faults sink.old ≤ K.faults sink.new }
{
    match list_lines(alloc, vault.table()) {
        Ok(lines) => write_text(lines.as_slice(), sink),
        Err(Memory) => NO_MEMORY,
    }
}

/// Opens the store, for so many providers handed in, and writes the files in effect.
pub fn list<D: Disk, K: Sink>(alloc: Global, handed: usize, disk: &mut D, sink: &mut K) -> Report
    ensures answers { (providers : List Provider) (left : Option (List ℕ)) (read_faults : ℕ)
        → length providers ≡ handed → AnswersList
        (seen (D.holds disk.old) (D.faults disk.old) providers left read_faults (K.written sink.old)
        (K.faults sink.old))
        (seen (D.holds disk.new) (D.faults disk.new) providers left read_faults (K.written sink.new)
        (K.faults sink.new)) (ending_of result) }
    ensures tells { is_some (D.holds disk.new) ≡ is_some (D.holds disk.old) }
    ensures disk_count { D.faults disk.old ≤ D.faults disk.new }
    ensures sink_count { K.faults sink.old ≤ K.faults sink.new }
{
    match open_vault(alloc, disk, handed) {
        Ok(vault) => {
            let status = write_files(alloc, &vault, sink);
            vault.close();
            Report::of(status)
        }
        Err(why) => unopened(why),
    }
}
