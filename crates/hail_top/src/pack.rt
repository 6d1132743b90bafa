// The command `pack`.
ghost use Rattle.std.specs.Prelude.{◌≡◌, ◌≤◌, ℕ, List, [], Option, length, is_some};
ghost use Rattle.std.specs.Option.{option_map};
ghost use Rattle.device_defs.specs.Disks.{synced};
ghost use Rattle.device_defs.specs.Providers.{Provider};
ghost use Rattle.record_defs.specs.Records.{Record};
ghost use Rattle.command_defs.specs.Lines.{packed_line};
ghost use Rattle.command_defs.specs.Opens.{IsOpened};
ghost use Rattle.command_defs.specs.Packs.{AnswersPack};
ghost use Rattle.command_defs.specs.Seen.{Seen, seen};
ghost use Rattle.command_defs.specs.Sinking.{WritesLine};
ghost use Rattle.vault.specs.Packing.{pack_answer};
ghost use Rattle.vault_open.specs.Devices.{devices};
ghost use Rattle.command_jobs.specs.Opened.{IsFreshOver, IsFreshFor};
ghost use Rattle.command_jobs.specs.Ends.{IsSeenBefore};
ghost use Rattle.hail_replay.specs.Heard.{entries_heard};
ghost use Rattle.hail_top.specs.Endings.{ending_of};
ghost use Rattle.hail_top.specs.Jobs.{PacksOver};
ghost use Rattle.hail_top.specs.PackRuns.{PackedAround, LeavesAround};
ghost use Rattle.hail_top.specs.Telling.{TellsPack};

use crate::refusals::{refused, unopened};
use crate::report::Report;
use command_jobs::{open_vault, run_pack};
use command_lines::{packed_line, write_text};
use disk_model::Disk;
use exit_statuses::{DISK_FAULT, NO_MEMORY};
use std::alloc::Global;
use stream_model::Sink;
use vault::{PackAnswer, Vault};

/// Writes the two lengths of a text, before and after its pack.
fn write_lengths<K: Sink>(alloc: Global, before: u64, after: u64, sink: &mut K) -> u8
    ensures written { WritesLine (packed_line before after) result
        (record {
          old = K.written sink.old;
          new = K.written sink.new;
          before = K.faults sink.old;
          now = K.faults sink.new;
        }) }
    ensures count { K.faults sink.old ≤ K.faults sink.new }
{
    match packed_line(alloc, before, after) {
        Ok(line) => write_text(line.as_slice(), sink),
        Err(_) => NO_MEMORY,
    }
}

/// Tells how a pack ended.
fn packed<K: Sink>(alloc: Global, answer: PackAnswer, sink: &mut K) -> Report
    ensures told { TellsPack (pack_answer answer) result.status result.at
        (record {
          old = K.written sink.old;
          new = K.written sink.new;
          before = K.faults sink.old;
          now = K.faults sink.new;
        }) }
    ensures heard { entries_heard result.heard ≡ [] }
    ensures count { K.faults sink.old ≤ K.faults sink.new }
{
    match answer {
        PackAnswer::Packed { before, after } => {
            Report::of(write_lengths(alloc, before, after, sink))
        }
        PackAnswer::DiskFault => Report::of(DISK_FAULT),
        PackAnswer::Memory => Report::of(NO_MEMORY),
    }
}

/// Packs the journal of a vault that was just opened, and tells what came of it.
fn answer_pack<D: Disk, K: Sink>(alloc: Global, vault: Vault, disk: &mut D, sink: &mut K) -> Report
    requires { (handed : ℕ) × IsFreshFor vault (D.holds disk.old) (D.faults disk.old) handed }
    ensures over { (records : List Record) (old : Seen) (providers : List Provider)
        (left : Option (List ℕ)) (read_faults : ℕ) → (opened : IsOpened old records)
        → IsFreshOver vault opened.area records (D.holds disk.old) (D.faults disk.old)
        → IsSeenBefore old (devices (D.holds disk.old) (D.faults disk.old) providers)
        → D.holds disk.old ≡ option_map synced old.disk → old.sink ≡ K.written sink.old
        → old.sink_faults ≡ K.faults sink.old
        → PacksOver old (seen (D.holds disk.new) (D.faults disk.new) providers left read_faults
        (K.written sink.new) (K.faults sink.new)) (ending_of result) }
    ensures around { (records : List Record) (old : Seen) → (opened : IsOpened old records)
        → IsFreshOver vault opened.area records (D.holds disk.old) (D.faults disk.old)
        → D.holds disk.old ≡ option_map synced old.disk
        → PackedAround opened.area records old.disk (D.holds disk.new) result.status }
    ensures disk_count { D.faults disk.old ≤ D.faults disk.new }
    ensures sink_count { K.faults sink.old ≤ K.faults sink.new }
    ensures tells { is_some (D.holds disk.new) ≡ is_some (D.holds disk.old) }
{
    match run_pack(vault, disk) {
        Ok(answer) => packed(alloc, answer, sink),
        Err(why) => refused(why),
    }
}

/// Opens the store, where so many providers are handed in, packs its journal, and tells what came of it.
pub fn pack<D: Disk, K: Sink>(alloc: Global, handed: usize, disk: &mut D, sink: &mut K) -> Report
    ensures answers { (providers : List Provider) (left : Option (List ℕ)) (read_faults : ℕ)
        → length providers ≡ handed → AnswersPack
        (seen (D.holds disk.old) (D.faults disk.old) providers left read_faults (K.written sink.old)
        (K.faults sink.old))
        (seen (D.holds disk.new) (D.faults disk.new) providers left read_faults (K.written sink.new)
        (K.faults sink.new))
        (ending_of result) }
    ensures around { (providers : List Provider) (left : Option (List ℕ)) (read_faults : ℕ)
        → length providers ≡ handed → LeavesAround
        (seen (D.holds disk.old) (D.faults disk.old) providers left read_faults (K.written sink.old)
        (K.faults sink.old))
        (seen (D.holds disk.new) (D.faults disk.new) providers left read_faults (K.written sink.new)
        (K.faults sink.new))
        (ending_of result) }
    ensures disk_count { D.faults disk.old ≤ D.faults disk.new }
    ensures sink_count { K.faults sink.old ≤ K.faults sink.new }
    ensures tells { is_some (D.holds disk.new) ≡ is_some (D.holds disk.old) }
{
    match open_vault(alloc, disk, handed) {
        Ok(vault) => answer_pack(alloc, vault, disk, sink),
        Err(why) => unopened(why),
    }
}
