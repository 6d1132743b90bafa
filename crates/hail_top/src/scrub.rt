// The command `scrub`.
ghost use Rattle.std.specs.Prelude.{◌≡◌, ◌≤◌, ℕ, List, [], Option, length, map, take, is_some};
ghost use Rattle.std.specs.Option.{option_map};
ghost use Rattle.device_defs.specs.Cells.{Cells};
ghost use Rattle.device_defs.specs.Disks.{synced};
ghost use Rattle.record_defs.specs.Records.{Record};
ghost use Rattle.command_defs.specs.Lines.{scrub_lines};
ghost use Rattle.command_defs.specs.Opens.{IsOpened};
ghost use Rattle.command_defs.specs.Scrubs.{AnswersScrub};
ghost use Rattle.command_defs.specs.Seen.{Seen, NoCountFalls, seen};
ghost use Rattle.command_defs.specs.Sinking.{WritesLine};
ghost use Rattle.hail_scrub.specs.Stands.{scrub_answer};
ghost use Rattle.provider_model.specs.Seen.{provider_seen};
ghost use Rattle.vault_open.specs.Devices.{devices};
ghost use Rattle.command_jobs.specs.Opened.{IsFreshOver, IsFreshFor};
ghost use Rattle.command_jobs.specs.Ends.{IsSeenBefore};
ghost use Rattle.hail_replay.specs.Heard.{entries_heard};
ghost use Rattle.hail_top.specs.Endings.{seen_over, ending_of};
ghost use Rattle.hail_top.specs.Jobs.{ScrubsOver};
ghost use Rattle.hail_top.specs.Telling.{TellsScrub};

use crate::refusals::unopened;
use crate::report::Report;
use command_jobs::{open_vault, run_scrub};
use command_lines::{scrub_lines, write_text};
use disk_model::Disk;
use exit_statuses::{LOST_ROW, NO_MEMORY, PROVIDER_FAULT};
use hail_field::Memory;
use hail_scrub::ScrubAnswer;
use provider_model::Provider;
use std::alloc::Global;
use stream_model::Sink;
use vault::Vault;

/// Writes how much differed on each of so many providers.
fn write_sums<K: Sink>(
    alloc: Global,
    providers: usize,
    stripes: u64,
    symbols: &[u64; 16],
    blocks: &[u64; 16],
    sink: &mut K,
) -> u8
    ensures written { WritesLine
        (scrub_lines stripes (take providers symbols.now) (take providers blocks.now)) result
        (record {
          old = K.written sink.old;
          new = K.written sink.new;
          before = K.faults sink.old;
          now = K.faults sink.new;
        }) }
    ensures count { K.faults sink.old ≤ K.faults sink.new }
{
    match scrub_lines(alloc, providers, stripes, symbols, blocks) {
        Ok(lines) => write_text(lines.as_slice(), sink),
        Err(_) => NO_MEMORY,
    }
}

/// Tells how a scrub of so many providers ended.
fn scrubbed<K: Sink>(alloc: Global, providers: usize, answer: ScrubAnswer, sink: &mut K) -> Report
    ensures told { TellsScrub (scrub_answer providers answer) result.status result.at
        (record {
          old = K.written sink.old;
          new = K.written sink.new;
          before = K.faults sink.old;
          now = K.faults sink.new;
        }) }
    ensures heard { entries_heard result.heard ≡ [] }
    ensures count { K.faults sink.old ≤ K.faults sink.new }
{
    match answer {
        ScrubAnswer::Scrubbed {
            stripes,
            symbols,
            blocks,
        } => Report::of(write_sums(alloc, providers, stripes, &symbols, &blocks, sink)),
        ScrubAnswer::Lost { row, .. } => Report::at(LOST_ROW, row),
        ScrubAnswer::ProviderFault { provider } => {
            Report::at(PROVIDER_FAULT, u64::from(provider))
        }
        ScrubAnswer::Memory => Report::of(NO_MEMORY),
    }
}

/// Scrubs all files of a vault that was just opened, and tells what came of it.
fn answer_scrub<P: Provider, K: Sink>(
    alloc: Global,
    vault: Vault,
    providers: &mut [P],
    sink: &mut K,
) -> Report
    requires { (holds : Option Cells) × (faults : ℕ) × IsFreshFor vault holds faults (length providers.old) }
    ensures over { (records : List Record) (holds : Option Cells) (faults : ℕ) (old : Seen)
        (left : Option (List ℕ)) (read_faults : ℕ) → (opened : IsOpened old records)
        → IsFreshOver vault opened.area records holds faults
        → IsSeenBefore old (devices holds faults (map (provider_seen P.Provider) providers.old))
        → holds ≡ option_map synced old.disk → old.sink ≡ K.written sink.old
        → old.sink_faults ≡ K.faults sink.old
        → ScrubsOver old (seen holds faults (map (provider_seen P.Provider) providers.new) left read_faults
        (K.written sink.new) (K.faults sink.new)) (ending_of result) }
    ensures count { K.faults sink.old ≤ K.faults sink.new }
{
    let providers_in_use = usize::from(vault.setup().n);
    match run_scrub(alloc, vault, providers) {
        Ok(answer) => scrubbed(alloc, providers_in_use, answer, sink),
        Err(Memory) => Report::of(NO_MEMORY),
    }
}

/// Opens the store, scrubs all files in effect, and tells what came of it.
pub fn scrub<D: Disk, P: Provider, K: Sink>(
    alloc: Global,
    disk: &mut D,
    providers: &mut [P],
    sink: &mut K,
) -> Report
    ensures answers { (left : Option (List ℕ)) (read_faults : ℕ) → AnswersScrub
        (seen_over D.Disk P.Provider K.Sink disk.old providers.old left read_faults sink.old)
        (seen_over D.Disk P.Provider K.Sink disk.new providers.new left read_faults sink.new)
        (ending_of result) }
    ensures counts { (left : Option (List ℕ)) (read_faults : ℕ) → NoCountFalls
        (seen_over D.Disk P.Provider K.Sink disk.old providers.old left read_faults sink.old)
        (seen_over D.Disk P.Provider K.Sink disk.new providers.new left read_faults sink.new) }
    ensures tells { is_some (D.holds disk.new) ≡ is_some (D.holds disk.old) }
{
    match open_vault(alloc, disk, providers.len()) {
        Ok(vault) => answer_scrub(alloc, vault, providers, sink),
        Err(why) => unopened(why),
    }
}
