// The command `put`.
ghost use Rattle.std.specs.Prelude.{◌≡◌, ◌≤◌, List, length, is_some};
ghost use Rattle.std.specs.Option.{option_map};
ghost use Rattle.device_defs.specs.Disks.{synced};
ghost use Rattle.record_defs.specs.Records.{Record};
ghost use Rattle.command_defs.specs.Seen.{Seen, NoCountFalls};
ghost use Rattle.command_defs.specs.Opens.{IsOpened};
ghost use Rattle.command_defs.specs.Commands.{AnswersPut};
ghost use Rattle.vault.specs.Devices.{devices_seen};
ghost use Rattle.command_jobs.specs.Opened.{IsFreshOver, IsFreshFor};
ghost use Rattle.command_jobs.specs.Ends.{IsSeenBefore};
ghost use Rattle.hail_top.specs.Endings.{seen_of, ending_of};
ghost use Rattle.hail_top.specs.Jobs.{PutsOver};
ghost use Rattle.hail_top.specs.Telling.{TellsStreamed};

use crate::refusals::{unbegun, unopened};
use crate::report::Report;
use crate::tell::{Subject, ended};
use code_points::is_unknown;
use command_jobs::{Streamed, open_vault, run_stream};
use disk_model::Disk;
use exit_statuses::{BAD_SETUP, SOURCE_FAULT, TOO_LONG};
use provider_model::Provider;
use std::alloc::Global;
use stream_model::{Sink, Source};
use vault::Vault;

/// Tells how a put under a name ended, or why it was given up.
fn streamed<K: Sink>(alloc: Global, name: &[u8], how: Streamed, sink: &mut K) -> Report
    ensures told { TellsStreamed name.now how (ending_of result) (record {
      old = K.written sink.old;
      new = K.written sink.new;
      before = K.faults sink.old;
      now = K.faults sink.new;
    }) }
    ensures count { K.faults sink.old ≤ K.faults sink.new }
{
    match how {
        Streamed::Ended { ended: end, length } => {
            let subject = Subject {
                name,
                length,
                tolerance: 0,
            };
            ended(alloc, &subject, end, sink)
        }
        Streamed::SourceFault => Report::of(SOURCE_FAULT),
        Streamed::TooLong => Report::of(TOO_LONG),
    }
}

/// Puts the file that the source gives into a vault that was just opened. Where it is to have a profile that
/// there is none of, the source is not read.
fn put_stream<D: Disk, P: Provider, S: Source, K: Sink>(
    alloc: Global,
    name: &[u8],
    profile: Option<u8>,
    vault: Vault,
    disk: &mut D,
    providers: &mut [P],
    source: &mut S,
    sink: &mut K,
) -> Report
    requires { IsFreshFor vault (D.holds disk.old) (D.faults disk.old) (length providers.old) }
    ensures over { (records : List Record) (old : Seen) → (opened : IsOpened old records)
        → IsFreshOver vault opened.area records (D.holds disk.old) (D.faults disk.old)
        → IsSeenBefore old (devices_seen D.Disk P.Provider disk.old providers.old)
        → D.holds disk.old ≡ option_map synced old.disk → old.source ≡ S.left source.old
        → old.source_faults ≡ S.faults source.old
        → old.sink ≡ K.written sink.old → old.sink_faults ≡ K.faults sink.old
        → PutsOver name.now profile old
        (seen_of D.Disk P.Provider S.Source K.Sink disk.new providers.new source.new sink.new)
        (ending_of result) }
    ensures source_count { S.faults source.old ≤ S.faults source.new }
    ensures sink_count { K.faults sink.old ≤ K.faults sink.new }
    ensures tells { is_some (D.holds disk.new) ≡ is_some (D.holds disk.old) }
{
    if is_unknown(profile) {
        vault.close();
        return Report::of(BAD_SETUP);
    }
    match run_stream(alloc, vault, name, profile, disk, providers, source) {
        Ok(how) => streamed(alloc, name, how, sink),
        Err(why) => unbegun(why),
    }
}

/// Opens the store, and puts the file that the source gives under a name, with the profile of a number, or
/// else the setup's.
pub fn put<D: Disk, P: Provider, S: Source, K: Sink>(
    alloc: Global,
    name: &[u8],
    profile: Option<u8>,
    disk: &mut D,
    providers: &mut [P],
    source: &mut S,
    sink: &mut K,
) -> Report
    ensures answers { AnswersPut name.now profile
        (seen_of D.Disk P.Provider S.Source K.Sink disk.old providers.old source.old sink.old)
        (seen_of D.Disk P.Provider S.Source K.Sink disk.new providers.new source.new sink.new)
        (ending_of result) }
    ensures counts { NoCountFalls
        (seen_of D.Disk P.Provider S.Source K.Sink disk.old providers.old source.old sink.old)
        (seen_of D.Disk P.Provider S.Source K.Sink disk.new providers.new source.new sink.new) }
    ensures tells { is_some (D.holds disk.new) ≡ is_some (D.holds disk.old) }
{
    match open_vault(alloc, disk, providers.len()) {
        Ok(vault) => put_stream(alloc, name, profile, vault, disk, providers, source, sink),
        Err(why) => unopened(why),
    }
}
