// The command `init`.
ghost use Rattle.std.specs.Prelude.{◌≡◌, ◌≤◌, ℕ, List, Option, length, is_some};
ghost use Rattle.device_defs.specs.Providers.{Provider};
ghost use Rattle.command_defs.specs.Forms.{Numbers as SevenNumbers};
ghost use Rattle.command_defs.specs.Keys.{longest_key};
ghost use Rattle.command_defs.specs.Seen.{ReadsUpTo, seen};
ghost use Rattle.record_codec.specs.Entries.{with_master};
ghost use Rattle.vault_open.specs.Devices.{devices};
ghost use Rattle.command_defs.specs.Inits.{AnswersInit, InitsDisk};
ghost use Rattle.command_words.specs.Commands.{numbers_of};
ghost use Rattle.hail_top.specs.Endings.{ending_of};
ghost use Rattle.hail_top.specs.InitRuns.{InitGoesOn, InitsDevices};
ghost use Rattle.hail_top.specs.SetUps.{IsSetupFor, init_ending};

use crate::reading::read_up_to;
use crate::refusals::unread;
use crate::report::Report;
use command_lines::{ready_line, write_text};
use command_words::{Numbers, read_key, read_setup};
use disk_model::Disk;
use exit_statuses::{
    ALREADY_SET_UP, BAD_JOURNAL, BAD_KEY, BAD_SETUP, DISK_FAULT, NO_MEMORY, TOO_FEW_PROVIDERS,
};
use hail_client::laws::setups_are_spelled;
use key_schedule::Master;
use record_codec::Setup;
use std::alloc::Global;
use stream_model::{Sink, Source};
use vault::{InitFault, init};

/// How many bytes of a source are read for the key: one more than its form has.
const LONGEST_KEY: usize = 67;

/// Tells that the disk was not set up. A setup that was read is within its limits.
fn not_set_up(fault: InitFault) -> Report
    ensures { ending_of result ≡ init_ending fault }
{
    match fault {
        InitFault::DiskFault => Report::of(DISK_FAULT),
        InitFault::BadJournal { at } => Report::at(BAD_JOURNAL, at),
        InitFault::Already => Report::of(ALREADY_SET_UP),
        InitFault::Memory | InitFault::BadSetup => Report::of(NO_MEMORY),
    }
}

/// Sets a store up on the disk, with this key.
fn set_up_disk<D: Disk, K: Sink>(
    alloc: Global,
    master: &Master,
    setup: &Setup,
    disk: &mut D,
    sink: &mut K,
) -> Report
    ensures answers { (providers : List Provider) (left left' : Option (List ℕ))
        (read_faults read_faults' : ℕ)
        → InitsDisk (with_master setup.now master.now.0)
        (seen (D.holds disk.old) (D.faults disk.old) providers left read_faults (K.written sink.old)
        (K.faults sink.old))
        (seen (D.holds disk.new) (D.faults disk.new) providers left' read_faults' (K.written sink.new)
        (K.faults sink.new)) (ending_of result) }
    ensures goes_on { (providers : List Provider) → InitGoesOn (with_master setup.now master.now.0)
        (devices (D.holds disk.old) (D.faults disk.old) providers)
        (devices (D.holds disk.new) (D.faults disk.new) providers) (ending_of result) }
    ensures tells { is_some (D.holds disk.new) ≡ is_some (D.holds disk.old) }
    ensures disk_count { D.faults disk.old ≤ D.faults disk.new }
    ensures sink_count { K.faults sink.old ≤ K.faults sink.new }
{
    setups_are_spelled(*setup, master);
    match init(alloc, disk, master, setup) {
        Ok(()) => Report::of(write_text(ready_line(), sink)),
        Err(fault) => not_set_up(fault),
    }
}

/// Sets a store up on the disk, with the key that a text spells.
fn set_up_with<D: Disk, K: Sink>(
    alloc: Global,
    text: &[u8],
    setup: &Setup,
    disk: &mut D,
    sink: &mut K,
) -> Report
    ensures answers { (numbers : SevenNumbers) (providers : List Provider) (left left' : Option (List ℕ))
        (read_faults read_faults' : ℕ)
        → IsSetupFor setup.now numbers (length providers) → ReadsUpTo longest_key left left' text.now
        → AnswersInit numbers
        (seen (D.holds disk.old) (D.faults disk.old) providers left read_faults (K.written sink.old)
        (K.faults sink.old))
        (seen (D.holds disk.new) (D.faults disk.new) providers left' read_faults' (K.written sink.new)
        (K.faults sink.new)) (ending_of result) }
    ensures goes_on { (numbers : SevenNumbers) (providers : List Provider) (left left' : Option (List ℕ))
        (read_faults read_faults' : ℕ)
        → IsSetupFor setup.now numbers (length providers) → ReadsUpTo longest_key left left' text.now
        → InitsDevices numbers
        (seen (D.holds disk.old) (D.faults disk.old) providers left read_faults (K.written sink.old)
        (K.faults sink.old))
        (seen (D.holds disk.new) (D.faults disk.new) providers left' read_faults' (K.written sink.new)
        (K.faults sink.new)) (ending_of result) }
    ensures tells { is_some (D.holds disk.new) ≡ is_some (D.holds disk.old) }
    ensures disk_count { D.faults disk.old ≤ D.faults disk.new }
    ensures sink_count { K.faults sink.old ≤ K.faults sink.new }
{
    match read_key(text) {
        Some(master) => set_up_disk(alloc, &master, setup, disk, sink),
        None => Report::of(BAD_KEY),
    }
}

/// Sets a store up on the disk, with the key that the source gives.
fn set_up_read<D: Disk, S: Source, K: Sink>(
    alloc: Global,
    setup: &Setup,
    disk: &mut D,
    source: &mut S,
    sink: &mut K,
) -> Report
    ensures answers { (numbers : SevenNumbers) (providers : List Provider)
        → IsSetupFor setup.now numbers (length providers) → AnswersInit numbers
        (seen (D.holds disk.old) (D.faults disk.old) providers (S.left source.old) (S.faults source.old)
        (K.written sink.old) (K.faults sink.old))
        (seen (D.holds disk.new) (D.faults disk.new) providers (S.left source.new) (S.faults source.new)
        (K.written sink.new) (K.faults sink.new))
        (ending_of result) }
    ensures goes_on { (numbers : SevenNumbers) (providers : List Provider)
        → IsSetupFor setup.now numbers (length providers) → InitsDevices numbers
        (seen (D.holds disk.old) (D.faults disk.old) providers (S.left source.old) (S.faults source.old)
        (K.written sink.old) (K.faults sink.old))
        (seen (D.holds disk.new) (D.faults disk.new) providers (S.left source.new) (S.faults source.new)
        (K.written sink.new) (K.faults sink.new))
        (ending_of result) }
    ensures tells { is_some (D.holds disk.new) ≡ is_some (D.holds disk.old) }
    ensures disk_count { D.faults disk.old ≤ D.faults disk.new }
    ensures source_count { S.faults source.old ≤ S.faults source.new }
    ensures sink_count { K.faults sink.old ≤ K.faults sink.new }
{
    match read_up_to(alloc, LONGEST_KEY, source) {
        Ok(bytes) => set_up_with(alloc, bytes.as_slice(), setup, disk, sink),
        Err(fault) => unread(fault),
    }
}

/// Sets a store up with these numbers, for so many providers handed in.
pub fn set_up<D: Disk, S: Source, K: Sink>(
    alloc: Global,
    numbers: &Numbers,
    handed: usize,
    disk: &mut D,
    source: &mut S,
    sink: &mut K,
) -> Report
    ensures answers { (providers : List Provider) → length providers ≡ handed
        → AnswersInit (numbers_of numbers.now)
        (seen (D.holds disk.old) (D.faults disk.old) providers (S.left source.old) (S.faults source.old)
        (K.written sink.old) (K.faults sink.old))
        (seen (D.holds disk.new) (D.faults disk.new) providers (S.left source.new) (S.faults source.new)
        (K.written sink.new) (K.faults sink.new))
        (ending_of result) }
    ensures goes_on { (providers : List Provider) → length providers ≡ handed
        → InitsDevices (numbers_of numbers.now)
        (seen (D.holds disk.old) (D.faults disk.old) providers (S.left source.old) (S.faults source.old)
        (K.written sink.old) (K.faults sink.old))
        (seen (D.holds disk.new) (D.faults disk.new) providers (S.left source.new) (S.faults source.new)
        (K.written sink.new) (K.faults sink.new))
        (ending_of result) }
    ensures tells { is_some (D.holds disk.new) ≡ is_some (D.holds disk.old) }
    ensures disk_count { D.faults disk.old ≤ D.faults disk.new }
    ensures source_count { S.faults source.old ≤ S.faults source.new }
    ensures sink_count { K.faults sink.old ≤ K.faults sink.new }
{
    let Some(setup) = read_setup(numbers) else {
        return Report::of(BAD_SETUP);
    };
    if handed < usize::from(setup.n) {
        return Report::of(TOO_FEW_PROVIDERS);
    }
    set_up_read(alloc, &setup, disk, source, sink)
}
