ghost use Rattle.std.specs.Prelude.{◌≡◌, ◌≤◌, ◌^◌, [], ◌∷◌, List, length, IfOk, IfErr, IfSome, OnOk, OnErr, IsErrOf, IsTrue, is_some};
ghost use Rattle.std.specs.Option.{option_map};
ghost use Rattle.stream_model.specs.declared.fault.WriteFault.TheVariants as write_fault;
ghost use Rattle.device_defs.specs.Cells.{reads};
ghost use Rattle.device_defs.specs.Disks.{synced};
ghost use Rattle.device_defs.specs.Images.{EachImage};
ghost use Rattle.device_defs.specs.Told.{Goes};
ghost use Rattle.record_defs.specs.Records.{Record as Entry, Setup as SetupData, SetUp, is_setup, is_master};
ghost use Rattle.record_defs.specs.Areas.{Area, base_of, StandsActive};
ghost use Rattle.record_codec.specs.Entries.{entry_of, with_master, IsInGrammar};
ghost use Rattle.journal_core.specs.Texts.{StandsFirm, MayStandWith};
ghost use Rattle.vault_open.specs.declared.fault.InitFault.TheVariants as init_fault;
ghost use Rattle.opening_defs.specs.Journals.{journal_read};
ghost use Rattle.vault_open.specs.Causes.{IsInitFault, IsNoWrite};
ghost use Rattle.vault_open.specs.Disks.{CallsDisk};
ghost use Rattle.vault_open.specs.Preparing.{IsBlank, emptied, IsReadied, IsHalfReady, with_first_record, first_answer, IsFirstAnswer, IsTextFault};

use crate::fault::InitFault;
use crate::reading::read_disk;
use disk_model::Disk;
use journal_core::{Append, FIRST_BASE, active_gate, next_record};
use key_schedule::Master;
use record_codec::{Record, Setup};
use std::alloc::Global;
use stream_model::WriteFault;

/// The text of no record in the first area: the magic and a closed gate.
const NO_RECORD: [u8; 9] = *b"HAILJRN1\0";

/// Writes the text of no record to the front of a disk.
fn make_empty<D: Disk>(disk: &mut D) -> Result<(), WriteFault>
    ensures ok { OnOk result (D.holds disk.new ≡ option_map emptied (D.holds disk.old)) }
    ensures left { OnErr result (IfSome (D.holds disk.old) (λ cells. length (reads cells) ≤ 9) → EachImage
        (D.holds disk.new) (λ image. length image ≤ 9)) }
    ensures called { CallsDisk (D.holds disk.old) (D.holds disk.new) (D.faults disk.old) (D.faults disk.new)
        (IsErrOf result write_fault.Failed) }
{
    disk.write_at(0, &NO_RECORD)?;
    disk.sync()?;
    Ok(())
}

/// The answer to a journal with a first record, where its area begins at `base`.
fn answer_to(base: u64, first: &Record) -> InitFault
    requires { base ≤ 2 ^ 23 }
    ensures { result ≡ first_answer base first.now }
{
    match first {
        Record::Setup { .. } => InitFault::Already,
        _ => InitFault::BadJournal { at: base + 1 },
    }
}

/// The answer to one record more: that to the first one stays.
fn answer_with(answer: Result<(), InitFault>, base: u64, entry: &Record) -> Result<(), InitFault>
    requires { base ≤ 2 ^ 23 }
    ensures { (rs : List Entry) → IsFirstAnswer base rs answer
        → IsFirstAnswer base (entry_of entry.now ∷ rs) result }
{
    match answer {
        Ok(()) => Err(answer_to(base, entry)),
        Err(fault) => Err(fault),
    }
}

/// Where the active area begins, of bytes that are a journal with no record, and else why they are none.
fn has_no_record(bytes: &[u8]) -> Result<u64, InitFault>
    ensures ok { IfOk result (λ base. (area : Area) × (base ≡ base_of area)
        × StandsActive bytes.now area []) }
    ensures refused { IfErr result (IsTextFault bytes.now) }
{
    let base = active_gate(bytes)?;
    let mut gate = base;
    let mut answer = Ok(());
    while let Some((entry, next)) = next_record(bytes, gate)? {
        answer = answer_with(answer, base as u64, &entry);
        gate = next;
    }
    answer?;
    Ok(base as u64)
}

/// Makes a disk ready for its first record, and answers where the active area begins: the disk reads a journal
/// with no record there, and no byte is loose.
pub(crate) fn prepare<D: Disk>(alloc: Global, disk: &mut D) -> Result<u64, InitFault>
    ensures ok { IfOk result (λ base. (area : Area) × (base ≡ base_of area)
        × Goes (IsReadied area) (D.holds disk.old) (D.holds disk.new)) }
    ensures refused { (s : SetupData)
        → IfErr result (λ why. IfSome (D.holds disk.old)
        (λ cells. IsInitFault (journal_read cells) s why)) }
    ensures unjudged { IsErrOf result init_fault.BadSetup → ⊥ }
    ensures looked { IfErr result (λ why. IsNoWrite why → D.holds disk.new ≡ option_map synced
        (D.holds disk.old)) }
    ensures left { OnErr result (IfSome (D.holds disk.old) (λ cells. IsHalfReady cells (D.holds disk.new))) }
    ensures called { CallsDisk (D.holds disk.old) (D.holds disk.new) (D.faults disk.old) (D.faults disk.new)
        (IsErrOf result init_fault.DiskFault) }
{
    let base = match read_disk(alloc, disk)? {
        None => {
            make_empty(disk)?;
            FIRST_BASE
        }
        Some(bytes) => has_no_record(&bytes)?,
    };
    Ok(base)
}

/// A master key is one of the grammar.
fn key_is_spelled(key: &[u8])
    requires { length key.now ≡ 32 }
    ensures { IsTrue (is_master key.now) }
{}

/// The record of a setup.
fn setup_record(master: [u8; 32], setup: &Setup) -> Record
    requires { IsTrue (is_setup (with_master setup.now master)) }
    ensures entry { entry_of result ≡ SetUp (with_master setup.now master) }
    ensures in_grammar { IsInGrammar result }
{
    key_is_spelled(&master);
    Record::Setup {
        setup: *setup,
        master,
    }
}

/// Brings a blank disk its first record, the setup, by the four moves of an append, in the area that begins
/// at `base`.
pub(crate) fn append_setup<D: Disk>(
    disk: &mut D,
    base: u64,
    master: &Master,
    setup: &Setup,
) -> Result<(), WriteFault>
    requires valid { IsTrue (is_setup (with_master setup.now master.now.0)) }
    requires place { base ≤ 2 ^ 23 }
    ensures ok { OnOk result (D.holds disk.new ≡ option_map
        (with_first_record base (with_master setup.now master.now.0)) (D.holds disk.old)) }
    ensures ready { (area : Area) → base ≡ base_of area → IfSome (D.holds disk.old) (IsBlank area)
        → OnOk result (IfSome (D.holds disk.new)
        (StandsFirm area (SetUp (with_master setup.now master.now.0) ∷ []))) }
    ensures left { (area : Area) → base ≡ base_of area → IfSome (D.holds disk.old) (IsBlank area)
        → OnErr result (MayStandWith area [] (SetUp (with_master setup.now master.now.0))
        (D.holds disk.new)) }
    ensures called { CallsDisk (D.holds disk.old) (D.holds disk.new) (D.faults disk.old) (D.faults disk.new)
        (IsErrOf result write_fault.Failed) }
{
    let mut append = Append::new(base, &setup_record(master.0, setup));
    append.turn(disk)?;
    append.turn(disk)?;
    append.turn(disk)?;
    append.turn(disk)?;
    Ok(())
}
