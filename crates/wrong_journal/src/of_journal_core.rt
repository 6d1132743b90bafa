//! Bodies of journal_core's public functions, for its must-fail edits to spoil.
ghost use Rattle.std.specs.Prelude.{◌≡◌, ◌+◌, ◌<◌, ◌≤◌, List, [], length, IfOk, IfErr, IsErrOf};
ghost use Rattle.stream_model.specs.declared.fault.WriteFault.TheVariants as write_fault;
ghost use Rattle.device_defs.specs.Faults.{HasCause};
ghost use Rattle.record_defs.specs.Records.{Record as Entry, largest_journal};
ghost use Rattle.record_defs.specs.Areas.{Area, IsSwitched, HasNoFront};
ghost use Rattle.journal_core.specs.Appends.{moves_of};
ghost use Rattle.journal_core.specs.FourMoves.{moved_on, MayBeTorn};
ghost use Rattle.journal_core.specs.Gates.{IsReadIn, TakesIn};
ghost use Rattle.journal_core.specs.Turns.{CountsMove, LeavesDisk};

use disk_model::Disk;
use journal_core::{Append, BadJournal};
use record_codec::Record;
use stream_model::WriteFault;

/// `active_gate`.
pub fn active_gate(bytes: &[u8]) -> Result<usize, BadJournal>
    ensures ok { IfOk result (λ gate. (area : Area) × IsSwitched bytes.now area
        × IsReadIn bytes.now area [] gate) }
    ensures bad { IfErr result (λ bad. HasNoFront bytes.now × (bad.at ≡ 0)) }
{
    journal_core::active_gate(bytes)
}

/// `next_record`.
pub fn next_record(bytes: &[u8], gate: usize) -> Result<Option<(Record, usize)>, BadJournal>
    ensures taken { (area : Area) (rs : List Entry) → IsReadIn bytes.now area rs gate
        → IfOk result (TakesIn bytes.now area rs gate) }
{
    journal_core::next_record(bytes, gate)
}

/// `make_move`.
pub fn make_move<D: Disk>(
    disk: &mut D,
    moves: &mut u8,
    at: u64,
    bytes: &[u8],
    mark_at: u64,
    mark: u8,
) -> Result<bool, WriteFault>
    requires few { moves.old < 4 }
    requires room { at + length bytes.now ≤ largest_journal }
    requires mark_room { mark_at + 1 ≤ largest_journal }
    ensures count { CountsMove moves.old result moves.new }
    ensures disk { LeavesDisk moves.old (moved_on moves.old at bytes.now mark_at mark)
        (MayBeTorn moves.old at (length bytes.now) mark_at) result (D.holds disk.old) (D.holds disk.new) }
{
    journal_core::make_move(disk, moves, at, bytes, mark_at, mark)
}

/// `Append::turn`.
pub fn turn<D: Disk>(append: &mut Append, disk: &mut D) -> Result<bool, WriteFault>
    requires { moves_of append.old < 4 }
    ensures cause { HasCause (D.faults disk.old) (D.faults disk.new) (IsErrOf result write_fault.Failed) }
{
    append.turn(disk)
}
