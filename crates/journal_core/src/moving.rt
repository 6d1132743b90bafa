ghost use Rattle.std.specs.Prelude.{◌+◌, ◌<◌, ◌≤◌, ◌≡◌, length, IsErrOf};
ghost use Rattle.record_defs.specs.Records.{largest_journal};
ghost use Rattle.stream_model.specs.declared.fault.WriteFault.TheVariants as write_fault;
ghost use Rattle.device_defs.specs.Faults.{HasCause, one_more};
ghost use Rattle.journal_core.specs.FourMoves.{moved_on, MayBeTorn};
ghost use Rattle.journal_core.specs.Turns.{CountsMove, LeavesDisk};

use disk_model::Disk;
use stream_model::WriteFault;

/// The count of moves once one has failed.
const GIVEN_UP: u8 = 5;

/// Makes the next of four moves on a disk: write the bytes at `at`, sync, write the one byte `mark` at
/// `mark_at`, sync. True after the fourth. `moves` counts those that are made, and is 5 after a fault.
/// Condition: the four moves are not yet made, and none of them failed.
pub fn make_move<D: Disk>(
    disk: &mut D,
    moves: &mut u8,
    at: u64,
    bytes: &[u8],
    mark_at: u64,
    mark: u8,
) -> Result<bool, WriteFault>
    requires few { moves.old < 4 }
    requires room { at + length bytes.now ≤ largest_journal }
    requires mark_room { mark_at + 1 ≤ largest_journal }
    ensures count { CountsMove moves.old result moves.new }
    ensures disk { LeavesDisk moves.old (moved_on moves.old at bytes.now mark_at mark)
        (MayBeTorn moves.old at (length bytes.now) mark_at) result (D.holds disk.old) (D.holds disk.new) }
    ensures no_fault { (IsErrOf result write_fault.Failed → ⊥) → D.faults disk.new ≡ D.faults disk.old }
    ensures cause { HasCause (D.faults disk.old) (D.faults disk.new) (IsErrOf result write_fault.Failed) }
    ensures called { D.calls disk.new ≡ one_more (D.calls disk.old) }
{
    let made = *moves;
    *moves = GIVEN_UP;
    if made == 0 {
        disk.write_at(at, bytes)?;
        *moves = 1;
        return Ok(false);
    }
    if made == 2 {
        disk.write_at(mark_at, &[mark])?;
        *moves = 3;
        return Ok(false);
    }
    disk.sync()?;
    *moves = made + 1;
    Ok(*moves == 4)
}
