ghost use Rattle.std.specs.Prelude.{◌≡◌, ◌+◌, ◌<◌, ◌≤◌, ◌++◌, [], ◌∷◌, length, drop, IsErrOf};
ghost use Rattle.stream_model.specs.declared.fault.WriteFault.TheVariants as write_fault;
ghost use Rattle.device_defs.specs.Faults.{HasCause, one_more};
ghost use Rattle.device_defs.specs.Told.{Goes};
ghost use Rattle.record_defs.specs.Records.{record_size, largest_journal};
ghost use Rattle.record_defs.specs.Spellings.{spelling};
ghost use Rattle.record_codec.specs.Entries.{entry_of, IsInGrammar};
ghost use Rattle.journal_core.specs.Moves.{SameFrom};

use crate::moving::make_move;
use disk_model::Disk;
use record_codec::Record;
use stream_model::WriteFault;

/// One record on its way into a journal, in four moves: write the body, which is the record and the next
/// closed gate, behind the closed gate; sync; open the gate; sync. A stop between any two of them leaves the
/// old records or the new.
#[derive(Drop)]
pub struct Append {
    gate: u64,
    bytes: [u8; 81],
    len: usize,
    moves: u8,
    ghost within: { len ≤ 81 },
    ghost fits: { gate + 1 + len ≤ largest_journal },
}

fn copy_front(all: &mut [u8], bytes: &[u8])
    requires { length bytes.now ≤ length all.old }
    ensures { all.new ≡ bytes.now ++ drop (length bytes.now) all.old }
{
    all[..bytes.len()].copy_from_slice(bytes);
}

impl Append {
    ghost use Rattle.journal_core.specs.Appends.{gate_of, body_of, moves_of, TurnsAppend, AppendsDisk};

    /// An append at the closed gate at offset `gate`. Condition: the record is in the grammar, and the
    /// journal has room.
    pub fn new(gate: u64, entry: &Record) -> Append
        requires in_grammar { IsInGrammar entry.now }
        requires room { gate + 2 + record_size (entry_of entry.now) ≤ largest_journal }
        ensures gate { gate_of result ≡ gate }
        ensures moves { moves_of result ≡ 0 }
        ensures body { body_of result ≡ spelling (entry_of entry.now) ++ 0 ∷ [] }
    {
        let mut spelled = [0u8; 80];
        let n = entry.write(&mut spelled);
        let mut bytes = [0u8; 81];
        copy_front(&mut bytes, &spelled[..n]);
        Append {
            gate,
            bytes,
            len: n + 1,
            moves: 0,
        }
    }

    /// What the first move writes: the record's bytes and a closed gate.
    pub fn body(&self) -> &[u8]
        ensures { result.now ≡ body_of self.now }
    {
        &self.bytes[..self.len]
    }

    /// Makes the next move; true after the fourth. After a fault the append is given up. However it ended, the
    /// old records stand, or these with the new one (`laws::appends_are_atomic`).
    /// Condition: the four moves are not yet made, and none of them failed.
    pub fn turn<D: Disk>(&mut self, disk: &mut D) -> Result<bool, WriteFault>
        requires { moves_of self.old < 4 }
        ensures moves { TurnsAppend self.old result self.new }
        ensures disk { AppendsDisk self.old result (D.holds disk.old) (D.holds disk.new) }
        ensures beyond { Goes (SameFrom (gate_of self.old + 1 + length (body_of self.old)))
            (D.holds disk.old) (D.holds disk.new) }
        ensures no_fault { (IsErrOf result write_fault.Failed → ⊥) → D.faults disk.new ≡ D.faults disk.old }
        ensures cause { HasCause (D.faults disk.old) (D.faults disk.new) (IsErrOf result write_fault.Failed) }
        ensures called { D.calls disk.new ≡ one_more (D.calls disk.old) }
    {
        let body = &self.bytes[..self.len];
        make_move(disk, &mut self.moves, self.gate + 1, body, self.gate, 1)
    }
}
