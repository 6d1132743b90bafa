ghost use Rattle.std.specs.Prelude.{◌<◌};
ghost use Rattle.journal_core.specs.Appends.{moves_of};

use disk_model::Disk;
use journal_core::Append;
use record_codec::Record;
use stream_model::WriteFault;

/// An append in flight: not all of its four moves are made, and none failed.
#[derive(Drop)]
pub struct Flight {
    pub append: Append,
    ghost undone: { moves_of append < 4 },
}

/// What came of a move of an append.
#[derive(Drop)]
pub enum Moved {
    /// A move is left.
    On(Flight),
    /// It was the last one: the record is in effect.
    Done,
    /// The disk failed, and the append is given up.
    Failed,
    /// A write found no memory, and the append is given up.
    Memory,
}

impl Flight {
    ghost use Rattle.std.specs.Prelude.{◌≡◌, ◌+◌, ◌≤◌, ◌++◌, ◌∷◌, [], length};
    ghost use Rattle.device_defs.specs.Faults.{HasCause, one_more};
    ghost use Rattle.device_defs.specs.Told.{Goes};
    ghost use Rattle.record_defs.specs.Records.{record_size, largest_journal};
    ghost use Rattle.record_defs.specs.Spellings.{spelling};
    ghost use Rattle.record_codec.specs.Entries.{entry_of, IsInGrammar};
    ghost use Rattle.journal_core.specs.Appends.{gate_of, body_of, moves_of};
    ghost use Rattle.journal_core.specs.Moves.{SameFrom};
    ghost use Rattle.vault.specs.declared.flight.Moved.TheVariants as moved;
    ghost use Rattle.vault.specs.Flights.{MakesMove, HasFailed};

    /// An append of this record at the gate at this offset, no move of which is made. Condition: the journal
    /// has room.
    pub fn new(gate: u64, entry: &Record) -> Flight
        requires in_grammar { IsInGrammar entry.now }
        requires room { gate + 2 + record_size (entry_of entry.now) ≤ largest_journal }
        ensures gate { gate_of result.append ≡ gate }
        ensures moves { moves_of result.append ≡ 0 }
        ensures body { body_of result.append ≡ spelling (entry_of entry.now) ++ 0 ∷ [] }
    {
        Flight {
            append: Append::new(gate, entry),
        }
    }

    /// Makes the next move.
    pub fn turn<D: Disk>(self, disk: &mut D) -> Moved
        ensures made { MakesMove self.append (D.holds disk.old) result (D.holds disk.new) }
        ensures beyond { Goes (SameFrom (gate_of self.append + 1 + length (body_of self.append)))
            (D.holds disk.old) (D.holds disk.new) }
        ensures no_fault { result ≡ moved.Memory → D.faults disk.new ≡ D.faults disk.old }
        ensures cause { HasCause (D.faults disk.old) (D.faults disk.new) (HasFailed result) }
        ensures called { D.calls disk.new ≡ one_more (D.calls disk.old) }
    {
        let mut append = self.append;
        match append.turn(disk) {
            Ok(true) => Moved::Done,
            Ok(false) => Moved::On(Flight { append }),
            Err(WriteFault::Failed) => Moved::Failed,
            Err(WriteFault::Memory) => Moved::Memory,
        }
    }
}
