ghost use Rattle.std.specs.Prelude.{◌≡◌, ◌⊎◌, ◌+◌, ◌^◌, ◌<◌, ◌≤◌, ◌∷◌, ◌++◌, [], All, List, length, OnOk, IfOk, IsErrOf, IsTrue, ◌↔◌};
ghost use Rattle.std.specs.List.{list_all};
ghost use Rattle.stream_model.specs.declared.fault.WriteFault.TheVariants as write_fault;
ghost use Rattle.device_defs.specs.Faults.{HasCause, one_more};
ghost use Rattle.record_defs.specs.Records.{Record as Entry, is_in_grammar, largest_journal};
ghost use Rattle.record_defs.specs.Spellings.{spelling};
ghost use Rattle.record_defs.specs.Areas.{Area, other_area, base_of, entries, entries_size, text_length, end_in};
ghost use Rattle.record_codec.specs.Entries.{entry_of, IsInGrammar};
ghost use Rattle.journal_core.specs.Lists.{newest_first};
ghost use Rattle.journal_pack.specs.Moves.{switch_to};

use disk_model::Disk;
use journal_core::{FIRST_BASE, SECOND, SECOND_BASE, SWITCH, make_move};
use record_codec::Record;
use std::alloc::Global;
use stream_model::{Memory, WriteFault};

/// The switch byte that names the first area.
const FIRST: u8 = b'1';

/// A packed journal on its way into the area that is not active, in four moves: write its text there, sync,
/// write the switch byte, sync. A stop between any two of them leaves the old journal or the packed one.
#[derive(Drop)]
pub struct Pack {
    to: u64,
    text: Vec<u8>,
    moves: u8,
    ghost first: { 8 ≤ to },
    ghost place: { to ≤ 2 ^ 23 },
    ghost closed: { 1 ≤ length text.items },
    ghost short: { length text.items + 8 ≤ 2 ^ 23 },
}

/// Adds an open gate and a record's bytes to a text.
fn add_entry(text: &mut Vec<u8>, entry: &Record) -> Result<(), Memory>
    requires { IsInGrammar entry.now }
    ensures { OnOk result (text.new.items ≡ text.old.items ++ 1 ∷ spelling (entry_of entry.now)) }
{
    let mut spelled = [0u8; 80];
    let n = entry.write(&mut spelled);
    text.push(1)?;
    text.extend_from_slice(&spelled[..n])?;
    Ok(())
}

/// The text of records: each behind an open gate, and a closed gate.
fn make_text(alloc: Global, records: &[Record]) -> Result<Vec<u8>, Memory>
    requires { All IsInGrammar records.now }
    ensures { IfOk result (λ v. v.items ≡ entries (newest_first records.now) ++ 0 ∷ []) }
{
    let mut text = Vec::new(alloc);
    for entry in records {
        add_entry(&mut text, entry)?;
    }
    text.push(0)?;
    Ok(text)
}

/// The switch byte that names the area that begins there: the digit 2 for the second, 1 for the first.
fn switch_to(to: u64) -> u8
    ensures { result ≡ switch_to to }
{
    if to == SECOND_BASE { SECOND } else { FIRST }
}

impl Pack {
    ghost use Rattle.journal_pack.specs.Packs.{to_of, moves_of, WritesText, TurnsPack, PacksDisk};

    /// A pack of these records, away from the active area, which begins at `base`. Condition: each record has
    /// a spelling, and the text fits in front of the second area.
    pub fn new(alloc: Global, base: u64, records: &[Record]) -> Result<Pack, Memory>
        requires area { (base ≡ 8) ⊎ (base ≡ 2 ^ 23) }
        requires spelled { All IsInGrammar records.now }
        requires short { entries_size (newest_first records.now) + 9 ≤ 2 ^ 23 }
        ensures writes { IfOk result (λ p. (area : Area) → base ≡ base_of area
            → WritesText (other_area area) (newest_first records.now) p) }
        ensures moves { IfOk result (λ p. moves_of p ≡ 0) }
    {
        let text = make_text(alloc, records)?;
        let to = if base == SECOND_BASE {
            FIRST_BASE
        } else {
            SECOND_BASE
        };
        Ok(Pack { to, text, moves: 0 })
    }

    /// The length of the new text in bytes: in the first area counted from the start of the disk, in the
    /// second from where the area begins.
    pub fn size(&self) -> u64
        ensures { (area : Area) (qs : List Entry) → IsTrue (list_all is_in_grammar qs)
            → WritesText area qs self.now → result ≡ text_length area qs }
    {
        if self.to == FIRST_BASE {
            FIRST_BASE + self.text.len() as u64
        } else {
            self.text.len() as u64
        }
    }

    /// Where the area begins that it writes into, in bytes from the start of the disk.
    pub fn base(&self) -> u64
        ensures { result ≡ to_of self.now }
    {
        self.to
    }

    /// Whether all four moves are made.
    pub fn is_made(&self) -> bool
        ensures { IsTrue result ↔ (moves_of self.now ≡ 4) }
    {
        self.moves == 4
    }

    /// The offset past the gate that closes the new text, in bytes from the start of the disk.
    pub fn end(&self) -> u64
        ensures least { 9 ≤ result }
        ensures most { result ≤ largest_journal }
        ensures value { (area : Area) (qs : List Entry) → IsTrue (list_all is_in_grammar qs)
            → WritesText area qs self.now → result ≡ end_in area qs }
    {
        self.to + self.text.len() as u64
    }

    /// Makes the next move; true after the fourth. After a fault the pack is given up. However it ended, the old
    /// journal stands or the packed one, and the old one where memory ran out (`laws::packs_are_atomic`).
    /// Condition: the four moves are not yet made, and none of them failed.
    pub fn turn<D: Disk>(&mut self, disk: &mut D) -> Result<bool, WriteFault>
        requires { moves_of self.old < 4 }
        ensures moves { TurnsPack self.old result self.new }
        ensures disk { PacksDisk self.old result (D.holds disk.old) (D.holds disk.new) }
        ensures no_fault { (IsErrOf result write_fault.Failed → ⊥) → D.faults disk.new ≡ D.faults disk.old }
        ensures cause { HasCause (D.faults disk.old) (D.faults disk.new) (IsErrOf result write_fault.Failed) }
        ensures called { D.calls disk.new ≡ one_more (D.calls disk.old) }
    {
        let switch = switch_to(self.to);
        let text = self.text.as_slice();
        make_move(disk, &mut self.moves, self.to, text, SWITCH, switch)
    }
}
