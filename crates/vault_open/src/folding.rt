ghost use Rattle.std.specs.Prelude.{◌≡◌, ◌≤◌, List, [], length, IfOk, IfErr};
ghost use Rattle.record_defs.specs.Records.{Record, largest_journal};
ghost use Rattle.record_defs.specs.Areas.{Area, IsSwitched};
ghost use Rattle.journal_core.specs.Gates.{IsReadIn};
ghost use Rattle.vault_open.specs.Faults.{refusal_answer};
ghost use Rattle.vault_open.specs.Folding.{IsFolded, IsFoldFault};

use crate::fault::StartFault;
use journal_core::{active_gate, next_record};
use std::alloc::Global;
use vault_table::{Refused, Table};

/// The answer to a table that did not take the record at an offset.
fn answer_to(why: Refused, at: u64) -> StartFault
    ensures { result ≡ refusal_answer why at }
{
    match why {
        Refused::Memory => StartFault::Memory,
        _ => StartFault::BadJournal { at },
    }
}

/// The fold of the records of the active area, whose first gate stands at `base`, and the offset past the gate
/// that closes its text, both in bytes from the start of the disk. The time is linear in the number of bytes.
fn fold_area(alloc: Global, bytes: &[u8], base: usize) -> Result<(Table, u64), StartFault>
    requires short { length bytes.now ≤ largest_journal }
    requires first { (area : Area) × IsSwitched bytes.now area × IsReadIn bytes.now area [] base }
    ensures ok { IfOk result (λ x. (area : Area) × (rs : List Record)
        × IsFolded bytes.now area rs x.0 base x.1) }
    ensures refused { IfErr result (IsFoldFault bytes.now) }
{
    let mut gate = base;
    let mut table = Table::new(alloc)?;
    while let Some((entry, next)) = next_record(bytes, gate)? {
        if let Err(why) = table.apply(&entry) {
            return Err(answer_to(why, gate as u64 + 1));
        }
        gate = next;
    }
    Ok((table, gate as u64 + 1))
}

/// The fold of the records of the active area, where that begins, and the offset past the gate that closes its
/// text.
pub(crate) fn fold_active(alloc: Global, bytes: &[u8]) -> Result<(Table, u64, u64), StartFault>
    requires { length bytes.now ≤ largest_journal }
    ensures ok { IfOk result (λ x. (area : Area) × (rs : List Record)
        × IsFolded bytes.now area rs x.0 x.1 x.2) }
    ensures refused { IfErr result (IsFoldFault bytes.now) }
{
    let base = active_gate(bytes)?;
    let (table, end) = fold_area(alloc, bytes, base)?;
    Ok((table, base as u64, end))
}
