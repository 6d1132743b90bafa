ghost use Rattle.std.specs.Prelude.{All, IfOk, IfErr};
ghost use Rattle.record_codec.specs.Entries.{IsInGrammar};
ghost use Rattle.journal_pack.specs.Actives.{IsReadActive, IsActiveFault};

use journal_core::{JournalFault, active_gate, next_record};
use record_codec::Record;
use std::alloc::Global;

/// The text of the active area: where it begins, the offset past its closed gate, both in bytes from the
/// start of the disk, and its records in the order of writing.
#[derive(Drop)]
pub struct Active {
    pub base: u64,
    pub end: u64,
    pub records: Vec<Record>,
}

/// Reads the active area. `Bad` exactly where the bytes stand for no records in it, with the first place at
/// which they fail to. Bytes may be any; the time is linear in their number.
pub fn read_active(alloc: Global, bytes: &[u8]) -> Result<Active, JournalFault>
    ensures active { IfOk result (IsReadActive bytes.now) }
    ensures in_grammar { IfOk result (λ active. All IsInGrammar active.records.items) }
    ensures fault { IfErr result (IsActiveFault bytes.now) }
{
    let base = active_gate(bytes)?;
    let mut gate = base;
    let mut records = Vec::new(alloc);
    while let Some((entry, next)) = next_record(bytes, gate)? {
        records.push(entry)?;
        gate = next;
    }
    prove!(gate < bytes.len());
    Ok(Active {
        base: base as u64,
        end: gate as u64 + 1,
        records,
    })
}
