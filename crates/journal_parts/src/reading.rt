ghost use Rattle.std.specs.Prelude.{◌≡◌, ◌↔◌, All, take, IfOk, IfErr, IsTrue};
ghost use Rattle.record_defs.specs.Journal.{magic};
ghost use Rattle.record_codec.specs.Entries.{IsInGrammar};
ghost use Rattle.journal_core.specs.Lists.{newest_first};
ghost use Rattle.journal_parts.specs.Texts.{IsText, IsReadFault};

use journal_core::{BadJournal, JournalFault};
use journal_pack::read_active;
use record_codec::Record;
use std::alloc::Global;

/// What a journal of one area begins with.
const MAGIC: [u8; 8] = *b"HAILJRN1";

fn has_magic(bytes: &[u8]) -> bool
    ensures { IsTrue result ↔ (take 8 bytes.now ≡ magic) }
{
    bytes.len() >= 8 && bytes[..8] == MAGIC[..]
}

/// The records of a journal of one area, whose bytes begin with `HAILJRN1`, in the order of writing. `Bad`
/// comes exactly where the bytes are no such journal, with the first place at which they fail to be one, an
/// offset in bytes; `Memory` where the list found none. Bytes may be any; the time is linear in their number.
/// A disk with a packed journal is read by `read_active` of journal_pack.
#[tactic(auto, using(crate::proofs::Texts::active_text, crate::proofs::Texts::active_fault))]
pub fn read_journal(alloc: Global, bytes: &[u8]) -> Result<Vec<Record>, JournalFault>
    ensures records { IfOk result (λ v. IsText bytes.now (newest_first v.items)) }
    ensures in_grammar { IfOk result (λ v. All IsInGrammar v.items) }
    ensures fault { IfErr result (IsReadFault bytes.now) }
{
    if !has_magic(bytes) {
        return Err(JournalFault::Bad(BadJournal { at: 0 }));
    }
    let active = read_active(alloc, bytes)?;
    Ok(active.records)
}
