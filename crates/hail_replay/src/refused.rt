// The line of a refusal.
ghost use Rattle.std.specs.Prelude.{◌≡◌, ◌++◌, codes, IfOk};
ghost use Rattle.machine_defs.specs.Lines.{line, refusal_text};
ghost use Rattle.machine_defs.specs.Refusals.{BadJournal};

use crate::text::of_text;
use command_lines::numbered_line;
use std::alloc::Global;
use stream_model::{Bytes, Memory};

/// The line of a refusal of this name.
pub(crate) fn refused_line(alloc: Global, name: &str) -> Result<Bytes, Memory>
    ensures { IfOk result (λ text. text ≡ line (codes "refused " ++ name.now)) }
{
    Ok(of_text(format!(in alloc; "refused {name}\n")?))
}

/// The line of a disk that is no journal, with the offset of its first bad byte.
pub(crate) fn bad_journal_line(alloc: Global, at: u64) -> Result<Bytes, Memory>
    ensures { IfOk result (λ text. text ≡ line (codes "refused " ++ refusal_text (BadJournal at))) }
{
    numbered_line(alloc, b"refused BadJournal", at)
}
