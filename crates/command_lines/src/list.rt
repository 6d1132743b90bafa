// The lines of the files in effect.
ghost use Rattle.std.specs.Prelude.{◌≡◌, ◌++◌, IfOk, OnOk};
ghost use Rattle.record_defs.specs.Table.{files_of};
ghost use Rattle.command_defs.specs.Lines.{list_lines};
ghost use Rattle.vault_table.specs.Values.{IsFoldOf};

use crate::pieces::push_line;
use std::alloc::{AllocError, Global};
use stream_model::{Bytes, Memory};
use vault_table::Table;

/// Puts a line for each file in effect behind the text. After want of memory some front of them may stand
/// there.
pub fn push_files(alloc: Global, text: &mut Vec<u8>, table: &Table) -> Result<(), AllocError>
    ensures { OnOk result (text.new.items ≡ text.old.items ++ list_lines table.now.files) }
{
    for place in 0..table.count() {
        if let Some(file) = table.at(place) {
            push_line(alloc, text, file.name.as_bytes(), u64::from(file.length))?;
        }
    }
    Ok(())
}

/// A line for each file in effect, in byte order of the names: its name and its length in bytes. Want of
/// memory is its one refusal.
pub fn list_lines(alloc: Global, table: &Table) -> Result<Bytes, Memory>
    ensures table { IfOk result (λ lines. lines ≡ list_lines table.now.files) }
    ensures records { IfOk result (λ lines. (rs : _) → IsFoldOf rs table.now → lines ≡ list_lines
        (files_of rs)) }
{
    let mut text = Vec::new(alloc);
    push_files(alloc, &mut text, table)?;
    Ok(Bytes::from_vec(text))
}
