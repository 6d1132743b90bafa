// The lines of a list of the files in effect.
ghost use Rattle.std.specs.Prelude.{◌≡◌, IfOk, option_copied};
ghost use Rattle.machine_defs.specs.Events.{Listed};
ghost use Rattle.machine_defs.specs.Lines.{lines_of};
ghost use Rattle.hail_client.specs.Outcomes.{names_outcome};

use command_lines::{push_files, push_line};
use std::alloc::Global;
use stream_model::{Bytes, Memory};
use vault_table::Table;

/// How many files are in effect, and a line for each.
fn listed_lines(alloc: Global, table: &Table) -> Result<Bytes, Memory>
    ensures { IfOk result (λ text. text ≡ lines_of (Listed table.now.files)) }
{
    let mut text = Vec::new(alloc);
    push_line(alloc, &mut text, b"names", table.count() as u64)?;
    push_files(alloc, &mut text, table)?;
    Ok(Bytes::from_vec(text))
}

/// The lines of a list: how many files are in effect, and a line for each in byte order of the names, or that
/// no vault is open. Want of memory is its one refusal.
pub fn names_lines(alloc: Global, table: Option<&Table>) -> Result<Bytes, Memory>
    ensures { IfOk result (λ text. text ≡ lines_of (names_outcome (option_copied table.entry))) }
{
    match table {
        Some(table) => listed_lines(alloc, table),
        None => Bytes::from_slice(alloc, b"closed\n"),
    }
}
