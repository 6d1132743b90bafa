ghost use Rattle.std.specs.Prelude.{◌≡◌, IfOk};
ghost use Rattle.machine_defs.specs.Lines.{lines_of};
ghost use Rattle.hail_replay.specs.Came.{came_outcome};

use crate::begun::begin_line;
use crate::listed::names_lines;
use crate::opened::{init_line, reopen_line};
use crate::replaced::{replace_line, stop_line};
use crate::stepped::step_line;
use hail_client::{ClientTurn, ReopenFault};
use std::alloc::Global;
use stream_model::{Bytes, Memory};
use vault::{BeginFault, InitFault};
use vault_table::Table;

/// What came of an event of a schedule: what the client's call for it answered. A run of a job is told by its
/// last step.
#[derive(Drop)]
pub enum Came<'a> {
    Inited(Result<(), InitFault>),
    Reopened(Result<(), ReopenFault>),
    Begun(Option<Result<u32, BeginFault>>),
    Stepped(Option<ClientTurn>),
    /// Of an alteration or a loss.
    Replaced(bool),
    Stopped,
    /// The table that has the files in effect, where a vault is open.
    Named(Option<&'a Table>),
}

/// The line or lines that an event writes, each with its newline. Want of memory is its one refusal.
pub fn came_lines(alloc: Global, came: &Came<'_>) -> Result<Bytes, Memory>
    ensures { IfOk result (λ text. text ≡ lines_of (came_outcome came.now)) }
{
    match came {
        Came::Inited(answer) => init_line(alloc, *answer),
        Came::Reopened(answer) => reopen_line(alloc, *answer),
        Came::Begun(answer) => begin_line(alloc, *answer),
        Came::Stepped(answer) => step_line(alloc, answer),
        Came::Replaced(answer) => Bytes::from_slice(alloc, replace_line(*answer)),
        Came::Stopped => Bytes::from_slice(alloc, stop_line()),
        Came::Named(table) => names_lines(alloc, *table),
    }
}
