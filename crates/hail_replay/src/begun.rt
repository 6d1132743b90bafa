// The line of a begin.
ghost use Rattle.std.specs.Prelude.{◌≡◌, IfOk};
ghost use Rattle.machine_defs.specs.Lines.{lines_of, refusal_text};
ghost use Rattle.vault_core.specs.Carried.{refusal_of};
ghost use Rattle.hail_client.specs.Outcomes.{client_begin_outcome};

use crate::refused::refused_line;
use command_lines::numbered_line;
use std::alloc::Global;
use stream_model::{Bytes, Memory};
use vault::BeginFault;

/// The name of a refusal.
fn name_of(fault: BeginFault) -> &'static str
    ensures { result.now ≡ refusal_text (refusal_of fault) }
{
    match fault {
        BeginFault::MustReopen => "MustReopen",
        BeginFault::Busy => "Busy",
        BeginFault::BadName => "BadName",
        BeginFault::BadProfile => "BadProfile",
        BeginFault::TooLong => "TooLong",
        BeginFault::OldVersion => "OldVersion",
        BeginFault::NoSuchName => "NoSuchName",
        BeginFault::TooManyFiles => "TooManyFiles",
        BeginFault::RepairDue => "RepairDue",
        BeginFault::NothingDue => "NothingDue",
        BeginFault::NewVersion => "NewVersion",
        BeginFault::JournalFull => "JournalFull",
        BeginFault::PackTooLong => "PackTooLong",
        BeginFault::Memory => "Memory",
    }
}

/// The line of a begin: the number of its job, or why it was refused, or that no vault is open. Want of
/// memory is its one refusal.
pub fn begin_line(alloc: Global, answer: Option<Result<u32, BeginFault>>) -> Result<Bytes, Memory>
    ensures { IfOk result (λ text. text ≡ lines_of (client_begin_outcome answer)) }
{
    match answer {
        None => Bytes::from_slice(alloc, b"closed\n"),
        Some(Ok(job)) => numbered_line(alloc, b"job", u64::from(job)),
        Some(Err(fault)) => refused_line(alloc, name_of(fault)),
    }
}
