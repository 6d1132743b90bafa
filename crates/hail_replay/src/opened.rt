// The lines of an init and of a reopening.
ghost use Rattle.std.specs.Prelude.{◌≡◌, IfOk};
ghost use Rattle.machine_defs.specs.Events.{Refused};
ghost use Rattle.machine_defs.specs.Lines.{lines_of};
ghost use Rattle.vault_open.specs.Inits.{init_outcome};
ghost use Rattle.hail_client.specs.Outcomes.{start_refusal, reopen_outcome};

use crate::refused::{bad_journal_line, refused_line};
use hail_client::ReopenFault;
use std::alloc::Global;
use stream_model::{Bytes, Memory};
use vault::{InitFault, StartFault};

/// The line of an init: that the store is set up, or why not. Want of memory is its one refusal.
pub fn init_line(alloc: Global, answer: Result<(), InitFault>) -> Result<Bytes, Memory>
    ensures { IfOk result (λ text. text ≡ lines_of (init_outcome answer)) }
{
    match answer {
        Ok(()) => Bytes::from_slice(alloc, b"ready\n"),
        Err(InitFault::BadSetup) => refused_line(alloc, "BadSetup"),
        Err(InitFault::DiskFault) => refused_line(alloc, "DiskFault"),
        Err(InitFault::BadJournal { at }) => bad_journal_line(alloc, at),
        Err(InitFault::Already) => refused_line(alloc, "Already"),
        Err(InitFault::Memory) => refused_line(alloc, "Memory"),
    }
}

/// The line of a start that gave no vault.
fn start_line(alloc: Global, fault: StartFault) -> Result<Bytes, Memory>
    ensures { IfOk result (λ text. text ≡ lines_of (Refused (start_refusal fault))) }
{
    match fault {
        StartFault::DiskFault => refused_line(alloc, "DiskFault"),
        StartFault::NotSetUp => refused_line(alloc, "NotSetUp"),
        StartFault::BadJournal { at } => bad_journal_line(alloc, at),
        StartFault::Memory => refused_line(alloc, "Memory"),
    }
}

/// The line of a reopening: that a vault is open, or why not. Want of memory is its one refusal.
pub fn reopen_line(alloc: Global, answer: Result<(), ReopenFault>) -> Result<Bytes, Memory>
    ensures { IfOk result (λ text. text ≡ lines_of (reopen_outcome answer)) }
{
    match answer {
        Ok(()) => Bytes::from_slice(alloc, b"opened\n"),
        Err(ReopenFault::NotOpened(fault)) => start_line(alloc, fault),
        Err(ReopenFault::TooFewProviders) => refused_line(alloc, "TooFewProviders"),
    }
}
