// How a command ends that runs no job.
ghost use Rattle.std.specs.Prelude.{◌≡◌};
ghost use Rattle.command_defs.specs.Refusals.{status_of};
ghost use Rattle.vault_core.specs.Carried.{refusal_of};
ghost use Rattle.hail_top.specs.Endings.{ending_of, ending_with};
ghost use Rattle.hail_top.specs.Telling.{unread_ending, unopened_ending, unbegun_ending};

use crate::reading::ReadFault;
use crate::report::Report;
use command_jobs::{Unbegun, Unopened};
use exit_statuses::{
    BAD_JOURNAL, BAD_NAME, BAD_SETUP, DISK_FAULT, JOURNAL_FULL, NEW_VERSION, NO_MEMORY,
    NO_SUCH_NAME, NOT_SET_UP, NOTHING_DUE, OLD_VERSION, PACK_TOO_LONG, REPAIR_DUE, SOURCE_FAULT,
    TOO_FEW_PROVIDERS, TOO_LONG, TOO_MANY_FILES,
};
use vault::BeginFault;

/// Tells that a source was not read.
pub fn unread(fault: ReadFault) -> Report
    ensures { ending_of result ≡ unread_ending fault }
{
    match fault {
        ReadFault::Failed => Report::of(SOURCE_FAULT),
        ReadFault::Memory => Report::of(NO_MEMORY),
    }
}

/// Tells that no vault was opened.
pub fn unopened(why: Unopened) -> Report
    ensures { ending_of result ≡ unopened_ending why }
{
    match why {
        Unopened::DiskFault => Report::of(DISK_FAULT),
        Unopened::NotSetUp => Report::of(NOT_SET_UP),
        Unopened::BadJournal { at } => Report::at(BAD_JOURNAL, at),
        Unopened::TooFewProviders => Report::of(TOO_FEW_PROVIDERS),
        Unopened::Memory => Report::of(NO_MEMORY),
    }
}

/// Tells that a job was refused. Where one job runs alone, the vault is open and not busy.
pub fn refused(why: BeginFault) -> Report
    ensures { ending_of result ≡ ending_with (status_of (refusal_of why)) 0 }
{
    match why {
        BeginFault::NoSuchName => Report::of(NO_SUCH_NAME),
        BeginFault::RepairDue => Report::of(REPAIR_DUE),
        BeginFault::NothingDue => Report::of(NOTHING_DUE),
        BeginFault::JournalFull => Report::of(JOURNAL_FULL),
        BeginFault::TooLong => Report::of(TOO_LONG),
        BeginFault::BadName => Report::of(BAD_NAME),
        BeginFault::BadProfile => Report::of(BAD_SETUP),
        BeginFault::TooManyFiles => Report::of(TOO_MANY_FILES),
        BeginFault::OldVersion => Report::of(OLD_VERSION),
        BeginFault::NewVersion => Report::of(NEW_VERSION),
        BeginFault::PackTooLong => Report::of(PACK_TOO_LONG),
        BeginFault::MustReopen | BeginFault::Busy | BeginFault::Memory => Report::of(NO_MEMORY),
    }
}

/// Tells that a put did not begin.
pub fn unbegun(why: Unbegun) -> Report
    ensures { ending_of result ≡ unbegun_ending why }
{
    match why {
        Unbegun::SourceFault => Report::of(SOURCE_FAULT),
        Unbegun::Memory => Report::of(NO_MEMORY),
        Unbegun::Refused(why) => refused(why),
    }
}
