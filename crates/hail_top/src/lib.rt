//! The top call: everything that the program does.
#![tactic(auto)]

mod alone;
mod carry;
pub mod laws;
mod list;
mod pack;
mod put;
mod reading;
mod refusals;
mod report;
mod row;
mod scrub;
mod serve;
mod set_up;
mod tell;
mod top;

pub use exit_statuses::{
    ALREADY_SET_UP, BAD_FRAME, BAD_JOURNAL, BAD_KEY, BAD_NAME, BAD_SCHEDULE, BAD_SETUP, DISK_FAULT,
    JOURNAL_FULL, LOST_ROW, NEW_VERSION, NO_MEMORY, NO_SUCH_NAME, NOT_SET_UP, NOTHING_DUE,
    OLD_VERSION, PACK_TOO_LONG, PROVIDER_FAULT, REPAIR_DUE, SINK_FAULT, SOURCE_FAULT,
    TOO_FEW_PROVIDERS, TOO_LONG, TOO_MANY_FILES, USAGE,
};
pub use report::Report;
pub use top::hail;
