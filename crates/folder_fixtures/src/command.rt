use crate::home::Devices;
use crate::stand_in::StandIn;
use command_fixtures::{NONE_FAILS, Told, tell};
use std::alloc::Global;

/// A command, its input, and how it ends: its status, and what it writes.
#[derive(Clone, Copy)]
pub struct Row {
    pub line: &'static str,
    pub input: &'static [u8],
    pub status: u8,
    pub text: &'static [u8],
}

/// What is told of a command over the journal and the providers of the home, whose barrier is passed at its
/// end. Want of memory, and a barrier that is not passed, are the refusals.
fn told(files: &StandIn, alloc: Global, row: &Row) -> Option<Told> {
    let mut home = Devices::new(files, alloc)?;
    let told = tell(
        alloc,
        row.line,
        row.input,
        NONE_FAILS,
        &mut home.disk,
        &mut home.providers,
    );
    home.barrier.pass().ok()?;
    told
}

/// Whether a command ends as its row says.
pub fn goes(files: &StandIn, alloc: Global, row: &Row) -> bool {
    match told(files, alloc, row) {
        Some(told) => told.is(row.status, 0, row.text),
        None => false,
    }
}

/// Whether each command ends as its row says.
pub fn all_go(files: &StandIn, alloc: Global, rows: &[Row]) -> bool {
    for row in rows {
        if !goes(files, alloc, row) {
            return false;
        }
    }
    true
}

/// Whether commands end as their rows say, then one over files that keep nothing of what is written to them,
/// and then others over files that keep it again.
pub fn goes_over_forgetful_files(alloc: Global, before: &[Row], row: &Row, after: &[Row]) -> bool {
    let Ok(files) = StandIn::new(alloc) else {
        return false;
    };
    let began = all_go(&files, alloc, before);
    files.set_keeping(false);
    let went = goes(&files, alloc, row);
    files.set_keeping(true);
    began && went && all_go(&files, alloc, after)
}
