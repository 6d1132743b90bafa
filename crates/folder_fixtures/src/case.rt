use crate::command::{Row, all_go, goes};
use crate::medium::{ALL, CUTS, Stays};
use crate::stand_in::StandIn;
use std::alloc::Global;
use std::fs::{self, OpenFile};
use std::io;

/// What commands show of a home, and the paths at which blocks are then whole.
#[derive(Clone, Copy)]
pub struct Shown {
    pub rows: &'static [Row],
    pub blocks: &'static [&'static str],
}

/// A command in which the power is cut.
pub struct Case {
    /// The commands before it, behind which all that they wrote is on the medium.
    pub before: &'static [Row],
    /// The path of the block that is then lost, if any, and the command that finds it.
    pub lost: Option<(&'static str, Row)>,
    /// How the command ends where the power is not cut.
    pub row: Row,
    /// What is shown without its effect.
    pub without: Shown,
    /// What is shown with it.
    pub with: Shown,
}

/// A cut: behind how many calls that change something, and which of `CUTS` is what stays.
pub type Cut = (u64, usize);

/// How the folders of the home's providers keep blocks.
#[derive(Clone, Copy, PartialEq, Eq)]
pub enum Form {
    /// Each is a file.
    Plain,
    /// Each object is a file.
    Stacked,
}

impl Form {
    /// The path of what keeps the block at a path, which is the one block of an object and at stripe 0.
    fn path<'a>(&self, block: &'a str) -> &'a str {
        match self {
            Form::Plain => block,
            Form::Stacked => block.strip_suffix("-0").unwrap_or(block),
        }
    }

    /// Says in an empty home of which form the folders are.
    fn set_up(&self, files: &StandIn, alloc: Global) -> io::Result<()> {
        if *self == Form::Plain {
            return Ok(());
        }
        for number in 0..4u8 {
            let path = format!(in alloc; "home/stack-{number}")?;
            fs::write(files, &path, b"")?;
        }
        fs::open(files, "home")?.sync_all()
    }
}

/// The home before a command and behind it, where the power was not cut.
#[derive(Drop)]
struct Uncut {
    form: Form,
    before: StandIn,
    after: StandIn,
    /// How many calls of the command changed something.
    calls: u64,
}

/// A home whose power was cut in a command, and whether the command ended as its row says.
#[derive(Drop)]
struct CutOff {
    files: StandIn,
    acknowledged: bool,
}

/// The home behind a cut, or none.
fn left(files: &StandIn, alloc: Global, stays: Stays) -> Option<StandIn> {
    files.after_cut(alloc, stays).ok()
}

impl Uncut {
    /// Whether what a cut left has the block at a path as it was before or behind the command.
    fn has_block(&self, left: &StandIn, path: &str) -> bool {
        let path = self.form.path(path);
        left.has_same(&self.before, path) || left.has_same(&self.after, path)
    }

    /// Whether what a cut left has the blocks at these paths.
    fn has_blocks(&self, left: &StandIn, paths: &[&str]) -> bool {
        for path in paths {
            if !self.has_block(left, *path) {
                return false;
            }
        }
        true
    }

    /// Whether what a cut leaves shows this.
    fn shows(&self, cut: &CutOff, alloc: Global, stays: Stays, shown: Shown) -> bool {
        match left(&cut.files, alloc, stays) {
            Some(left) => all_go(&left, alloc, shown.rows) && self.has_blocks(&left, shown.blocks),
            None => false,
        }
    }
}

impl Case {
    /// Whether the commands before it go as they are to, and the block that is to be lost was there and is
    /// found to be lost.
    fn is_begun(&self, files: &StandIn, alloc: Global, form: Form) -> bool {
        form.set_up(files, alloc).is_ok()
            && all_go(files, alloc, self.before)
            && match &self.lost {
                Some((path, found)) => fs::remove_file(files, form.path(*path)).is_ok()
                    && goes(files, alloc, found),
                None => true,
            }
    }

    /// The home before the command.
    fn start(&self, alloc: Global, form: Form) -> Option<StandIn> {
        let files = StandIn::new(alloc).ok()?;
        if self.is_begun(&files, alloc, form) {
            left(&files, alloc, ALL)
        } else {
            None
        }
    }

    /// How many calls of the command change something, where it ends as its row says.
    fn calls(&self, files: &StandIn, alloc: Global) -> Option<u64> {
        let most = files.calls_left();
        if goes(files, alloc, &self.row) {
            Some(most.saturating_sub(files.calls_left()))
        } else {
            None
        }
    }

    /// The home whose power was not cut, from how it was before.
    fn uncut_from(&self, alloc: Global, form: Form, before: StandIn) -> Option<Uncut> {
        let after = left(&before, alloc, ALL)?;
        let calls = self.calls(&after, alloc)?;
        Some(Uncut {
            form,
            before,
            after,
            calls,
        })
    }

    /// The home whose power was not cut.
    fn uncut(&self, alloc: Global, form: Form) -> Option<Uncut> {
        self.uncut_from(alloc, form, self.start(alloc, form)?)
    }

    /// Whether what a cut left shows the effect, or nothing of it, which it may where the effect was not
    /// acknowledged.
    fn is_right(&self, alloc: Global, uncut: &Uncut, cut: &CutOff, stays: Stays) -> bool {
        uncut.shows(cut, alloc, stays, self.with)
            || (!cut.acknowledged && uncut.shows(cut, alloc, stays, self.without))
    }

    /// The command, whose power is cut behind so many calls that change something.
    fn cut_off(&self, alloc: Global, uncut: &Uncut, calls: u64) -> Option<CutOff> {
        let files = left(&uncut.before, alloc, ALL)?;
        files.cut_after(calls);
        let acknowledged = goes(&files, alloc, &self.row);
        Some(CutOff {
            files,
            acknowledged,
        })
    }

    /// The first of `CUTS`, if any, in which things go otherwise behind a cut.
    fn first_wrong_stays(&self, alloc: Global, uncut: &Uncut, cut: &CutOff) -> Option<usize> {
        for place in 0..CUTS.len() {
            if !self.is_right(alloc, uncut, cut, CUTS[place]) {
                return Some(place);
            }
        }
        None
    }

    /// The same where the power is cut behind so many calls.
    fn first_wrong_behind(&self, alloc: Global, uncut: &Uncut, calls: u64) -> Option<usize> {
        match self.cut_off(alloc, uncut, calls) {
            Some(cut) => self.first_wrong_stays(alloc, uncut, &cut),
            None => Some(CUTS.len()),
        }
    }

    /// The first cut at which things go otherwise, from before the first call that changes something on to
    /// behind the last.
    fn first_wrong(&self, alloc: Global, uncut: &Uncut) -> Option<Cut> {
        for calls in 0..uncut.calls.saturating_add(2) {
            if let Some(place) = self.first_wrong_behind(alloc, uncut, calls) {
                return Some((calls, place));
            }
        }
        None
    }
}

/// The first cut at which a case goes otherwise over folders of a form. Where the command that is not cut goes
/// otherwise than its row says, that is told behind the last call of all.
pub fn first_wrong_cut(alloc: Global, case: &Case, form: Form) -> Option<Cut> {
    match case.uncut(alloc, form) {
        Some(uncut) => case.first_wrong(alloc, &uncut),
        None => Some((u64::MAX, CUTS.len())),
    }
}
