use crate::deed::Deed;
use crate::rows::SURE;
use crate::store::Store;
use provider_model::MemProvider;

/// A command whose disk fails at one of its calls.
pub struct Case {
    /// What comes before it, over devices that do not fail.
    pub before: &'static [Deed],
    pub line: &'static str,
    pub input: &'static [u8],
    /// What the command writes, and ends with 0, where the disk does not fail.
    pub text: &'static [u8],
    /// How many calls of the disk it makes: it is a disk fault where one of them fails.
    pub calls: u64,
    /// The call from which on the effect of the command stands.
    pub stands: u64,
    /// What a disk that does not fail shows without the effect.
    pub without: &'static [Deed],
    /// What it shows with the effect.
    pub with: &'static [Deed],
}

impl Case {
    /// How the command is to end where its disk fails at a call.
    fn ending(&self, call: u64) -> Deed {
        if call < self.calls {
            Deed::Refused(self.line, self.input, 12, 0)
        } else {
            Deed::Done(self.line, self.input, self.text)
        }
    }

    /// What a disk that does not fail shows once the command was made over one that fails at a call.
    fn later(&self, call: u64) -> &'static [Deed] {
        if call < self.stands {
            self.without
        } else {
            self.with
        }
    }
}

impl Store<MemProvider> {
    /// Whether the command of a case, over a disk that fails at a call, and what a disk without faults shows
    /// afterwards, go as they are to.
    fn bears(&mut self, case: &Case, call: u64) -> bool {
        self.renew(&SURE)
            && self.all_go(case.before)
            && self.fails_at(&[call])
            && self.goes(&case.ending(call))
            && self.fails_at(&[])
            && self.all_go(case.later(call))
    }

    /// The first call at which a failing disk lets a case go otherwise, of all that its command makes and two
    /// more.
    pub fn first_wrong_call(&mut self, case: &Case) -> Option<usize> {
        for call in 0..case.calls.saturating_add(2) {
            if !self.bears(case, call) {
                return Some(call as usize);
            }
        }
        None
    }
}
