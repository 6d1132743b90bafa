use crate::deed::Deed;
use crate::rows::SURE;
use crate::store::Store;
use provider_model::MemProvider;
use std::alloc::Global;

/// Schedules of one front, behind which one line, which writes `more`, stands so many times, and then a rest.
pub struct Schedules {
    /// What comes before them, over devices that do not fail.
    pub before: &'static [Deed],
    pub front: &'static str,
    pub told_front: &'static str,
    pub step: &'static str,
    /// How often the line stands, the rest, and what that writes.
    pub rests: &'static [(usize, &'static str, &'static str)],
}

/// A text with a line so many times between its parts.
fn joined(alloc: Global, front: &str, steps: usize, step: &str, rest: &str) -> Option<Vec<u8>> {
    let mut text = Vec::new(alloc);
    text.extend_from_slice(front.as_bytes()).ok()?;
    for _ in 0..steps {
        text.extend_from_slice(step.as_bytes()).ok()?;
    }
    text.extend_from_slice(rest.as_bytes()).ok()?;
    Some(text)
}

/// Whether a text is this front, `more` so many times, and this rest.
fn is_told(text: &[u8], front: &str, steps: usize, rest: &str) -> Option<bool> {
    let mut left = text.strip_prefix(front.as_bytes())?;
    for _ in 0..steps {
        left = left.strip_prefix(b"more\n")?;
    }
    Some(left == rest.as_bytes())
}

impl Store<MemProvider> {
    /// Whether the schedule at a place writes what it is to.
    fn replays(&mut self, all: &Schedules, place: usize) -> Option<bool> {
        let (steps, rest, told) = *all.rests.get(place)?;
        let schedule = joined(self.alloc, all.front, steps, all.step, rest)?;
        is_told(self.replayed(&schedule)?, all.told_front, steps, told)
    }

    /// The place of the first schedule that writes otherwise, over devices of its own.
    pub fn first_wrong_schedule(&mut self, all: &Schedules) -> Option<usize> {
        for place in 0..all.rests.len() {
            let right = self.renew(&SURE) && self.all_go(all.before);
            if !right || self.replays(all, place) != Some(true) {
                return Some(place);
            }
        }
        None
    }
}
