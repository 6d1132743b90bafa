use crate::deeds::Deed::{self, Begins, Ends, Held, Next, Reopens, Runs, Steps};
use crate::deeds::{FOUR, first_wrong};
use crate::job::Job;
use crate::store::{Seen, Text};
use std::alloc::Global;

/// A put of the new text over the old one has so many steps: two appends, four stores, four removals and the
/// end.
const STEPS: u32 = 17;

/// What a put leaves that is cut: how its last step ended, the text that a get gives, and the number of the
/// next object.
type Left = (Seen, Text, u64);

/// A put of the new text over the old one is cut after so many steps, with the disk stopped by these picks. A
/// get then gives one of the two texts, and the next put draws a number under which no provider held a block.
fn cut(steps: u32, picks: &'static [u8], left: Left) -> [Deed; 12] {
    let (last, text, number) = left;
    [
        Begins(Job::Put(b"a", b"old"), Ok(1)),
        Runs(1, 13, Seen::Put),
        Begins(Job::Put(b"a", b"new"), Ok(2)),
        Steps(2, steps, last),
        Reopens(picks),
        Begins(Job::Get(b"a"), Ok(1)),
        Ends(1, Seen::Got(text)),
        Next(number),
        Held(number, 0),
        Begins(Job::Put(b"b", b"new"), Ok(2)),
        Runs(2, 13, Seen::Put),
        Held(number, 4),
    ]
}

/// Whether a put that is cut leaves this.
fn leaves(alloc: Global, steps: u32, picks: &'static [u8], left: Left) -> bool {
    first_wrong(alloc, &FOUR, &cut(steps, picks, left)).is_none()
}

/// What it is to leave, where the gates that a stop may undo stay open, or are closed. The fourth and the
/// twelfth step sync a gate that the step before wrote.
fn wanted(steps: u32, open: bool) -> Left {
    let last = if steps == STEPS {
        Seen::Put
    } else {
        Seen::More
    };
    let replaced = steps >= 12 || (open && steps == 11);
    let drawn = steps >= 4 || (open && steps == 3);
    let text = if replaced { Text::New } else { Text::Old };
    let number = if drawn { 3 } else { 2 };
    (last, text, number)
}

/// The first number of steps after which a put that is cut and stopped by these picks leaves something else.
fn first_wrong_cut(alloc: Global, picks: &'static [u8], open: bool) -> Option<u32> {
    for steps in 0..STEPS + 1 {
        if !leaves(alloc, steps, picks, wanted(steps, open)) {
            return Some(steps);
        }
    }
    None
}

/// The picks of a stop, and whether gates that it may undo then stay open.
const STOPS: [(&[u8], bool); 4] = [
    (&[], true),
    (&[0; 50], false),
    (&[255; 50], false),
    (&[1; 50], true),
];

/// The first of the stops, and the number of steps, after which a put leaves something else.
fn first_wrong_stop(alloc: Global) -> Option<(usize, u32)> {
    for place in 0..STOPS.len() {
        let (picks, open) = STOPS[place];
        if let Some(steps) = first_wrong_cut(alloc, picks, open) {
            return Some((place, steps));
        }
    }
    None
}

#[test]
fn cuts_leave_the_old_text_or_the_new(rt: HostRuntime) {
    assert_eq!(rt; first_wrong_stop(rt.alloc()), None);
}
