// Rows of a link over which requests go out ahead of the answers.
use crate::far_end::{FarEnd, HONEST, Manner, Seen};
use crate::frames::{fetch, found, question, remove, store};
use provider_wire::Link;
use remote_adapters::AheadLink;
use std::alloc::{Alloc, Global};
use std::process::Abort;

/// What is done over a link, or seen at its far end. A block has one symbol: a number and its stripe.
#[derive(Clone, Copy)]
enum Step {
    /// The blocks of an object from a stripe to another are stored, by this number.
    Store(u64, u32, u32, u64),
    /// They are fetched, and are there.
    Fetch(u64, u32, u32, u64),
    /// They are fetched, and none is there.
    Lacks(u64, u32, u32),
    /// Stripe 0 of the objects from one to another is fetched, and is not there.
    LackEach(u64, u64),
    /// An object is removed.
    Remove(u64),
    /// A question is asked of an object, of which one symbol answers it, or none.
    Ask(u64, Option<u64>),
    /// The same is likely to be asked next.
    AskAhead(u64),
    /// All answers to stores were a yes, or not.
    Settle(bool),
    /// A store, a fetch and a removal fail.
    Fail,
    /// So many stores and fetches came, and at most so many bytes of answers were due.
    Seen(u64, u64, u64),
}

fn send<L: Link + Drop>(link: &mut AheadLink<L>, request: &[u8]) -> bool {
    link.send(request).is_ok()
}

fn send_ahead<L: Link + Drop>(link: &mut AheadLink<L>, request: &[u8]) -> bool {
    link.send_ahead(request);
    true
}

fn receive<L: Link + Drop>(link: &mut AheadLink<L>, out: &mut [u8]) -> Option<usize> {
    link.receive(out).ok()
}

fn settle<L: Link + Drop>(link: &mut AheadLink<L>) -> bool {
    link.settle().is_ok()
}

/// Whether a request is answered so.
fn answers<L: Link + Drop>(link: &mut AheadLink<L>, request: &[u8], wanted: &[u8]) -> bool {
    let mut out = [0; 24];
    if !send(link, request) {
        return false;
    }
    match receive(link, &mut out) {
        Some(count) => out.get(..count) == Some(wanted),
        None => false,
    }
}

/// Whether a request fails.
fn fails<L: Link + Drop>(link: &mut AheadLink<L>, request: &[u8]) -> bool {
    let mut out = [0; 24];
    !send(link, request) && receive(link, &mut out).is_none()
}

/// The block of a stripe by a number.
fn symbol(number: u64, stripe: u32) -> u64 {
    number.saturating_add(stripe.into())
}

/// Whether each of these blocks is stored.
fn stores<L: Link + Drop>(
    link: &mut AheadLink<L>,
    object: u64,
    from: u32,
    to: u32,
    number: u64,
) -> bool {
    for stripe in from..to {
        if !answers(link, &store(object, stripe, symbol(number, stripe)), &[1]) {
            return false;
        }
    }
    true
}

/// Whether each of these blocks is there.
fn fetches<L: Link + Drop>(
    link: &mut AheadLink<L>,
    object: u64,
    from: u32,
    to: u32,
    number: u64,
) -> bool {
    for stripe in from..to {
        if !answers(link, &fetch(object, stripe), &found(symbol(number, stripe))) {
            return false;
        }
    }
    true
}

/// Whether none of these blocks is there.
fn lacks<L: Link + Drop>(link: &mut AheadLink<L>, object: u64, from: u32, to: u32) -> bool {
    for stripe in from..to {
        if !answers(link, &fetch(object, stripe), &[0]) {
            return false;
        }
    }
    true
}

/// Whether none of these objects is there.
fn lack_each<L: Link + Drop>(link: &mut AheadLink<L>, from: u64, to: u64) -> bool {
    for object in from..to {
        if !lacks(link, object, 0, 1) {
            return false;
        }
    }
    true
}

/// Whether a question is answered so.
fn asks<L: Link + Drop>(link: &mut AheadLink<L>, object: u64, wanted: Option<u64>) -> bool {
    match wanted {
        Some(symbol) => answers(link, &question(object), &found(symbol)),
        None => answers(link, &question(object), &[0]),
    }
}

/// Whether a far end has seen so much.
fn has_seen(seen: &Seen, stores: u64, fetches: u64, most_due: u64) -> bool {
    seen.stores.get() == stores && seen.fetches.get() == fetches && seen.most_due.get() <= most_due
}

impl Step {
    /// Whether it goes so.
    fn is_right<L: Link + Drop>(&self, link: &mut AheadLink<L>, seen: &Seen) -> bool {
        match *self {
            Step::Store(object, from, to, number) => stores(link, object, from, to, number),
            Step::Fetch(object, from, to, number) => fetches(link, object, from, to, number),
            Step::Lacks(object, from, to) => lacks(link, object, from, to),
            Step::LackEach(from, to) => lack_each(link, from, to),
            Step::Remove(object) => answers(link, &remove(object), &[1]),
            Step::Ask(object, wanted) => asks(link, object, wanted),
            Step::AskAhead(object) => send_ahead(link, &question(object)),
            Step::Settle(wanted) => settle(link) == wanted,
            Step::Fail => fails(link, &store(1, 0, 0))
                && fails(link, &fetch(1, 0))
                && fails(link, &remove(1)),
            Step::Seen(stores, fetches, most_due) => has_seen(seen, stores, fetches, most_due),
        }
    }
}

/// The place of the first of these steps that goes otherwise, or none.
fn first_wrong<L: Link + Drop>(
    link: &mut AheadLink<L>,
    seen: &Seen,
    steps: &[Step],
) -> Option<usize> {
    for place in 0..steps.len() {
        if !steps[place].is_right(link, seen) {
            return Some(place);
        }
    }
    None
}

/// The same over a new link to a far end of this manner; behind the last where there is no memory.
fn over_far_end(alloc: Global, manner: Manner, steps: &[Step]) -> Option<usize> {
    let Ok((far_end, seen)) = FarEnd::new(alloc, manner) else {
        return Some(steps.len());
    };
    match AheadLink::new(alloc, far_end) {
        Ok(mut link) => first_wrong(&mut link, &seen, steps),
        Err(_) => Some(steps.len()),
    }
}

// Each block comes to its own fetch, whichever of another object came before. A file that is read from its start
// is asked for by 8 blocks, and then by twice as many; one block within is asked for alone.
static IN_ORDER: [Step; 17] = [
    Step::Store(1, 0, 300, 1000),
    Step::Store(2, 0, 40, 5000),
    Step::Settle(true),
    Step::Fetch(1, 0, 1, 1000),
    Step::Seen(340, 8, 1024),
    Step::Fetch(1, 1, 300, 1000),
    Step::Lacks(1, 300, 301),
    Step::Fetch(2, 0, 40, 5000),
    Step::Fetch(1, 256, 300, 1000),
    Step::Ask(99, None),
    Step::Ask(2, Some(5000)),
    Step::AskAhead(1),
    Step::Ask(1, Some(1000)),
    Step::AskAhead(1),
    Step::Ask(2, Some(5000)),
    Step::Fetch(1, 299, 300, 1000),
    Step::Fetch(1, 3, 4, 1000),
];

// A thousand files of one block cost eight thousand fetches, not sixty-three thousand.
static SHORT_FILES: [Step; 2] = [Step::LackEach(1, 1001), Step::Seen(0, 8000, 1024)];

// No block that came ahead is given behind a store of it, whatever came of those before it.
static STORED_OVER: [Step; 9] = [
    Step::Store(1, 0, 20, 100),
    Step::Fetch(1, 0, 1, 100),
    Step::Store(1, 1, 2, 900),
    Step::Fetch(1, 1, 2, 900),
    Step::Fetch(1, 2, 4, 100),
    Step::Store(1, 7, 8, 900),
    Step::Fetch(1, 4, 7, 100),
    Step::Fetch(1, 7, 8, 900),
    Step::Fetch(1, 8, 20, 100),
];

// Nor one of an object that was removed; the blocks of another go on.
static REMOVED: [Step; 8] = [
    Step::Store(1, 0, 20, 100),
    Step::Store(2, 0, 20, 500),
    Step::Fetch(1, 0, 3, 100),
    Step::Remove(1),
    Step::Lacks(1, 3, 20),
    Step::Fetch(2, 0, 3, 500),
    Step::Remove(1),
    Step::Fetch(2, 3, 20, 500),
];

// However many stores there are, 1,024 answers of a byte are due at most. Once they are settled nothing is left
// over: what comes next has its own answer.
static MANY_STORES: [Step; 8] = [
    Step::Store(1, 0, 3000, 1),
    Step::Seen(3000, 0, 1024),
    Step::Settle(true),
    Step::Ask(1, Some(1)),
    Step::Fetch(1, 2990, 3000, 1),
    Step::Store(1, 0, 1, 7),
    Step::Fetch(1, 0, 1, 7),
    Step::Fetch(1, 1, 2, 1),
];

/// So many rows there are of a far end that says yes to all.
const ROWS: u8 = 5;

/// The row of this number.
fn steps(row: u8) -> &'static [Step] {
    match row {
        0 => &IN_ORDER,
        1 => &SHORT_FILES,
        2 => &STORED_OVER,
        3 => &REMOVED,
        _ => &MANY_STORES,
    }
}

/// The pieces in which it answers.
const PIECES: [usize; 3] = [4096, 7, 1];

/// The first of these rows that goes otherwise where answers come in such pieces, and its step.
fn first_wrong_row(alloc: Global, piece: usize) -> Option<(u8, usize)> {
    let manner = Manner { piece, ..HONEST };
    for row in 0..ROWS {
        if let Some(step) = over_far_end(alloc, manner, steps(row)) {
            return Some((row, step));
        }
    }
    None
}

/// The first of the pieces in which a row goes otherwise, the row and its step.
fn first_wrong_piece(alloc: Global) -> Option<(usize, (u8, usize))> {
    for piece in PIECES {
        if let Some(wrong) = first_wrong_row(alloc, piece) {
            return Some((piece, wrong));
        }
    }
    None
}

#[test]
fn answers_are_read_later_and_blocks_ahead(rt: HostRuntime) {
    assert_eq!(rt; first_wrong_piece(rt.alloc()), None);
}

/// What comes in place of a yes: a fault, no memory, nothing, and what is no answer to a store.
const LATE: [&[u8]; 5] = [&[2], &[3], &[], &[0], &[7]];

/// How many stores there are, of which the last or the first is answered so.
const STORES: [u32; 8] = [1, 2, 255, 256, 257, 512, 1024, 1025];

/// Whether a far end that does not say yes to the store of a number, of so many, is told when they are settled, and
/// ever again.
fn is_told(alloc: Global, late: &'static [u8], stores: u32, late_at: u64) -> bool {
    let manner = Manner {
        piece: 4096,
        late_at,
        late,
    };
    let steps = [
        Step::Store(1, 0, stores, 1),
        Step::Settle(false),
        Step::Settle(false),
        Step::Fail,
    ];
    over_far_end(alloc, manner, &steps).is_none()
}

/// Whether it is told of the first store and of the last.
fn is_told_at_both(alloc: Global, late: &'static [u8], stores: u32) -> bool {
    is_told(alloc, late, stores, u64::from(stores).saturating_sub(1))
        && (stores > 1024 || is_told(alloc, late, stores, 0))
}

/// The first late answer that is not told, and of how many stores.
fn first_untold(alloc: Global) -> Option<(usize, u32)> {
    for place in 0..LATE.len() {
        for stores in STORES {
            if !is_told_at_both(alloc, LATE[place], stores) {
                return Some((place, stores));
            }
        }
    }
    None
}

#[test]
fn a_late_no_is_told(rt: HostRuntime) {
    assert_eq!(rt; first_untold(rt.alloc()), None);
}
