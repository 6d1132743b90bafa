use crate::files::{Files, scrubbed};
use crate::stores::Deed::{self, Alters, Loses};
use crate::stores::{are_alike, damage, stored};
use hail_scrub::ScrubAnswer;
use std::alloc::Global;
use std::process::Abort;

/// How a scrub is to end.
#[derive(Clone, Copy)]
enum End {
    /// So many stripes, and of each provider so many symbols and blocks. All blocks are the first ones then.
    Finds(u64, [u64; 6], [u64; 6]),
    /// A row of a stripe that is not accepted. No block is written then.
    Lost(u32, u64),
    /// A provider whose store failed.
    Fault(u32),
}

/// A scrub of these files, of which the listed calls of the last provider fail, after what was done to the
/// providers, is to end so.
struct Row {
    files: Files,
    fails: &'static [u64],
    deeds: &'static [Deed],
    end: End,
}

const NONE: [u64; 6] = [0; 6];

static ROWS: [Row; 15] = [
    // with no file there is nothing to find
    Row {
        files: Files::Nothing,
        fails: &[],
        deeds: &[],
        end: End::Finds(0, NONE, NONE),
    },
    Row {
        files: Files::All,
        fails: &[],
        deeds: &[],
        end: End::Finds(5, NONE, NONE),
    },
    // a lost block counts all its symbols, an altered one those that differ
    Row {
        files: Files::Notes,
        fails: &[],
        deeds: &[Loses(0, 1, 0), Alters(5, 1, 0, 4)],
        end: End::Finds(1, [16, 0, 0, 0, 0, 4], [1, 0, 0, 0, 0, 1]),
    },
    // two are more than may be bad
    Row {
        files: Files::Notes,
        fails: &[],
        deeds: &[Loses(0, 1, 0), Loses(1, 1, 0)],
        end: End::Lost(0, 0),
    },
    // each file by its own profile, each stripe by itself
    Row {
        files: Files::All,
        fails: &[],
        deeds: &[
            Alters(4, 1, 0, 2),
            Loses(2, 2, 0),
            Loses(3, 2, 2),
            Alters(2, 2, 1, 6),
        ],
        end: End::Finds(5, [0, 0, 12, 6, 2, 0], [0, 0, 2, 1, 1, 0]),
    },
    Row {
        files: Files::All,
        fails: &[],
        deeds: &[
            Loses(0, 1, 0),
            Alters(5, 2, 1, 3),
            Loses(2, 3, 0),
            Alters(4, 3, 0, 4),
        ],
        end: End::Finds(5, [16, 0, 32, 0, 4, 3], [1, 0, 1, 0, 1, 1]),
    },
    Row {
        files: Files::All,
        fails: &[],
        deeds: &[Loses(1, 2, 2), Loses(4, 2, 2)],
        end: End::Lost(2, 12),
    },
    // a fetch that fails gives no block
    Row {
        files: Files::Notes,
        fails: &[5],
        deeds: &[],
        end: End::Finds(1, [0, 0, 0, 0, 0, 16], [0, 0, 0, 0, 0, 1]),
    },
    // a store that fails ends the scrub
    Row {
        files: Files::Notes,
        fails: &[6],
        deeds: &[Loses(5, 1, 0)],
        end: End::Fault(5),
    },
    // each call of a provider in turn, and one more
    Row {
        files: Files::All,
        fails: &[5],
        deeds: &[],
        end: End::Finds(5, [0, 0, 0, 0, 0, 16], [0, 0, 0, 0, 0, 1]),
    },
    Row {
        files: Files::All,
        fails: &[6],
        deeds: &[],
        end: End::Finds(5, [0, 0, 0, 0, 0, 6], [0, 0, 0, 0, 0, 1]),
    },
    Row {
        files: Files::All,
        fails: &[8],
        deeds: &[],
        end: End::Finds(5, [0, 0, 0, 0, 0, 6], [0, 0, 0, 0, 0, 1]),
    },
    Row {
        files: Files::All,
        fails: &[9],
        deeds: &[],
        end: End::Finds(5, [0, 0, 0, 0, 0, 32], [0, 0, 0, 0, 0, 1]),
    },
    Row {
        files: Files::All,
        fails: &[10],
        deeds: &[],
        end: End::Finds(5, NONE, NONE),
    },
    Row {
        files: Files::All,
        fails: &[5, 6],
        deeds: &[],
        end: End::Fault(5),
    },
];

/// Whether the front of one list is the other, and zeros follow.
fn begins_with(all: &[u64], front: &[u64]) -> bool {
    for place in 0..all.len() {
        let wanted = front.get(place).copied().unwrap_or(0);
        if all[place] != wanted {
            return false;
        }
    }
    true
}

/// Whether a scrub ended so.
fn has_ended(answer: Option<ScrubAnswer>, end: End) -> bool {
    match (answer, end) {
        (
            Some(
                ScrubAnswer::Scrubbed {
                    stripes,
                    symbols,
                    blocks,
                },
            ),
            End::Finds(read, counts, bad),
        ) => {
            stripes == read
                && begins_with(symbols.as_slice(), counts.as_slice())
                && begins_with(blocks.as_slice(), bad.as_slice())
        }
        (Some(ScrubAnswer::Lost { stripe, row }), End::Lost(of, at)) => stripe == of && row == at,
        (Some(ScrubAnswer::ProviderFault { provider }), End::Fault(at)) => provider == at,
        _ => false,
    }
}

/// Whether a row goes as it is to.
fn goes(rt: &impl Abort, alloc: Global, row: &Row) -> bool {
    let mut providers = stored(rt, alloc, row.fails);
    let mut damaged = stored(rt, alloc, &[]);
    for deed in row.deeds {
        damage(&mut providers, *deed);
        damage(&mut damaged, *deed);
    }
    let answer = scrubbed(rt, alloc, row.files, &mut providers);
    let then = match row.end {
        End::Finds(..) => stored(rt, alloc, &[]),
        End::Lost(..) | End::Fault(_) => damaged,
    };
    has_ended(answer, row.end) && are_alike(&providers, &then)
}

/// The first row that goes otherwise.
fn first_wrong(rt: &impl Abort, alloc: Global) -> Option<usize> {
    for place in 0..ROWS.len() {
        if !goes(rt, alloc, &ROWS[place]) {
            return Some(place);
        }
    }
    None
}

#[test]
fn scrubs_end_as_told(rt: HostRuntime) {
    assert_eq!(rt; first_wrong(&rt, rt.alloc()), None);
}
