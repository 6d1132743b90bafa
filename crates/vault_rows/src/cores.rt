ghost use Rattle.std.specs.Prelude.{IfSome};
ghost use Rattle.vault_core.specs.Wished.{IsShort};

use crate::job::Job;
use record_codec::{Name, Record};
use std::alloc::Global;
use vault_core::{Action, BeginFault, Core, Next, Reply, Wish};
use vault_table::Table;

/// Six providers, one of them primary and one of them bad, the first profile, one round, one pick, and no
/// tolerance.
const SETUP: [u8; 41] = [
    1, 6, 1, 1, 0, 1, 1, 0, 0, 0, 0, 0, 0, 0, 0, 0, 0, 0, 0, 0, 0, 0, 0, 0, 0, 0, 0, 0, 0, 0, 0, 0,
    0, 0, 0, 0, 0, 0, 0, 0, 0,
];

/// A put of one byte under the name `a`.
const STARTED: [u8; 11] = [2, 1, 0, 0, 0, 0, 0, 0, 0, 1, 97];

const STORED: [u8; 13] = [3, 1, 0, 0, 0, 0, 0, 0, 0, 1, 0, 0, 0];

/// An audit that flags the third provider.
const AUDITING: [u8; 9] = [5, 1, 0, 0, 0, 0, 0, 0, 0];

const AUDITED: [u8; 38] = [
    6, 1, 0, 0, 0, 0, 0, 0, 0, 0, 0, 0, 0, 6, 0, 0, 0, 0, 0, 0, 0, 0, 1, 0, 0, 0, 0, 0, 0, 0, 0, 0,
    0, 0, 0, 0, 0, 0,
];

/// Which records a journal has: a setup alone; a file that is stored; that, and an audit by which a repair is
/// due.
#[derive(Clone, Copy)]
enum Base {
    Empty,
    Stored,
    Due,
}

/// Something that is done to a core or seen of it, and what is to come of it.
#[derive(Clone, Copy)]
enum Act {
    /// A job is begun: its number, or why it is refused.
    Begins(Job, Result<u32, BeginFault>),
    /// A put of no byte under the name `b` is begun that names this profile.
    PutsIn(u8, Result<u32, BeginFault>),
    /// An upgrade is begun.
    Upgrades(Result<u32, BeginFault>),
    /// The next job number is drawn.
    Draws(u32),
    /// A disk call outside the jobs fails.
    Fails,
    /// A job has so many steps left.
    Left(u32, u64),
    /// A job makes so many actions.
    Makes(u32, u32),
    /// A job has no action that it can make now.
    Rests(u32),
    /// A job waits for the append of this other one.
    Waits(u32, u32),
    /// A job is to sync the record that it has written.
    SyncsBody(u32),
    /// No running job has the number.
    Unknown(u32),
    /// So many jobs run, and no other may begin.
    Full(u32),
}

/// A core over some records, with a journal's text of so many bytes, and what is done to it.
struct Case {
    base: Base,
    end: u64,
    acts: &'static [Act],
}

/// The table takes the record that these bytes spell.
fn takes(table: &mut Table, bytes: &[u8]) -> bool {
    match Record::read(bytes) {
        Some((record, _)) => table.apply(&record).is_ok(),
        None => false,
    }
}

/// The table takes these records.
fn takes_all(table: &mut Table, records: &[&[u8]]) -> bool {
    for bytes in records {
        if !takes(table, bytes) {
            return false;
        }
    }
    true
}

/// The records that a journal has.
fn records_of(base: Base) -> &'static [&'static [u8]] {
    match base {
        Base::Empty => &[&SETUP],
        Base::Stored => &[&SETUP, &STARTED, &STORED],
        Base::Due => &[&SETUP, &STARTED, &STORED, &AUDITING, &AUDITED],
    }
}

/// A core over these records, and a journal's text of so many bytes.
fn core_of(alloc: Global, base: Base, end: u64) -> Option<Core> {
    let mut table = Table::new(alloc).ok()?;
    if table.reserve_start().is_err() || !takes_all(&mut table, records_of(base)) {
        return None;
    }
    let (setup, _) = table.setup()?;
    if !setup.check() || end < 9 || end > 1 << 24 {
        return None;
    }
    Some(Core::new(alloc, table, end, 1))
}

/// What a core is told of a put.
fn put_wish(name: &[u8], bytes: &[u8], profile: Option<u8>) -> Option<Wish>
    ensures { IfSome result (λ wish. IsShort wish) }
{
    if bytes.len() > 1 << 22 {
        return None;
    }
    Some(Wish::Put {
        name: Name::new(name)?,
        length: bytes.len() as u32,
        profile,
    })
}

/// What a core is told of a job. A file's bytes stay with the caller.
fn wish_of(job: Job) -> Option<Wish>
    ensures { IfSome result (λ wish. IsShort wish) }
{
    match job {
        Job::Put(name, bytes) => put_wish(name, bytes, None),
        Job::PutIn(name, bytes, own) => put_wish(name, bytes, Some(own)),
        Job::Get(name) => Some(Wish::Get {
            name: Name::new(name)?,
        }),
        Job::Drop(name) => Some(Wish::Drop {
            name: Name::new(name)?,
        }),
        Job::Audit => Some(Wish::Audit),
        Job::Repair => Some(Wish::Repair),
        Job::Upgrade => Some(Wish::Upgrade),
    }
}

/// What a core is told of a put that names this profile.
fn put_in(profile: u8) -> Option<Wish>
    ensures { IfSome result (λ wish. IsShort wish) }
{
    Some(Wish::Put {
        name: Name::new(b"b")?,
        length: 0,
        profile: Some(profile),
    })
}

/// Begins a job.
fn start(core: &mut Core, wish: Option<Wish>) -> Result<u32, BeginFault>
    requires { IfSome wish (λ w. IsShort w) }
{
    match wish {
        Some(wish) if core.next_job() <= 1000 => {
            let file = core.file_named(&wish);
            core.begin(wish, file)
        }
        _ => Err(BeginFault::BadName),
    }
}

/// Draws a job number.
fn drawn(core: &mut Core) -> Option<u32> {
    if core.next_job() > 1000 {
        return None;
    }
    Some(core.draw())
}

/// What comes next for a job; none where it is a stream that waits for a stripe.
fn coming(core: &Core, job: u32) -> Option<Next> {
    match core.wants(job) {
        Some(_) => None,
        None => Some(core.next(job)),
    }
}

/// Makes the next action of a job, if it has one now that is not the last ask of an audit.
fn make(core: &mut Core, job: u32) -> bool {
    if core.wants(job).is_some() || core.is_last_ask(job) {
        return false;
    }
    match core.next(job) {
        Next::Act(_) => {
            core.feed(job, Reply::Done);
            true
        }
        _ => false,
    }
}

/// Whether a job makes so many actions one after another.
fn makes(core: &mut Core, job: u32, count: u32) -> bool {
    for _ in 0..count {
        if !make(core, job) {
            return false;
        }
    }
    true
}

/// Whether a job waits for the append of this other one.
fn waits(core: &Core, job: u32, other: u32) -> bool {
    match coming(core, job) {
        Some(Next::Waiting { holder }) => holder == other,
        _ => false,
    }
}

/// Whether an act comes to what it is to.
fn goes(core: &mut Core, act: Act) -> bool {
    match act {
        Act::Begins(job, wanted) => start(core, wish_of(job)) == wanted,
        Act::PutsIn(profile, wanted) => start(core, put_in(profile)) == wanted,
        Act::Upgrades(wanted) => start(core, Some(Wish::Upgrade)) == wanted,
        Act::Draws(wanted) => drawn(core) == Some(wanted),
        Act::Fails => {
            core.bar();
            true
        }
        Act::Left(job, wanted) => core.left(job) == Some(wanted),
        Act::Makes(job, count) => makes(core, job, count),
        Act::Rests(job) => !make(core, job),
        Act::Waits(job, other) => waits(core, job, other),
        Act::SyncsBody(job) => matches!(coming(core, job), Some(Next::Act(Action::SyncBody))),
        Act::Unknown(job) => matches!(coming(core, job), Some(Next::NoSuchJob)),
        Act::Full(count) => core.running() == count && core.barred() == Some(BeginFault::Busy),
    }
}

/// Whether each of these acts comes to what it is to.
fn all_go(core: &mut Core, acts: &[Act]) -> bool {
    for act in acts {
        if !goes(core, *act) {
            return false;
        }
    }
    true
}

/// Whether all of a case does.
fn goes_right(alloc: Global, case: &Case) -> bool {
    match core_of(alloc, case.base, case.end) {
        Some(mut core) => all_go(&mut core, case.acts),
        None => false,
    }
}

/// The place of the first case that goes otherwise.
fn first_wrong(alloc: Global, cases: &[Case]) -> Option<usize> {
    for place in 0..cases.len() {
        if !goes_right(alloc, &cases[place]) {
            return Some(place);
        }
    }
    None
}

/// The steps of each job, and how many of them are actions that it makes without a wait or a last ask.
const STEPS: &[Case] = &[
    Case {
        base: Base::Stored,
        end: 1000,
        acts: &[
            Act::Begins(Job::Put(b"b", b"x"), Ok(1)),
            Act::Left(1, 21),
            Act::Makes(1, 15),
            Act::Rests(1),
        ],
    },
    Case {
        base: Base::Stored,
        end: 1000,
        acts: &[
            Act::Begins(Job::Put(b"b", b""), Ok(1)),
            Act::Left(1, 15),
            Act::Makes(1, 9),
            Act::Rests(1),
        ],
    },
    Case {
        base: Base::Stored,
        end: 1000,
        acts: &[
            Act::Begins(Job::Put(b"a", b"x"), Ok(1)),
            Act::Left(1, 21),
            Act::Makes(1, 21),
            Act::Rests(1),
        ],
    },
    Case {
        base: Base::Stored,
        end: 1000,
        acts: &[
            Act::Begins(Job::Get(b"a"), Ok(1)),
            Act::Left(1, 8),
            Act::Makes(1, 8),
            Act::Rests(1),
        ],
    },
    Case {
        base: Base::Stored,
        end: 1000,
        acts: &[
            Act::Begins(Job::Drop(b"a"), Ok(1)),
            Act::Left(1, 11),
            Act::Makes(1, 11),
            Act::Rests(1),
        ],
    },
    Case {
        base: Base::Due,
        end: 1000,
        acts: &[
            Act::Begins(Job::Repair, Ok(1)),
            Act::Left(1, 13),
            Act::Makes(1, 13),
            Act::Rests(1),
        ],
    },
    Case {
        base: Base::Stored,
        end: 1000,
        acts: &[
            Act::Begins(Job::Audit, Ok(1)),
            Act::Left(1, 15),
            Act::Makes(1, 9),
            Act::Rests(1),
        ],
    },
];

#[test]
fn jobs_have_steps_left(rt: HostRuntime) {
    assert_eq!(rt; first_wrong(rt.alloc(), STEPS), None);
}

/// Begins that are just let in, and such as are refused.
const BEGINS: &[Case] = &[
    Case {
        base: Base::Empty,
        end: 16_777_190,
        acts: &[Act::Begins(Job::Put(b"b", b""), Ok(1))],
    },
    Case {
        base: Base::Empty,
        end: 16_777_191,
        acts: &[Act::Begins(Job::Put(b"b", b""), Err(BeginFault::JournalFull))],
    },
    Case {
        base: Base::Empty,
        end: 16_777_167,
        acts: &[Act::Begins(Job::Audit, Ok(1))],
    },
    Case {
        base: Base::Empty,
        end: 16_777_168,
        acts: &[Act::Begins(Job::Audit, Err(BeginFault::JournalFull))],
    },
    Case {
        base: Base::Stored,
        end: 16_777_212,
        acts: &[Act::Begins(Job::Drop(b"a"), Ok(1))],
    },
    Case {
        base: Base::Stored,
        end: 16_777_213,
        acts: &[Act::Begins(Job::Drop(b"a"), Err(BeginFault::JournalFull))],
    },
    Case {
        base: Base::Stored,
        end: 16_777_216,
        acts: &[Act::Begins(Job::Get(b"a"), Ok(1))],
    },
    Case {
        base: Base::Stored,
        end: 16_777_216,
        acts: &[Act::Begins(Job::Get(b"b"), Err(BeginFault::NoSuchName))],
    },
    Case {
        base: Base::Stored,
        end: 1000,
        acts: &[Act::Begins(Job::Repair, Err(BeginFault::NothingDue))],
    },
    Case {
        base: Base::Due,
        end: 1000,
        acts: &[Act::Begins(Job::Audit, Err(BeginFault::RepairDue))],
    },
    Case {
        base: Base::Due,
        end: 16_777_207,
        acts: &[Act::Begins(Job::Repair, Err(BeginFault::JournalFull))],
    },
];

#[test]
fn begins_are_refused_in_order(rt: HostRuntime) {
    assert_eq!(rt; first_wrong(rt.alloc(), BEGINS), None);
}

/// A put keeps a drop waiting, the two keep an audit out, and eight jobs every other one.
const CROWDED: &[Case] = &[Case {
    base: Base::Stored,
    end: 1000,
    acts: &[
        Act::Begins(Job::Drop(b"a"), Ok(1)),
        Act::Begins(Job::Put(b"a", b"x"), Ok(2)),
        Act::Begins(Job::Audit, Err(BeginFault::Busy)),
        Act::Makes(2, 1),
        Act::Waits(1, 2),
        Act::SyncsBody(2),
        Act::Unknown(3),
        Act::Begins(Job::Get(b"a"), Ok(3)),
        Act::Begins(Job::Get(b"a"), Ok(4)),
        Act::Begins(Job::Get(b"a"), Ok(5)),
        Act::Begins(Job::Get(b"a"), Ok(6)),
        Act::Begins(Job::Get(b"a"), Ok(7)),
        Act::Begins(Job::Get(b"a"), Ok(8)),
        Act::Begins(Job::Get(b"a"), Err(BeginFault::Busy)),
        Act::Full(8),
    ],
}];

#[test]
fn jobs_keep_others_out(rt: HostRuntime) {
    assert_eq!(rt; first_wrong(rt.alloc(), CROWDED), None);
}

/// An upgrade, what may begin before it, beside it and behind it, and the room that it and a put need.
const UPGRADES: &[Case] = &[
    Case {
        base: Base::Empty,
        end: 1000,
        acts: &[
            Act::PutsIn(5, Err(BeginFault::BadProfile)),
            Act::PutsIn(0, Err(BeginFault::OldVersion)),
            Act::Upgrades(Ok(1)),
            Act::Left(1, 5),
            Act::Begins(Job::Get(b"a"), Err(BeginFault::Busy)),
            Act::Full(1),
            Act::Makes(1, 5),
            Act::Rests(1),
            Act::Upgrades(Err(BeginFault::NewVersion)),
            Act::PutsIn(5, Err(BeginFault::BadProfile)),
            Act::PutsIn(0, Ok(2)),
            Act::Upgrades(Err(BeginFault::Busy)),
            Act::Left(2, 15),
            Act::Makes(2, 9),
            Act::Rests(2),
        ],
    },
    Case {
        base: Base::Empty,
        end: 16_777_186,
        acts: &[
            Act::Upgrades(Ok(1)),
            Act::Makes(1, 5),
            Act::PutsIn(0, Ok(2)),
        ],
    },
    Case {
        base: Base::Empty,
        end: 16_777_187,
        acts: &[
            Act::Upgrades(Ok(1)),
            Act::Makes(1, 5),
            Act::PutsIn(0, Err(BeginFault::JournalFull)),
        ],
    },
    Case {
        base: Base::Empty,
        end: 16_777_213,
        acts: &[Act::Upgrades(Ok(1))],
    },
    Case {
        base: Base::Empty,
        end: 16_777_214,
        acts: &[Act::Upgrades(Err(BeginFault::JournalFull))],
    },
];

#[test]
fn an_upgrade_runs_alone(rt: HostRuntime) {
    assert_eq!(rt; first_wrong(rt.alloc(), UPGRADES), None);
}

/// What runs outside the jobs takes a number of theirs, and bars them where its disk call fails.
const BESIDE: &[Case] = &[Case {
    base: Base::Stored,
    end: 1000,
    acts: &[
        Act::Draws(1),
        Act::Begins(Job::Get(b"a"), Ok(2)),
        Act::Fails,
        Act::Begins(Job::Get(b"a"), Err(BeginFault::MustReopen)),
    ],
}];

#[test]
fn what_runs_outside_is_told(rt: HostRuntime) {
    assert_eq!(rt; first_wrong(rt.alloc(), BESIDE), None);
}
