use crate::given::{no_other, or_behind};
use schedule_text::Event;
use std::alloc::Global;
use trial_maker::*;

/// An event that stands in a trial: a step or a run of a job, a loss of a block of a stripe by a provider, and
/// others.
#[derive(Clone, Copy)]
enum Seen {
    Run(u32),
    Step(u32),
    Lose(u32, u32),
    Audit,
    Repair,
    Get,
    Reopen,
    Stop,
}

/// Whether an event is this.
fn is(event: &Event, wanted: Seen) -> bool {
    match (event, wanted) {
        (Event::Run { job }, Seen::Run(number)) => *job == number,
        (Event::Step { job }, Seen::Step(number)) => *job == number,
        (
            Event::Lose {
                provider,
                stripe,
                ..
            },
            Seen::Lose(by, at),
        ) => *provider == by && *stripe == at,
        (Event::BeginAudit, Seen::Audit) => true,
        (Event::BeginRepair, Seen::Repair) => true,
        (Event::BeginGet { .. }, Seen::Get) => true,
        (Event::Reopen, Seen::Reopen) => true,
        (Event::Stop { .. }, Seen::Stop) => true,
        _ => false,
    }
}

/// The place of an event in a trial, and what it is.
type Row = (usize, Seen);

/// The place of the first of these rows whose event is another, if any.
fn first_other(events: &[Event], rows: &[Row]) -> Option<usize> {
    for place in 0..rows.len() {
        let (at, wanted) = rows[place];
        let right = match events.get(at) {
            Some(event) => is(event, wanted),
            None => false,
        };
        if !right {
            return Some(place);
        }
    }
    None
}

/// The trial of a number.
fn trial_of(alloc: Global, number: u64) -> Option<Trial> {
    make_trial(alloc, number).ok()
}

/// Whether a trial has so many events and bytes.
fn has_lengths(trial: &Trial, events: usize, bytes: usize) -> bool {
    trial.events.len() == events && trial.expected.as_slice().len() == bytes
}

/// The place of the first of these rows whose event in the trial of seven is another; behind the last where
/// the trial has other lengths.
fn first_other_of_seven(alloc: Global, rows: &[Row]) -> Option<usize> {
    match trial_of(alloc, 7) {
        Some(trial) => {
            let place = first_other(&trial.events, rows);
            or_behind(place, rows.len(), has_lengths(&trial, 225, 65536))
        }
        None => Some(rows.len()),
    }
}

static SEVEN: [Row; 15] = [
    (1, Seen::Reopen),
    (3, Seen::Run(1)),
    (4, Seen::Lose(2, 0)),
    (60, Seen::Lose(2, 56)),
    (61, Seen::Get),
    (63, Seen::Audit),
    (65, Seen::Repair),
    (75, Seen::Step(4)),
    (76, Seen::Stop),
    (79, Seen::Run(5)),
    (82, Seen::Lose(3, 0)),
    (144, Seen::Step(9)),
    (160, Seen::Lose(4, 0)),
    (222, Seen::Run(14)),
    (224, Seen::Run(15)),
];

#[test]
fn trial_of_seven_has_its_events(rt: HostRuntime) {
    no_other(&rt, first_other_of_seven(rt.alloc(), &SEVEN));
}

/// Whether bytes are these digits.
fn spell(alloc: Global, bytes: &[u8], wanted: &str) -> bool {
    match hex::encode(alloc, bytes) {
        Ok(digits) => digits.as_str() == wanted,
        Err(_) => false,
    }
}

/// Whether bytes between two places are these digits.
fn are_digits(alloc: Global, bytes: &[u8], start: usize, end: usize, wanted: &str) -> bool {
    match bytes.get(start..end) {
        Some(part) => spell(alloc, part, wanted),
        None => false,
    }
}

/// Whether the first event of a trial sets up with the key of these digits.
fn begins_with_key(alloc: Global, events: &[Event], wanted: &str) -> bool {
    match events.first() {
        Some(Event::Init { master, .. }) => spell(alloc, &master.0, wanted),
        _ => false,
    }
}

/// A number, the digits of the key of its trial, and those of the first and the last eight bytes of its file.
type Draws = (u64, &'static str, &'static str, &'static str);

/// Whether a trial has this key and these bytes.
fn draws_so(alloc: Global, trial: &Trial, key: &str, front: &str, back: &str) -> bool {
    let bytes = trial.expected.as_slice();
    begins_with_key(alloc, &trial.events, key)
        && are_digits(alloc, bytes, 0, 8, front)
        && are_digits(alloc, bytes, 65528, 65536, back)
}

/// Whether the trial of a number has this key and these bytes.
fn has_draws(alloc: Global, draws: Draws) -> bool {
    let (number, key, front, back) = draws;
    match trial_of(alloc, number) {
        Some(trial) => draws_so(alloc, &trial, key, front, back),
        None => false,
    }
}

static TWO_TRIALS: [Draws; 2] = [
    (
        7,
        "f4e84544236752fbb56b8f31a23a10e42814f5f55ca037cdcc11c64c9a3b2949",
        "c1bb607003146117",
        "7ee6cd2b32701191",
    ),
    (
        u64::MAX,
        "b18f6bf89f9aa520b1853150e095a59a60cd9e808430c1951ec3d02f504c77ff",
        "cfce3496e8fff2ef",
        "603fa6b2a5d1cb70",
    ),
];

/// The place of the first of these draws that are others, if any.
fn first_other_draws(alloc: Global) -> Option<usize> {
    for place in 0..TWO_TRIALS.len() {
        if !has_draws(alloc, TWO_TRIALS[place]) {
            return Some(place);
        }
    }
    None
}

#[test]
fn draws_give_key_and_bytes(rt: HostRuntime) {
    no_other(&rt, first_other_draws(rt.alloc()));
}
