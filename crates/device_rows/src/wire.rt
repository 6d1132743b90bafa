ghost use Rattle.std.specs.Prelude.{◌≡◌, None, IfOk};

use crate::given::no_other;
use device_fixtures::calls::Call::{self, Alter, Ask, Fetch, Lose, Remove, Store};
use device_fixtures::calls::{first_wrong, is_right};
use device_fixtures::given::{WEIGHT, or_behind};
use provider_model::{MemProvider, Provider, StoreFault, SureProvider};
use provider_wire::*;
use std::alloc::Global;
use stream_model::{Failed, MemSink, MemSource, Memory, Sink, Source, SureSink, SureSource};

// A source that gives one byte a read.
#[derive(Drop)]
struct Drops {
    bytes: Vec<u8>,
    at: usize,
}

impl Drops {
    fn new(alloc: Global, bytes: &[u8]) -> Result<Drops, Memory> {
        Ok(Drops {
            bytes: bytes.to_vec(alloc)?,
            at: 0,
        })
    }
}

impl Source for Drops {
    ghost left = { λ _. None };

    ghost faults = { λ _. 0 };

    fn read(&mut self, out: &mut [u8]) -> Result<usize, Failed> {
        if out.is_empty() || self.at >= self.bytes.len() {
            return Ok(0);
        }
        out[0] = self.bytes[self.at];
        self.at += 1;
        Ok(1)
    }
}

// A link that gives these answers, whatever is asked. Nothing comes behind them.
#[derive(Drop)]
struct Script {
    answers: Vec<u8>,
    at: usize,
}

impl Script {
    fn new(alloc: Global, answers: &[u8]) -> Result<Script, Memory>
        ensures { IfOk result (λ link. ⟦<Script as Link>⟧.behind link ≡ None) }
    {
        Ok(Script {
            answers: answers.to_vec(alloc)?,
            at: 0,
        })
    }
}

impl Link for Script {
    ghost behind = { λ _. None };

    ghost faults = { λ _. 0 };

    fn send(&mut self, bytes: &[u8]) -> Result<(), Failed> {
        Ok(())
    }

    fn receive(&mut self, out: &mut [u8]) -> Result<usize, Failed> {
        if out.is_empty() || self.at >= self.answers.len() {
            return Ok(0);
        }
        out[0] = self.answers[self.at];
        self.at += 1;
        Ok(1)
    }
}

const FETCH_SIX: [u8; 14] = [2, 1, 0, 0, 0, 0, 0, 0, 0, 0, 0, 0, 0, 6];

// The same twice, the second without its last byte.
const FETCH_SIX_AND_CUT: [u8; 27] = [
    2, 1, 0, 0, 0, 0, 0, 0, 0, 0, 0, 0, 0, 6, 2, 1, 0, 0, 0, 0, 0, 0, 0, 0, 0, 0, 0,
];

const FETCH_TOO_WIDE: [u8; 14] = [2, 1, 0, 0, 0, 0, 0, 0, 0, 0, 0, 0, 0, 129];

const STORE_FIVE: [u8; 30] = [
    1, 1, 0, 0, 0, 0, 0, 0, 0, 0, 0, 0, 0, 1, 5, 0, 0, 0, 0, 0, 0, 0, 0, 0, 0, 0, 0, 0, 0, 0,
];

const STORE_AND_FETCH_FIVE: [u8; 44] = [
    1, 1, 0, 0, 0, 0, 0, 0, 0, 0, 0, 0, 0, 1, 5, 0, 0, 0, 0, 0, 0, 0, 0, 0, 0, 0, 0, 0, 0, 0, 2, 1,
    0, 0, 0, 0, 0, 0, 0, 0, 0, 0, 0, 1,
];

const FOUND_FIVE: [u8; 18] = [1, 1, 5, 0, 0, 0, 0, 0, 0, 0, 0, 0, 0, 0, 0, 0, 0, 0];

const REMOVE: [u8; 9] = [4, 1, 0, 0, 0, 0, 0, 0, 0];

/// Serves the requests of a source.
fn served<P: Provider, S: Source, K: Sink>(
    alloc: Global,
    provider: &mut P,
    source: &mut S,
    sink: &mut K,
) -> ServeEnd {
    serve(alloc, provider, source, sink)
}

/// Whether a server of the requests in a source ends so, and writes these bytes.
fn serves<P: Provider, S: Source>(
    alloc: Global,
    provider: &mut P,
    source: &mut S,
    output: &[u8],
    end: ServeEnd,
) -> Option<bool> {
    let mut sink = SureSink::new(alloc).ok()?;
    let right = served(alloc, provider, source, &mut sink) == end && sink.written() == output;
    Some(right)
}

/// Requests, the bytes that a server over a provider that holds nothing answers, and how it ends.
type Row = (&'static [u8], &'static [u8], ServeEnd);

/// Whether a row is served so in one piece.
fn is_right_whole(alloc: Global, row: Row) -> Option<bool> {
    let mut provider = SureProvider::new(alloc);
    let mut source = SureSource::new(alloc, row.0).ok()?;
    serves(alloc, &mut provider, &mut source, row.1, row.2)
}

/// Whether a row is served so byte for byte.
fn is_right_in_drops(alloc: Global, row: Row) -> Option<bool> {
    let mut provider = SureProvider::new(alloc);
    let mut source = Drops::new(alloc, row.0).ok()?;
    serves(alloc, &mut provider, &mut source, row.1, row.2)
}

/// The place of the first of these rows that is served otherwise, or none.
fn first_served_otherwise(alloc: Global, rows: &[Row]) -> Option<usize> {
    for place in 0..rows.len() {
        let row = rows[place];
        if is_right_whole(alloc, row) != Some(true) || is_right_in_drops(alloc, row) != Some(true) {
            return Some(place);
        }
    }
    None
}

static ROWS: [Row; 7] = [
    (&FETCH_SIX, &[0], ServeEnd::Done),
    (&STORE_AND_FETCH_FIVE, &FOUND_FIVE, ServeEnd::Done),
    (
        &[4, 1, 0, 0, 0, 0, 0, 0, 0, 9],
        &[1],
        ServeEnd::BadFrame { at: 9 },
    ),
    (&[1, 1, 2, 3, 4, 5], &[], ServeEnd::BadFrame { at: 0 }),
    (&[], &[], ServeEnd::Done),
    (&FETCH_SIX_AND_CUT, &[0], ServeEnd::BadFrame { at: 14 }),
    (&FETCH_TOO_WIDE, &[], ServeEnd::BadFrame { at: 0 }),
];

#[test]
fn rows_are_served_in_any_pieces(rt: HostRuntime) {
    no_other(&rt, first_served_otherwise(rt.alloc(), &ROWS));
}

/// Whether a server whose source fails at its second read answers what came before.
fn ends_with_its_source(alloc: Global) -> Option<bool> {
    let mut provider = SureProvider::new(alloc);
    let mut source = MemSource::new(alloc, &REMOVE, &[1]).ok()?;
    serves(
        alloc,
        &mut provider,
        &mut source,
        &[1],
        ServeEnd::SourceFault,
    )
}

/// Serves a removal into a sink.
fn removal_served<K: Sink>(alloc: Global, sink: &mut K) -> Option<ServeEnd> {
    let mut provider = SureProvider::new(alloc);
    let mut source = SureSource::new(alloc, &REMOVE).ok()?;
    Some(served(alloc, &mut provider, &mut source, sink))
}

/// Whether a server whose sink fails at its first write ends, and nothing is written.
fn ends_with_its_sink(alloc: Global) -> Option<bool> {
    let mut sink = MemSink::new(alloc, &[0]).ok()?;
    let end = removal_served(alloc, &mut sink);
    Some(end == Some(ServeEnd::SinkFault) && sink.written().is_empty())
}

/// Whether a server whose provider fails says so and goes on.
fn tells_its_providers_fault(alloc: Global) -> Option<bool> {
    let mut provider = MemProvider::new(alloc, &[0]).ok()?;
    let mut source = SureSource::new(alloc, &STORE_FIVE).ok()?;
    serves(alloc, &mut provider, &mut source, &[2], ServeEnd::Done)
}

#[test]
fn faults_end_a_server(rt: HostRuntime) {
    assert!(rt; ends_with_its_source(rt.alloc()) == Some(true));
    assert!(rt; ends_with_its_sink(rt.alloc()) == Some(true));
    assert!(rt; tells_its_providers_fault(rt.alloc()) == Some(true));
}

/// A provider over a loop to one in memory whose listed calls fail.
fn looped(alloc: Global, fails: &[u64]) -> Option<LinkProvider<LoopLink<MemProvider>>> {
    let inner = MemProvider::new(alloc, fails).ok()?;
    let link = LoopLink::new(inner).ok()?;
    LinkProvider::new(link).ok()
}

/// Whether a link is out of step.
fn is_broken<L: Link>(provider: &LinkProvider<L>) -> bool {
    provider.broken()
}

/// The first of these calls that is answered otherwise. Where all go right and the link is out of step then,
/// that is told behind the last.
fn first_wrong_in_step(
    provider: &mut LinkProvider<LoopLink<MemProvider>>,
    calls: &[Call],
) -> Option<usize> {
    let wrong = first_wrong(provider, calls);
    or_behind(wrong, calls.len(), !is_broken(provider))
}

/// The same over a loop to a provider whose listed calls fail.
fn over_a_loop(alloc: Global, fails: &[u64], calls: &[Call]) -> Option<usize> {
    match looped(alloc, fails) {
        Some(mut provider) => first_wrong_in_step(&mut provider, calls),
        None => Some(calls.len()),
    }
}

const ZEROS: &[u128] = &[0; 6];

const ONE: &[u128] = &[0, 1, 0, 0, 0, 0];

const NINE_AND_ONE: &[u128] = &[9, 1, 0, 0, 0, 0];

const SEVENS: &[u128] = &[7; 6];

const SEVEN: &[u128] = &[7];

static LOOP_CALLS: [Call; 16] = [
    Store(1, 1, ZEROS, Ok(())),
    Store(1, 4, ZEROS, Ok(())),
    Store(1, 11, ZEROS, Ok(())),
    Store(1, 3, ONE, Ok(())),
    Ask(1, Ok(Some(WEIGHT))),
    Ask(2, Ok(None)),
    Ask(1, Err(Failed)),
    Fetch(1, 3, SEVENS, Ok(true), ONE),
    Fetch(1, 2, SEVENS, Ok(false), SEVENS),
    Store(1, 2, ONE, Err(StoreFault::Failed)),
    Alter(1, 3, 0, 9, true),
    Lose(1, 4, true),
    Lose(1, 4, false),
    Fetch(1, 3, SEVENS, Ok(true), NINE_AND_ONE),
    Remove(1, Ok(())),
    Fetch(1, 3, SEVENS, Ok(false), SEVENS),
];

#[test]
fn a_provider_is_reached_over_a_loop(rt: HostRuntime) {
    no_other(&rt, over_a_loop(rt.alloc(), &[6, 9], &LOOP_CALLS));
}

/// A call, and whether the link is out of step then.
type Step = (Call, bool);

/// The place of the first of these steps that goes otherwise, or none.
fn first_wrong_step<L: Link>(provider: &mut LinkProvider<L>, steps: &[Step]) -> Option<usize> {
    for place in 0..steps.len() {
        let step = &steps[place];
        if !is_right(provider, &step.0) || is_broken(provider) != step.1 {
            return Some(place);
        }
    }
    None
}

/// A provider over a link that gives these answers.
fn scripted(alloc: Global, answers: &[u8]) -> Option<LinkProvider<Script>> {
    let link = Script::new(alloc, answers).ok()?;
    LinkProvider::new(link).ok()
}

/// The same over a link that gives these answers; want of memory is told behind the last.
fn over_a_script(alloc: Global, answers: &[u8], steps: &[Step]) -> Option<usize> {
    match scripted(alloc, answers) {
        Some(mut provider) => first_wrong_step(&mut provider, steps),
        None => Some(steps.len()),
    }
}

const FIVE: &[u128] = &[5];

static BROKEN_AT_ONCE: [Step; 2] = [
    (Store(1, 0, FIVE, Err(StoreFault::Failed)), true),
    (Remove(1, Err(Failed)), true),
];

/// Answers at the first of which a link is out of step.
static NO_ANSWERS: [&[u8]; 3] = [&[], &[7], &[0]];

/// The first of these answers at which a link goes on, or none.
fn first_that_goes_on(alloc: Global) -> Option<usize> {
    for place in 0..NO_ANSWERS.len() {
        if over_a_script(alloc, NO_ANSWERS[place], &BROKEN_AT_ONCE).is_some() {
            return Some(place);
        }
    }
    None
}

#[test]
fn a_link_out_of_step_stays_broken(rt: HostRuntime) {
    no_other(&rt, first_that_goes_on(rt.alloc()));
}

static BROKEN_AT_LAST: [Step; 5] = [
    (Store(1, 0, FIVE, Err(StoreFault::Failed)), false),
    (Store(1, 0, FIVE, Ok(())), false),
    (Store(1, 0, FIVE, Err(StoreFault::Memory)), false),
    (Fetch(1, 0, SEVEN, Ok(false), SEVEN), false),
    (Fetch(1, 0, SEVEN, Err(Failed), SEVEN), true),
];

#[test]
fn a_link_breaks_at_an_answer_that_there_is_not(rt: HostRuntime) {
    let other = over_a_script(rt.alloc(), &[2, 1, 3, 0, 1, 5], &BROKEN_AT_LAST);
    no_other(&rt, other);
}
