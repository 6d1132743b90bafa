use crate::given::{KEY, no_other};
use disk_model::{Disk, MemDisk};
use hail_replay::{HeardLists, Replayed, replay};
use provider_model::{MemProvider, Tamper};
use schedule_text::{Event, read_schedule};
use std::alloc::Global;
use stream_model::{MemSink, Sink};

/// A schedule over four providers, of which the first has a file's own bytes, in blocks of six symbols; a
/// stripe has 32 bytes of a file.
pub struct Row {
    /// The calls of the disk that fail, the first being 0: the set-up makes eight, and the opening three.
    pub disk: &'static [u64],
    /// The calls of provider 1 that fail.
    pub fails: &'static [u64],
    /// What comes after the set-up and the opening, and what it writes.
    pub schedule: &'static str,
    pub lines: &'static str,
    /// How many fetches and asks its jobs heard.
    pub heard: usize,
}

static ROWS: [Row; 11] = [
    // with no file there is nothing to find
    Row {
        disk: &[],
        fails: &[],
        schedule: "begin scrub\nstep 1\nstep 1\n",
        lines: "job 1\nscrubbed 0 symbols 0 0 0 0\nrefused NoSuchJob\n",
        heard: 0,
    },
    // a lost block counts all its symbols, an altered one those that differ; the next scrub finds nothing
    Row {
        disk: &[],
        fails: &[],
        schedule: "begin put a 000102030405060708090a0b0c0d0e0f101112131415161718191a1b1c1d1e1f2021222324252627\nrun 1\nalter 3 1 0 2 5\nlose 1 1 1\nbegin scrub\nstep 2\nrun 2\nbegin scrub\nrun 3\nbegin get a\nrun 4\n",
        lines: "job 1\nput\nreplaced\nreplaced\njob 2\nmore\nscrubbed 2 symbols 0 6 0 1\njob 3\nscrubbed 2 symbols 0 0 0 0\njob 4\ngot 000102030405060708090a0b0c0d0e0f101112131415161718191a1b1c1d1e1f2021222324252627\n",
        heard: 8,
    },
    // behind an upgrade, of a file with a profile of its own
    Row {
        disk: &[],
        fails: &[],
        schedule: "begin upgrade\nstep 1\nrun 1\nbegin put a 6f 1\nrun 2\nalter 0 1 0 0 5\nbegin scrub\nstep 3\nrun 3\nbegin get a\nrun 4\n",
        lines: "job 1\nmore\nupgraded\njob 2\nput\nreplaced\njob 3\nmore\nscrubbed 1 symbols 1 0 0 0\njob 4\ngot 6f\n",
        heard: 4,
    },
    // of each stripe four fetches, an opening and the store of a block that differs; then the end
    Row {
        disk: &[],
        fails: &[],
        schedule: "begin put a 000102030405060708090a0b0c0d0e0f101112131415161718191a1b1c1d1e1f2021222324252627\nrun 1\nalter 0 1 0 1 5\nlose 2 1 1\nbegin scrub\nstep 2\nstep 2\nstep 2\nstep 2\nstep 2\nstep 2\nstep 2\nstep 2\nstep 2\nstep 2\nstep 2\nstep 2\nstep 2\nstep 2\n",
        lines: "job 1\nput\nreplaced\nreplaced\njob 2\nmore\nmore\nmore\nmore\nmore\nmore\nmore\nmore\nmore\nmore\nmore\nmore\nscrubbed 2 symbols 1 0 6 0\nrefused NoSuchJob\n",
        heard: 0,
    },
    // beside it nothing begins, and no other number is a job
    Row {
        disk: &[],
        fails: &[],
        schedule: "begin put a 00\nrun 1\nbegin scrub\nbegin scrub\nbegin put b 00\nbegin get a\nbegin drop a\nbegin audit\nbegin repair\nbegin upgrade\nstep 1\nrun 3\nlist\nrun 2\nbegin get a\nrun 3\n",
        lines: "job 1\nput\njob 2\nrefused Busy\nrefused Busy\nrefused Busy\nrefused Busy\nrefused Busy\nrefused Busy\nrefused Busy\nrefused NoSuchJob\nrefused NoSuchJob\nnames 1\na 1\nscrubbed 1 symbols 0 0 0 0\njob 3\ngot 00\n",
        heard: 4,
    },
    // beside a job it does not begin
    Row {
        disk: &[],
        fails: &[],
        schedule: "begin put a 00\nbegin scrub\nrun 1\nbegin scrub\nrun 2\n",
        lines: "job 1\nrefused Busy\nput\njob 2\nscrubbed 1 symbols 0 0 0 0\n",
        heard: 0,
    },
    // a stop drops it, and what was altered stays so
    Row {
        disk: &[],
        fails: &[],
        schedule: "begin put a 00\nrun 1\nlose 3 1 0\nbegin scrub\nstep 2\nstop -\nstep 2\nbegin scrub\nreopen\nstep 2\nbegin scrub\nrun 3\n",
        lines: "job 1\nput\nreplaced\njob 2\nmore\nstopped\nclosed\nclosed\nopened\nrefused NoSuchJob\njob 3\nscrubbed 1 symbols 0 0 0 6\n",
        heard: 0,
    },
    // so does a reopening
    Row {
        disk: &[],
        fails: &[],
        schedule: "begin put a 00\nrun 1\nbegin scrub\nstep 2\nreopen\nstep 2\nbegin scrub\nstep 2\nrun 3\n",
        lines: "job 1\nput\njob 2\nmore\nopened\nrefused NoSuchJob\njob 3\nrefused NoSuchJob\nscrubbed 1 symbols 0 0 0 0\n",
        heard: 0,
    },
    // two lost blocks are more than may be bad: the first row of stripe 1 is row 6
    Row {
        disk: &[],
        fails: &[],
        schedule: "begin put a 000102030405060708090a0b0c0d0e0f101112131415161718191a1b1c1d1e1f2021222324252627\nrun 1\nlose 0 1 1\nlose 2 1 1\nbegin scrub\nrun 2\nstep 2\nbegin scrub\n",
        lines: "job 1\nput\nreplaced\nreplaced\njob 2\nlost 1 6\nrefused NoSuchJob\njob 3\n",
        heard: 0,
    },
    // a fetch that fails gives no block
    Row {
        disk: &[],
        fails: &[2],
        schedule: "begin put a 000102030405060708090a0b0c0d0e0f101112131415161718191a1b1c1d1e1f2021222324252627\nrun 1\nbegin scrub\nrun 2\nbegin scrub\nrun 3\n",
        lines: "job 1\nput\njob 2\nscrubbed 2 symbols 0 6 0 0\njob 3\nscrubbed 2 symbols 0 0 0 0\n",
        heard: 0,
    },
    // a store that fails ends it
    Row {
        disk: &[],
        fails: &[4],
        schedule: "begin put a 000102030405060708090a0b0c0d0e0f101112131415161718191a1b1c1d1e1f2021222324252627\nrun 1\nlose 1 1 1\nbegin scrub\nrun 2\nstep 2\nbegin scrub\nrun 3\n",
        lines: "job 1\nput\nreplaced\njob 2\nprovider fault 1\nrefused NoSuchJob\njob 3\nscrubbed 2 symbols 0 6 0 0\n",
        heard: 0,
    },
];

/// The events of a schedule behind the set-up and the opening.
fn events_of(alloc: Global, schedule: &str) -> Option<Vec<Event>> {
    let key = KEY;
    let text = format!(in alloc; "init 4 1 1 0 1 1 0 {key}\nreopen\n{schedule}").ok()?;
    read_schedule(alloc, text.as_bytes()).ok()
}

/// Four providers, of which provider 1 fails at these of its calls.
fn providers_of(alloc: Global, fails: &[u64]) -> Option<Vec<MemProvider>> {
    let mut providers = Vec::new(alloc);
    for number in 0u32..4 {
        let fails: &[u64] = if number == 1 { fails } else { &[] };
        let provider = MemProvider::new(alloc, fails).ok()?;
        providers.push(provider).ok()?;
    }
    Some(providers)
}

/// Does events, unless there are more than a row has.
fn replayed<D: Disk, P: Tamper, K: Sink>(
    alloc: Global,
    events: Vec<Event>,
    disk: &mut D,
    providers: &mut [P],
    sink: &mut K,
) -> Option<Replayed> {
    if events.len() > 100 {
        return None;
    }
    Some(replay(alloc, events, disk, providers, sink))
}

/// How many fetches and asks were heard.
fn count_heard(heard: &HeardLists) -> usize {
    let (first, more) = heard.lists();
    let mut count = first.len();
    for list in more {
        count = count.saturating_add(list.len());
    }
    count
}

/// Whether the sink has the lines of the set-up and the opening, and then these.
fn has_written(alloc: Global, sink: &MemSink, lines: &str) -> Option<bool> {
    let wanted = format!(in alloc; "ready\nopened\n{lines}").ok()?;
    Some(sink.written() == wanted.as_bytes())
}

/// Whether a row goes as it is to. Want of memory is the one refusal.
fn goes(alloc: Global, row: &Row) -> Option<bool> {
    let events = events_of(alloc, row.schedule)?;
    let mut disk = MemDisk::new(alloc, b"", row.disk).ok()?;
    let mut providers = providers_of(alloc, row.fails)?;
    let mut sink = MemSink::new(alloc, &[]).ok()?;
    let told = replayed(alloc, events, &mut disk, &mut providers, &mut sink)?;
    let written = has_written(alloc, &sink, row.lines)?;
    Some(written && told.status == 0 && count_heard(&told.heard) == row.heard)
}

/// The place of the first row that goes otherwise, if any.
pub fn first_other(alloc: Global, rows: &[Row]) -> Option<usize> {
    for place in 0..rows.len() {
        if goes(alloc, &rows[place]) != Some(true) {
            return Some(place);
        }
    }
    None
}

#[test]
fn a_scrub_is_begun_stepped_and_told(rt: HostRuntime) {
    no_other(&rt, first_other(rt.alloc(), &ROWS));
}
