use crate::given::no_other;
use device_fixtures::given::or_behind;
use std::alloc::Global;
use stream_model::*;

/// A write to a sink and what it answers, or a text that is written whole.
#[derive(Clone, Copy)]
enum Writing {
    Once(&'static [u8], Result<usize, WriteFault>),
    Whole(&'static [u8]),
}

fn put<K: Sink>(sink: &mut K, bytes: &[u8]) -> Result<usize, WriteFault> {
    sink.write(bytes)
}

fn put_whole<K: Sink>(sink: &mut K, bytes: &[u8]) -> Result<(), WriteFault> {
    write_all(sink, bytes)
}

/// The place of the first of these writes that goes otherwise, if any.
fn first_wrong_put<K: Sink>(sink: &mut K, puts: &[Writing]) -> Option<usize> {
    for place in 0..puts.len() {
        let right = match puts[place] {
            Writing::Once(bytes, answer) => put(sink, bytes) == answer,
            Writing::Whole(bytes) => put_whole(sink, bytes).is_ok(),
        };
        if !right {
            return Some(place);
        }
    }
    None
}

/// The same in memory where the second call fails; behind the last where other bytes than these are written.
fn by_memory(alloc: Global, puts: &[Writing], bytes: &[u8]) -> Option<usize> {
    match MemSink::new(alloc, &[1]) {
        Ok(mut sink) => {
            let place = first_wrong_put(&mut sink, puts);
            or_behind(place, puts.len(), sink.written() == bytes)
        }
        Err(_) => Some(puts.len()),
    }
}

/// The same where no call fails.
fn by_sure(alloc: Global, puts: &[Writing], bytes: &[u8]) -> Option<usize> {
    match SureSink::new(alloc) {
        Ok(mut sink) => {
            let place = first_wrong_put(&mut sink, puts);
            or_behind(place, puts.len(), sink.written() == bytes)
        }
        Err(_) => Some(puts.len()),
    }
}

static PUTS: [Writing; 3] = [
    Writing::Once(b"ab", Ok(2)),
    Writing::Once(b"cd", Err(WriteFault::Failed)),
    Writing::Whole(b"ef"),
];

static SURE_PUTS: [Writing; 2] = [Writing::Once(b"ab", Ok(2)), Writing::Whole(b"c")];

#[test]
fn a_sink_fails_at_a_listed_call_and_goes_on(rt: HostRuntime) {
    no_other(&rt, by_memory(rt.alloc(), &PUTS, b"abef"));
    no_other(&rt, by_sure(rt.alloc(), &SURE_PUTS, b"abc"));
}

/// What a read of two bytes answers, and the two bytes then, unless it fails.
type Reading = (Result<usize, Failed>, [u8; 2]);

fn take<S: Source>(source: &mut S, out: &mut [u8]) -> Result<usize, Failed> {
    source.read(out)
}

/// The place of the first of these reads that goes otherwise, if any.
fn first_wrong_take<S: Source>(source: &mut S, takes: &[Reading]) -> Option<usize> {
    let mut out = [0; 2];
    for place in 0..takes.len() {
        let (answer, wanted) = takes[place];
        if take(source, &mut out) != answer || (answer.is_ok() && out != wanted) {
            return Some(place);
        }
    }
    None
}

/// The same in memory where the second call fails.
fn from_memory(alloc: Global, bytes: &[u8], takes: &[Reading]) -> Option<usize> {
    match MemSource::new(alloc, bytes, &[1]) {
        Ok(mut source) => first_wrong_take(&mut source, takes),
        Err(_) => Some(takes.len()),
    }
}

/// The same where no call fails.
fn from_sure(alloc: Global, bytes: &[u8], takes: &[Reading]) -> Option<usize> {
    match SureSource::new(alloc, bytes) {
        Ok(mut source) => first_wrong_take(&mut source, takes),
        Err(_) => Some(takes.len()),
    }
}

static TAKES: [Reading; 4] = [
    (Ok(2), *b"ab"),
    (Err(Failed), *b"ab"),
    (Ok(1), *b"cb"),
    (Ok(0), *b"cb"),
];

static SURE_TAKES: [Reading; 2] = [(Ok(2), *b"xy"), (Ok(1), *b"zy")];

#[test]
fn a_source_fails_at_a_listed_call_and_gives_the_rest(rt: HostRuntime) {
    no_other(&rt, from_memory(rt.alloc(), b"abc", &TAKES));
    no_other(&rt, from_sure(rt.alloc(), b"xyz", &SURE_TAKES));
}

/// Whether bytes are these, and again when they were made a vector and back.
fn come_back(bytes: Bytes, wanted: &[u8]) -> bool {
    let right = bytes.as_slice() == wanted;
    let again = Bytes::from_vec(bytes.into_vec());
    right && again.as_slice() == wanted
}

#[test]
fn bytes_come_back(rt: HostRuntime) {
    let right = match Bytes::from_slice(rt.alloc(), b"abc") {
        Ok(bytes) => come_back(bytes, b"abc"),
        Err(_) => false,
    };
    assert!(rt; right);
}
