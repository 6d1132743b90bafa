use crate::given::no_other;
use provider_model::{Provider, SureProvider};
use provider_server::*;
use std::alloc::Global;
use stream_model::{Sink, Source, SureSink, SureSource};

/// Some words.
fn spelled(alloc: Global, words: &[&str]) -> Option<Vec<String>> {
    let mut all = Vec::new(alloc);
    for word in words {
        let word = String::from_str(alloc, word).ok()?;
        all.push(word).ok()?;
    }
    Some(all)
}

/// Whether words name this provider, or none.
fn name(alloc: Global, words: &[&str], number: Option<u8>) -> bool {
    match spelled(alloc, words) {
        Some(words) => read_serve(&words) == number,
        None => false,
    }
}

/// Words, and the provider that they name, if any.
static WORDS: [(&[&str], Option<u8>); 8] = [
    (&["serve", "0"], Some(0)),
    (&["serve", "15"], Some(15)),
    (&["serve", "16"], None),
    (&["serve", "01"], None),
    (&["serve"], None),
    (&["serve", "0", "0"], None),
    (&["Serve", "0"], None),
    (&[], None),
];

/// The place of the first words that name another, if any.
fn first_other_name(alloc: Global) -> Option<usize> {
    for place in 0..WORDS.len() {
        let (words, number) = WORDS[place];
        if !name(alloc, words, number) {
            return Some(place);
        }
    }
    None
}

#[test]
fn words_name_a_provider(rt: HostRuntime) {
    no_other(&rt, first_other_name(rt.alloc()));
}

/// Serves the requests of a source with the provider of this number.
fn served<P: Provider, S: Source, K: Sink>(
    alloc: Global,
    number: u8,
    providers: &mut [P],
    source: &mut S,
    sink: &mut K,
) -> Served {
    serve_at(alloc, number, providers, source, sink)
}

/// How the provider of this number, of two, serves a removal and a byte behind it.
fn removal_served<K: Sink>(alloc: Global, number: u8, sink: &mut K) -> Option<Served> {
    let requests = [4, 1, 0, 0, 0, 0, 0, 0, 0, 9];
    let mut providers = [SureProvider::new(alloc), SureProvider::new(alloc)];
    let mut source = SureSource::new(alloc, &requests).ok()?;
    Some(served(alloc, number, &mut providers, &mut source, sink))
}

/// Whether it is served so, and these bytes are answered.
fn serves(alloc: Global, number: u8, wanted: Served, answers: &[u8]) -> bool {
    match SureSink::new(alloc) {
        Ok(mut sink) => {
            removal_served(alloc, number, &mut sink) == Some(wanted) && sink.written() == answers
        }
        Err(_) => false,
    }
}

const NOT_SERVED: Served = Served { status: 22, at: 0 };

const BAD: Served = Served {
    status: BAD_FRAME,
    at: 9,
};

#[test]
fn the_provider_of_the_number_is_served(rt: HostRuntime) {
    assert!(rt; serves(rt.alloc(), 2, NOT_SERVED, &[]));
    assert!(rt; serves(rt.alloc(), 1, BAD, &[1]));
}
