use crate::heard::{has_heard, is_block_at};
use disk_model::Disk;
use hail_field::Symbol;
use hail_top::{Report, hail};
use provider_model::Tamper;
use std::alloc::Global;
use stream_model::{MemSink, MemSource, Sink, Source};

/// Which call of the source fails, and which of the sink.
#[derive(Clone, Copy)]
pub struct Faults {
    pub read: u64,
    pub write: u64,
}

/// No call fails.
pub const NONE_FAILS: Faults = Faults {
    read: u64::MAX,
    write: u64::MAX,
};

/// What is told of a command that ended: its report, and what it wrote.
#[derive(Drop)]
pub struct Told {
    report: Report,
    sink: MemSink,
}

/// The words of a line, cut at its spaces. Want of memory is the one refusal.
fn words(alloc: Global, line: &str) -> Option<Vec<String>> {
    let mut all = Vec::new(alloc);
    for word in line.split_whitespace() {
        let word = String::from_str(alloc, word).ok()?;
        all.push(word).ok()?;
    }
    Some(all)
}

/// Answers words over some devices. It promises nothing, so that no caller reads what `hail` does.
fn answer<D: Disk, P: Tamper, S: Source, K: Sink>(
    alloc: Global,
    words: &[String],
    disk: &mut D,
    providers: &mut Vec<P>,
    source: &mut S,
    sink: &mut K,
) -> Report {
    hail(alloc, words, disk, providers, source, sink)
}

/// What is told of words over some devices and streams.
fn told_of<D: Disk, P: Tamper>(
    alloc: Global,
    words: &[String],
    disk: &mut D,
    providers: &mut Vec<P>,
    source: &mut MemSource,
    mut sink: MemSink,
) -> Told {
    let report = answer(alloc, words, disk, providers, source, &mut sink);
    Told { report, sink }
}

/// What is told of words with this input over some devices. Want of memory for the source and the sink is the
/// one refusal.
fn tell_words<D: Disk, P: Tamper>(
    alloc: Global,
    words: &[String],
    input: &[u8],
    faults: Faults,
    disk: &mut D,
    providers: &mut Vec<P>,
) -> Option<Told> {
    let mut source = MemSource::new(alloc, input, &[faults.read]).ok()?;
    let sink = MemSink::new(alloc, &[faults.write]).ok()?;
    Some(told_of(alloc, words, disk, providers, &mut source, sink))
}

/// What is told of a line with this input over some devices. Want of memory for the words, the source and the
/// sink is the one refusal.
pub fn tell<D: Disk, P: Tamper>(
    alloc: Global,
    line: &str,
    input: &[u8],
    faults: Faults,
    disk: &mut D,
    providers: &mut Vec<P>,
) -> Option<Told> {
    let words = words(alloc, line)?;
    tell_words(alloc, &words, input, faults, disk, providers)
}

impl Told {
    /// The status.
    pub fn status(&self) -> u8 {
        self.report.status
    }

    /// What was written.
    pub fn text(&self) -> &[u8] {
        self.sink.written()
    }

    /// Whether the command ended with this status, which speaks of this place, and wrote this.
    pub fn is(&self, status: u8, at: u64, text: &[u8]) -> bool {
        self.report.status == status && self.report.at == at && self.sink.written() == text
    }

    /// Whether its jobs that heard something heard so much each.
    pub fn has_heard(&self, wanted: &[usize]) -> bool {
        has_heard(&self.report, wanted) == Some(true)
    }

    /// Whether what its first job heard at a place is this block, from the provider at the same place.
    pub fn has_block_at(&self, place: usize, block: &[Symbol]) -> bool {
        is_block_at(&self.report, place, block)
    }
}
