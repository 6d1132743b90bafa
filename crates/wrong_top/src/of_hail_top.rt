//! Bodies of hail_top's public functions, for its must-fail edits to spoil.
ghost use Rattle.hail_top.specs.Answered.{AnswersWords};
ghost use Rattle.hail_top.specs.Endings.{seen_of, ending_of};

use disk_model::Disk;
use hail_top::Report;
use provider_model::Tamper;
use std::alloc::Global;
use stream_model::{Sink, Source};

/// `hail`.
pub fn hail<D: Disk, P: Tamper, S: Source, K: Sink>(
    alloc: Global,
    words: &[String],
    disk: &mut D,
    providers: &mut Vec<P>,
    source: &mut S,
    sink: &mut K,
) -> Report
    ensures answered { AnswersWords words.now
        (seen_of D.Disk P.Provider S.Source K.Sink disk.old providers.old.items source.old sink.old)
        (seen_of D.Disk P.Provider S.Source K.Sink disk.new providers.new.items source.new sink.new)
        (ending_of result) }
{
    let report = hail_top::hail(alloc, words, disk, providers, source, sink);
    report
}
