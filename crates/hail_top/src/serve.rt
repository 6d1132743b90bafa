// The command `serve`.
ghost use Rattle.std.specs.Prelude.{◌≡◌, ℕ, Option};
ghost use Rattle.device_defs.specs.Cells.{Cells};
ghost use Rattle.command_defs.specs.Commands.{IsUsage};
ghost use Rattle.command_defs.specs.Seen.{NoCountFalls};
ghost use Rattle.provider_server.specs.Answers.{AnswersServe};
ghost use Rattle.provider_server.specs.Statuses as statuses;
ghost use Rattle.provider_server.specs.Words.{IsServeForm};
ghost use Rattle.hail_top.specs.Endings.{seen_beside, ending_of};

use crate::report::Report;
use exit_statuses::USAGE;
use provider_model::Provider;
use provider_server::{Served, read_serve, serve_at};
use std::alloc::Global;
use stream_model::{Sink, Source};

/// How the server ended.
fn served(end: Served) -> Report
    ensures { ending_of result ≡ statuses.served_ending end }
{
    Report::at(end.status, end.at)
}

/// Serves the provider that the words ask for, or answers that they ask for nothing.
pub fn serve_words<P: Provider, S: Source, K: Sink>(
    alloc: Global,
    words: &[String],
    providers: &mut [P],
    source: &mut S,
    sink: &mut K,
) -> Report
    ensures usage { (disk : Option Cells) (disk_faults : ℕ)
        → ((number : ℕ) → IsServeForm words.now number → ⊥) → IsUsage
        (seen_beside disk disk_faults P.Provider S.Source K.Sink providers.old source.old sink.old)
        (seen_beside disk disk_faults P.Provider S.Source K.Sink providers.new source.new sink.new)
        (ending_of result) }
    ensures serves { (disk : Option Cells) (disk_faults number : ℕ) → IsServeForm words.now number
        → AnswersServe number
        (seen_beside disk disk_faults P.Provider S.Source K.Sink providers.old source.old sink.old)
        (seen_beside disk disk_faults P.Provider S.Source K.Sink providers.new source.new sink.new)
        (ending_of result) }
    ensures counts { (disk : Option Cells) (disk_faults : ℕ) → NoCountFalls
        (seen_beside disk disk_faults P.Provider S.Source K.Sink providers.old source.old sink.old)
        (seen_beside disk disk_faults P.Provider S.Source K.Sink providers.new source.new sink.new) }
{
    match read_serve(words) {
        Some(number) => {
            let end = serve_at(alloc, number, providers, source, sink);
            served(end)
        }
        None => Report::of(USAGE),
    }
}
