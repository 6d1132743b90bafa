ghost use Rattle.std.specs.Prelude.{ℕ, Option, map};
ghost use Rattle.device_defs.specs.Cells.{Cells};
ghost use Rattle.command_defs.specs.Seen.{NoCountFalls, seen};
ghost use Rattle.provider_model.specs.Seen.{provider_seen};
ghost use Rattle.provider_server.specs.Answers.{AnswersServe};
ghost use Rattle.provider_server.specs.Statuses.{served_ending};

use crate::status::{Served, told};
use exit_statuses::TOO_FEW_PROVIDERS;
use provider_model::Provider;
use provider_wire::laws::counts_never_fall;
use provider_wire::serve;
use std::alloc::Global;
use stream_model::{Sink, Source};

/// Serves the requests that the source gives with the provider of this number, and writes each answer as it
/// comes. Nothing is touched where the provider was not handed in.
pub fn serve_at<P: Provider, S: Source, K: Sink>(
    alloc: Global,
    number: u8,
    providers: &mut [P],
    source: &mut S,
    sink: &mut K,
) -> Served
    ensures answers { (disk : Option Cells) (disk_faults : ℕ) → AnswersServe number
        (seen disk disk_faults (map (provider_seen P.Provider) providers.old) (S.left source.old)
        (S.faults source.old) (K.written sink.old) (K.faults sink.old))
        (seen disk disk_faults (map (provider_seen P.Provider) providers.new) (S.left source.new)
        (S.faults source.new) (K.written sink.new) (K.faults sink.new)) (served_ending result) }
    ensures counts { (disk : Option Cells) (disk_faults : ℕ) → NoCountFalls
        (seen disk disk_faults (map (provider_seen P.Provider) providers.old) (S.left source.old)
        (S.faults source.old) (K.written sink.old) (K.faults sink.old))
        (seen disk disk_faults (map (provider_seen P.Provider) providers.new) (S.left source.new)
        (S.faults source.new) (K.written sink.new) (K.faults sink.new)) }
{
    let place = usize::from(number);
    if place >= providers.len() {
        return Served {
            status: TOO_FEW_PROVIDERS,
            at: 0,
        };
    }
    counts_never_fall();
    told(serve(alloc, &mut providers[place], source, sink))
}
