// The line of a step.
ghost use Rattle.std.specs.Prelude.{◌≡◌, IfOk};
ghost use Rattle.machine_defs.specs.Lines.{lines_of};
ghost use Rattle.vault.specs.Outcomes.{outcome_of};
ghost use Rattle.hail_scrub.specs.Stands.{scrub_outcome};
ghost use Rattle.hail_client.specs.Outcomes.{pack_step_outcome, step_outcome};

use crate::ended::{answer_line, pack_answer_line, scrub_answer_line};
use crate::refused::refused_line;
use command_lines::numbered_line;
use hail_client::{ClientTurn, PackStep};
use hail_scrub::ScrubTurn;
use std::alloc::Global;
use stream_model::{Bytes, Memory};
use vault::Turn;

/// The line of a step of a job.
fn turn_line(alloc: Global, turn: &Turn) -> Result<Bytes, Memory>
    ensures { IfOk result (λ text. text ≡ lines_of (outcome_of turn.now)) }
{
    match turn {
        Turn::More => Bytes::from_slice(alloc, b"more\n"),
        Turn::Waiting { holder } => numbered_line(alloc, b"waiting", u64::from(*holder)),
        Turn::Done(end) => answer_line(alloc, &end.answer),
        Turn::NoSuchJob => refused_line(alloc, "NoSuchJob"),
        Turn::MustReopen => refused_line(alloc, "MustReopen"),
    }
}

/// The line of a step of a scrub of so many providers.
fn scrub_line(alloc: Global, providers: u8, turn: &ScrubTurn) -> Result<Bytes, Memory>
    ensures { IfOk result (λ text. text ≡ lines_of (scrub_outcome providers turn.now)) }
{
    match turn {
        ScrubTurn::More => Bytes::from_slice(alloc, b"more\n"),
        ScrubTurn::Done(answer) => scrub_answer_line(alloc, providers, answer),
    }
}

/// The line of a step of a pack.
fn pack_line(alloc: Global, step: &PackStep) -> Result<Bytes, Memory>
    ensures { IfOk result (λ text. text ≡ lines_of (pack_step_outcome step.now)) }
{
    match step {
        PackStep::More => Bytes::from_slice(alloc, b"more\n"),
        PackStep::Done(answer) => pack_answer_line(alloc, answer),
    }
}

/// The line of a step, or of the last of many: that the job goes on or waits, how it ended, why it was
/// refused, or that no vault is open. Want of memory is its one refusal.
pub fn step_line(alloc: Global, answer: &Option<ClientTurn>) -> Result<Bytes, Memory>
    ensures { IfOk result (λ text. text ≡ lines_of (step_outcome answer.now)) }
{
    match answer {
        None => Bytes::from_slice(alloc, b"closed\n"),
        Some(ClientTurn::Job(turn)) => turn_line(alloc, turn),
        Some(ClientTurn::Scrub { providers, turn }) => scrub_line(alloc, *providers, turn),
        Some(ClientTurn::Pack(step)) => pack_line(alloc, step),
    }
}
