// What one event is to the counts of a trial.
ghost use Rattle.std.specs.Prelude.{◌≡◌, ◌≤◌, false, [], length, IfOk};
ghost use Rattle.machine_defs.specs.Events.{Ended};
ghost use Rattle.vault.specs.Outcomes.{machine_answer};
ghost use Rattle.hail_replay.specs.Came.{came_outcome};
ghost use Rattle.hail_replay.specs.Counts.{flagged_from};
ghost use Rattle.hail_replay.specs.Seen.{IsSeen};

use crate::Came;
use command_lines::counts_in_use;
use hail_client::ClientTurn;
use std::alloc::{AllocError, Global};
use vault::{Answer, Turn};

/// What one event is to the counts.
#[derive(Drop)]
pub struct Seen {
    /// Whether a get ended with bytes.
    pub got: bool,
    /// Whether these are the bytes that it was to give.
    pub right: bool,
    /// Whether an audit ended.
    pub audited: bool,
    /// The providers that its verdict flags: those whose count is above the tolerance of the store, in
    /// rising order.
    pub flagged: Vec<u32>,
    /// Whether a repair ended, having stored what it was to store.
    pub repaired: bool,
    /// Whether the client was stopped.
    pub stopped: bool,
}

impl Seen {
    /// An event that nothing else is counted of.
    fn nothing(alloc: Global) -> Seen
        ensures flags { (result.got ≡ false) × (result.right ≡ false) × (result.audited ≡ false)
            × (result.repaired ≡ false) × (result.stopped ≡ false) }
        ensures flagged { result.flagged.items ≡ [] }
    {
        Seen {
            got: false,
            right: false,
            audited: false,
            flagged: Vec::new(alloc),
            repaired: false,
            stopped: false,
        }
    }
}

/// The providers whose count is above the tolerance.
fn flagged_of(alloc: Global, tolerance: u16, counts: &[u32]) -> Result<Vec<u32>, AllocError>
    requires { length counts.now ≤ 16 }
    ensures { IfOk result (λ flagged. flagged.items ≡ flagged_from tolerance 0 counts.now) }
{
    let mut flagged = Vec::new(alloc);
    for place in 0..counts.len() {
        if counts[place] > u32::from(tolerance) {
            flagged.push(place as u32)?;
        }
    }
    Ok(flagged)
}

/// What the end of a job is to the counts, where the store tolerates so many wrong rounds of a provider.
pub fn seen_end(
    alloc: Global,
    expected: &[u8],
    tolerance: u16,
    answer: &Answer,
) -> Result<Seen, AllocError>
    ensures { IfOk result (IsSeen expected.now tolerance (Ended (machine_answer answer.now))) }
{
    let nothing = Seen::nothing(alloc);
    match answer {
        Answer::Got { bytes } => {
            let right = bytes.as_slice() == expected;
            Ok(Seen {
                got: true,
                right,
                ..nothing
            })
        }
        Answer::Audited { counts, .. } => {
            let flagged = flagged_of(alloc, tolerance, counts_in_use(counts))?;
            Ok(Seen {
                audited: true,
                flagged,
                ..nothing
            })
        }
        Answer::Repaired { .. } => Ok(Seen {
            repaired: true,
            ..nothing
        }),
        _ => Ok(nothing),
    }
}

/// What an event is to the counts that came to this.
pub(crate) fn seen_of(
    alloc: Global,
    expected: &[u8],
    tolerance: u16,
    came: &Came<'_>,
) -> Result<Seen, AllocError>
    ensures { IfOk result (IsSeen expected.now tolerance (came_outcome came.now)) }
{
    let nothing = Seen::nothing(alloc);
    match came {
        Came::Stepped(Some(ClientTurn::Job(Turn::Done(end)))) => {
            seen_end(alloc, expected, tolerance, &end.answer)
        }
        Came::Stopped => Ok(Seen {
            stopped: true,
            ..nothing
        }),
        _ => Ok(nothing),
    }
}
