//! Runs with a scrub.
ghost use Rattle.std.specs.Prelude.{List};
ghost use Rattle.machine_defs.specs.Halves.{SecondHalf};
ghost use Rattle.machine_defs.specs.Runs.{Moment};
ghost use Rattle.machine_defs.specs.States.{Scrub};
ghost use Rattle.epoch_laws.specs.Sweeping.{HasSweptSoFar};
ghost use Rattle.epoch_runs.specs.Missed.{missing, HasMissed, IsSweeping};
ghost use Rattle.epoch_runs.specs.Swept.{HasSwept};

use epoch_laws::laws::{running_scrubs_have_swept, scrubs_begin_epochs};
use second_half_laws::laws::finished_scrubs_are_marks;

/// A store gets its second version, a file is put, a symbol of provider 0 is altered, and a scrub mends it; then
/// provider 1 loses its block: at most one is damaged up to the scrub's end, and at most one since its begin. The run is
/// calm, and each provider but 1 holds its own blocks exactly.
pub fn a_finished_scrub_begins_an_epoch()
    ensures { (ms : List Moment) × HasSwept ms }
{
    scrubs_begin_epochs();
}

/// A block is lost, and an audit misses it, since the setup tolerates one wrong answer: by audits nothing is promised
/// of that run. A scrub mends the block, so the second half holds of it all the same.
pub fn audits_miss_what_scrubs_mend()
    ensures { (ms : List Moment) × HasMissed ms × SecondHalf missing ms }
{
    finished_scrubs_are_marks();
}

/// That scrub, before it stores the block.
pub fn a_scrub_is_under_way()
    ensures { (ms : List Moment) × (scrub : Scrub) × IsSweeping ms scrub × HasSweptSoFar missing ms scrub }
{
    running_scrubs_have_swept();
}
