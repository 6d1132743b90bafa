//! A run, given outright.
ghost use Rattle.std.specs.Prelude.{List};
ghost use Rattle.damage_run.specs.Words.{Moment};
ghost use Rattle.upgrade_run.specs.Schedule.{HasAll};

/// A run of 43 events: an upgrade; a put of a file with a profile of its own; one altered symbol; a scrub
/// that finds it and mends its block; a pack, with a stop in its third move that leaves the packed journal in
/// effect, in the other area; and a get of the file.
#[tactic(auto, using(crate::proofs::Run::outright))]
pub fn all_of_the_second_version_happens()
    ensures { (ms : List Moment) × HasAll ms }
{}
