//! A run with faults, given outright.
ghost use Rattle.std.specs.Prelude.{List};
ghost use Rattle.damage_run.specs.Words.{Moment};
ghost use Rattle.fault_run.specs.Faults.{IsFaulty, HasFaults};

/// A run of 75 events at limit 8: a fetch, a store, an ask, a removal and two calls of the disk fail; a put
/// is cut off, and a stop brings its record into effect; begins are refused; the first file stays, and is
/// got. The premises of the laws about faults are met in it.
#[tactic(auto, using(crate::proofs::Points::faulty, crate::proofs::Points::faults))]
pub fn faults_are_met()
    ensures { (ms : List Moment) × IsFaulty ms × HasFaults ms }
{}
