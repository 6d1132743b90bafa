use crate::deeds::Deed::{self, Begins, Keeps, Loses, Mended, Reopens, Runs, Steps};
use crate::deeds::{SIX, first_wrong};
use crate::job::Job;
use crate::store::Seen;
use vault::BeginFault;

/// A file of one stripe is stored, a provider loses its block, an audit finds that, and the repair is cut
/// after ten steps.
const CUT_REPAIR: &[Deed] = &[
    Begins(Job::Put(b"a", b"old"), Ok(1)),
    Runs(1, 15, Seen::Put),
    Keeps,
    Loses,
    Begins(Job::Audit, Ok(2)),
    Runs(2, 33, Seen::Audited(1)),
    Begins(Job::Repair, Ok(3)),
    Steps(3, 10, Seen::More),
    Reopens(&[]),
    Begins(Job::Audit, Err(BeginFault::RepairDue)),
    Begins(Job::Repair, Ok(1)),
    Runs(1, 13, Seen::Repaired(1)),
    Begins(Job::Repair, Err(BeginFault::NothingDue)),
    Mended,
];

#[test]
fn a_cut_repair_stays_due(rt: HostRuntime) {
    assert_eq!(rt; first_wrong(rt.alloc(), &SIX, CUT_REPAIR), None);
}
