ghost use Rattle.std.specs.Prelude.{◌≡◌, []};
ghost use Rattle.hail_top.specs.Endings.{ending_of};

use hail_replay::HeardLists;
use vault::HeardList;

/// How a command ended: its status, which the program ends with; the place that the status speaks of; and
/// what its jobs heard, in the order of their ends. The place is the offset of the first bad byte at status
/// 8, the row at status 4, the provider at status 13, the line at status 19, and the offset of the bad
/// request at status 25; it is 0 at every other status.
#[derive(Drop)]
pub struct Report {
    pub status: u8,
    pub at: u64,
    pub heard: HeardLists,
}

impl Report {
    /// Nothing was heard, and the status speaks of this place.
    pub(crate) fn at(status: u8, at: u64) -> Report
        ensures { ending_of result ≡ record { status = status; at = at; heard = [] } }
    {
        Report {
            status,
            at,
            heard: HeardLists::one(HeardList::new()),
        }
    }

    /// Nothing was heard, and the status speaks of no place.
    pub(crate) fn of(status: u8) -> Report
        ensures { ending_of result ≡ record { status = status; at = 0; heard = [] } }
    {
        Report::at(status, 0)
    }
}
