use crate::check::check;
use crate::setups::FOUR;
use command_fixtures::Deed::{Done, Holds, Lacks, LosesOf, Puts};
use command_fixtures::Rows;

/// Two hundred files of one stripe each. Blocks of the first, of one in the middle and of the last are lost:
/// an audit counts each, a repair and a scrub bring them back.
const MANY: &[Rows] = &[Rows::Deeds(&[
    FOUR,
    Puts(200),
    LosesOf(0, 1),
    LosesOf(0, 101),
    LosesOf(2, 200),
    Done(
        "audit",
        b"",
        b"audit 1 undecided 0\nprovider 0 count 2 flagged\nprovider 1 count 0 ok\nprovider 2 count 1 flagged\nprovider 3 count 0 ok\n",
    ),
    Done("repair", b"", b"repaired 1\n"),
    Holds(0, 1),
    Holds(0, 101),
    Holds(2, 200),
    LosesOf(3, 1),
    LosesOf(3, 150),
    LosesOf(1, 200),
    Lacks(3, 150),
    Done(
        "scrub",
        b"",
        b"scrub stripes 200\nprovider 0 symbols 0 blocks 0\nprovider 1 symbols 6 blocks 1\nprovider 2 symbols 0 blocks 0\nprovider 3 symbols 12 blocks 2\n",
    ),
    Holds(3, 1),
    Holds(3, 150),
    Holds(1, 200),
])];

#[test]
fn two_hundred_files_are_audited_repaired_and_scrubbed(rt: HostRuntime) {
    check(&rt, MANY);
}
