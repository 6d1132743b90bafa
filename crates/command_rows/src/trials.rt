use crate::check::check;
use command_fixtures::Deed::{Done, Providers, Refused};
use command_fixtures::{KEY, Rows};

/// The trial of 7, and the file that it leaves.
const SEVEN: &[Rows] = &[Rows::Deeds(&[
    Providers(6),
    Done(
        "trial 7",
        b"",
        b"trial 7\nevents 225\ngets 6 right 6\naudits 3 flagged 2 3 4\nrepairs 3\nstops 2\n",
    ),
    Done("list", b"", b"trial 65536\n"),
])];

#[test]
fn trial_of_seven_finds_and_mends_all(rt: HostRuntime) {
    check(&rt, SEVEN);
}

/// A trial in a home that is set up, whose store tolerates 4,096 wrong rounds: its audit flags nobody, so there
/// is no repair, and the jobs behind it have other numbers than those that are run.
const TOLERANT: &[Rows] = &[Rows::Deeds(&[
    Providers(6),
    Done("init 6 3 1 2 1 6 4096", KEY, b"ready\n"),
    Done(
        "trial 23",
        b"",
        b"trial 23\nevents 225\ngets 1 right 1\naudits 1 flagged\nrepairs 0\nstops 2\n",
    ),
])];

#[test]
fn a_trial_flags_by_the_tolerance_of_the_store(rt: HostRuntime) {
    check(&rt, TOLERANT);
}

/// Too few providers, and words that are no trial.
const NO_TRIAL: &[Rows] = &[Rows::Deeds(&[
    Providers(5),
    Refused("trial 7", b"", 22, 0),
    Refused("trial", b"", 2, 0),
    Refused("trial 07", b"", 2, 0),
    Refused("trial 18446744073709551616", b"", 2, 0),
    Refused("replay 7", b"", 2, 0),
    Refused("replays", b"", 2, 0),
])];

#[test]
fn trial_wants_six_providers_and_a_number(rt: HostRuntime) {
    check(&rt, NO_TRIAL);
}
