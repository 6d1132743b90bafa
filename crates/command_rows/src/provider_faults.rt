use crate::check::check;
use crate::setups::{FOUR, SIX, THREE};
use crate::upkeep_faults::FLAGGED;
use command_fixtures::Deed::{Done, Holds, Lacks, Loses, Refused};
use command_fixtures::{Deed, Rows};

/// The calls of the provider are the store of the put, the ask of the audit, and the fetch and the store of
/// the repair.
const REPAIR: &[Rows] = &[Rows::Failing(
    3,
    &[
        FOUR,
        THREE,
        Loses(2),
        Done("audit", b"", FLAGGED),
        Refused("repair", b"", 13, 2),
        Refused("audit", b"", 6, 0),
        Done("repair", b"", b"repaired 1\n"),
        Refused("repair", b"", 7, 0),
        Done("get a", b"", b"abc"),
    ],
)];

#[test]
fn a_repair_whose_store_fails_is_made_again(rt: HostRuntime) {
    check(&rt, REPAIR);
}

/// The first call of the provider is the store of the put.
const PUT: &[Rows] = &[Rows::Failing(
    0,
    &[
        FOUR,
        Refused("put a", b"abc", 13, 2),
        Refused("get a", b"", 3, 0),
        THREE,
        Done("get a", b"", b"abc"),
    ],
)];

#[test]
fn a_put_whose_store_fails_is_not_in_effect(rt: HostRuntime) {
    check(&rt, PUT);
}

/// A failed fetch is an absent block, a failed ask an absent answer, and a failed removal is passed over.
const OTHERS: &[Rows] = &[
    Rows::Failing(1, &[FOUR, THREE, Done("get a", b"", b"abc")]),
    Rows::Failing(1, &[FOUR, THREE, Done("audit", b"", FLAGGED)]),
    Rows::Failing(1, &[FOUR, THREE, Done("drop a", b"", b"dropped a\n")]),
];

#[test]
fn another_failed_call_is_as_if_nothing_came(rt: HostRuntime) {
    check(&rt, OTHERS);
}

/// The second put stores under 2 and then removes the object 1, in the call 2 of each provider.
const REMOVAL: &[Rows] = &[Rows::Failing(
    2,
    &[
        FOUR,
        THREE,
        THREE,
        Done("get a", b"", b"abc"),
        Holds(0, 2),
        Lacks(0, 1),
        Holds(1, 2),
        Lacks(1, 1),
        Holds(2, 2),
        Holds(2, 1),
        Holds(3, 2),
        Lacks(3, 1),
    ],
)];

#[test]
fn a_block_whose_removal_fails_is_left_there(rt: HostRuntime) {
    check(&rt, REMOVAL);
}

/// A file of three stripes is stored.
const LONG: Deed = Done("put long", &[b'l'; 1000], b"stored long 1000\n");

/// An audit of six providers of which the one at 2 failed once.
const ONE_COUNTS: Deed = Done(
    "audit",
    b"",
    b"audit 1 undecided 0\nprovider 0 count 0 ok\nprovider 1 count 0 ok\nprovider 2 count 1 flagged\nprovider 3 count 0 ok\nprovider 4 count 0 ok\nprovider 5 count 0 ok\n",
);

/// The put makes the calls 0 to 2 of a provider, and the four rounds of the audit 3 to 6: each of them is an
/// ask, and no block is fetched.
const ASKS: &[Rows] = &[
    Rows::Failing(3, &[SIX, LONG, ONE_COUNTS]),
    Rows::Failing(4, &[SIX, LONG, ONE_COUNTS]),
    Rows::Failing(5, &[SIX, LONG, ONE_COUNTS]),
    Rows::Failing(6, &[SIX, LONG, ONE_COUNTS]),
];

#[test]
fn an_audit_asks_each_provider_once_a_round(rt: HostRuntime) {
    check(&rt, ASKS);
}

/// The next call of the provider, 7, is the store of the next put.
const NEXT: &[Rows] = &[Rows::Failing(
    7,
    &[
        SIX,
        LONG,
        Done(
            "audit",
            b"",
            b"audit 1 undecided 0\nprovider 0 count 0 ok\nprovider 1 count 0 ok\nprovider 2 count 0 ok\nprovider 3 count 0 ok\nprovider 4 count 0 ok\nprovider 5 count 0 ok\n",
        ),
        Refused("put a", b"abc", 13, 2),
    ],
)];

#[test]
fn an_audit_makes_no_other_call(rt: HostRuntime) {
    check(&rt, NEXT);
}
