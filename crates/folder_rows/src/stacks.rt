// Rows of a folder with one file for each object.
use crate::adapters::OfProvider::{self, Calls, Looks};
use crate::adapters::{first_wrong_of_provider, over_both, over_stack};
use crate::given::no_other;
use device_fixtures::calls::Call::{Alter, Ask, AskOfOne, Fetch, Lacks, Lose, Remove, Store};
use device_fixtures::files::Look;
use device_fixtures::forgetful::{Counts, Forgetful};
use device_fixtures::given::WEIGHT;
use hail_adapters::FolderProvider;
use provider_model::StoreFault;
use std::alloc::{Alloc, Global};
use std::fs::Files;
use std::rc::Rc;
use stream_model::Failed;

const ROOM: &[u128] = &[0];

const WIDE_ROOM: &[u128] = &[0, 0];

const ONE: &[u128] = &[1];

const TWO: &[u128] = &[2];

const THREE: &[u128] = &[3];

const OWN: &[u128] = &[513, 1 << 127];

/// The file of an object with that block at stripe 1, and a hole at stripe 0.
const OWN_FILE: &[u8] = b"HAILstk1\x20\0\0\0\0\0\0\0\
    \0\0\0\0\0\0\0\0\0\0\0\0\0\0\0\0\0\0\0\0\0\0\0\0\0\0\0\0\0\0\0\0\0\0\0\0\0\0\0\0\
    \x01\x02\0\0\0\0\0\0\0\0\0\0\0\0\0\0\0\0\0\0\0\0\0\0\0\0\0\0\0\0\0\x80hail\x01\0\0\0";

/// The same with a block of one symbol.
const ONE_FILE: &[u8] = b"HAILstk1\x10\0\0\0\0\0\0\0\
    \0\0\0\0\0\0\0\0\0\0\0\0\0\0\0\0\0\0\0\0\0\0\0\0\
    \x01\0\0\0\0\0\0\0\0\0\0\0\0\0\0\0hail\x01\0\0\0";

// A hole is no block, nor is what is behind the end, nor a block of another size. A store of another size begins
// the file anew.
static FILES: [OfProvider; 19] = [
    Calls(Lacks(7, 1, 2)),
    Looks(Look::IsThere("objects", false)),
    Calls(Store(7, 1, OWN, Ok(()))),
    Looks(Look::Bytes("objects/7", OWN_FILE)),
    Looks(Look::Mode("objects", 0o700)),
    Looks(Look::Mode("objects/7", 0o600)),
    Looks(Look::Names("objects", 1)),
    Calls(Fetch(7, 1, WIDE_ROOM, Ok(true), OWN)),
    Calls(Fetch(7, 0, WIDE_ROOM, Ok(false), WIDE_ROOM)),
    Calls(Fetch(7, 2, WIDE_ROOM, Ok(false), WIDE_ROOM)),
    Calls(Lacks(7, 1, 1)),
    Calls(Lacks(7, 1, 3)),
    Calls(Store(7, 1, ONE, Ok(()))),
    Looks(Look::Bytes("objects/7", ONE_FILE)),
    Calls(Fetch(7, 1, ROOM, Ok(true), ONE)),
    Calls(Lacks(7, 1, 2)),
    Calls(Store(u64::MAX, 0, ONE, Ok(()))),
    Looks(Look::IsFile("objects/18446744073709551615", true)),
    Looks(Look::RemoveAll("objects")),
];

#[test]
fn objects_are_files(rt: HostRuntime) {
    no_other(&rt, over_stack(&rt, rt.alloc(), "objects", &FILES));
}

const SIX: &[u128] = &[0, 1, 0, 0, 0, 0];

const SIX_ROOM: &[u128] = &[9; 6];

const ZEROS: &[u128] = &[0; 6];

const ALTERED: &[u128] = &[0, 1, 5, 0, 0, 0];

// Stripes come in any order, each alone: a neighbour of one that is stored, changed or lost stays.
static NEIGHBOURS: [OfProvider; 31] = [
    Calls(Ask(1, Ok(None))),
    Calls(Lacks(1, 0, 6)),
    Calls(Store(1, 1, SIX, Ok(()))),
    Calls(Fetch(1, 0, SIX_ROOM, Ok(false), SIX_ROOM)),
    Calls(Fetch(1, 2, SIX_ROOM, Ok(false), SIX_ROOM)),
    Calls(Fetch(1, 1, SIX_ROOM, Ok(true), SIX)),
    Calls(Fetch(1, 1, ROOM, Ok(false), ROOM)),
    Calls(Store(1, 11, SIX, Ok(()))),
    Calls(Fetch(1, 5, SIX_ROOM, Ok(false), SIX_ROOM)),
    Calls(Store(1, 3, SIX, Ok(()))),
    Calls(Ask(1, Ok(None))),
    Calls(Store(1, 4, SIX, Ok(()))),
    Calls(Ask(1, Ok(Some(WEIGHT)))),
    Calls(Store(1, 3, ZEROS, Ok(()))),
    Calls(Fetch(1, 3, SIX_ROOM, Ok(true), ZEROS)),
    Calls(Fetch(1, 4, SIX_ROOM, Ok(true), SIX)),
    Calls(Ask(1, Ok(Some(0)))),
    Calls(Store(1, 3, SIX, Ok(()))),
    Calls(Alter(1, 4, 2, 5, true)),
    Calls(Alter(1, 4, 6, 5, false)),
    Calls(Alter(1, 5, 0, 5, false)),
    Calls(Fetch(1, 4, SIX_ROOM, Ok(true), ALTERED)),
    Calls(Fetch(1, 3, SIX_ROOM, Ok(true), SIX)),
    Calls(Lose(1, 4, true)),
    Calls(Lose(1, 4, false)),
    Calls(Fetch(1, 3, SIX_ROOM, Ok(true), SIX)),
    Calls(Store(2, 0, SIX, Ok(()))),
    Calls(Remove(1, Ok(()))),
    Calls(Lacks(1, 3, 6)),
    Calls(AskOfOne(2, Ok(Some(WEIGHT)))),
    Looks(Look::RemoveAll("neighbours")),
];

#[test]
fn a_neighbour_stays(rt: HostRuntime) {
    no_other(&rt, over_both(&rt, rt.alloc(), "neighbours", &NEIGHBOURS));
}

// A place that is cut within its mark is absent, and the one before it is not. A store mends it. Where the file
// is cut within its beginning, the next store writes that anew.
static CUT: [OfProvider; 13] = [
    Calls(Store(7, 0, ONE, Ok(()))),
    Calls(Store(7, 1, TWO, Ok(()))),
    Looks(Look::Cut("cut/7", 63)),
    Calls(Fetch(7, 1, ROOM, Ok(false), ROOM)),
    Calls(Fetch(7, 0, ROOM, Ok(true), ONE)),
    Calls(Alter(7, 1, 0, 5, false)),
    Calls(Lose(7, 1, false)),
    Calls(Store(7, 1, TWO, Ok(()))),
    Calls(Fetch(7, 1, ROOM, Ok(true), TWO)),
    Looks(Look::Cut("cut/7", 15)),
    Calls(Lacks(7, 0, 1)),
    Calls(Lacks(7, 1, 1)),
    Looks(Look::RemoveAll("cut")),
];

// A beginning that says nothing costs no block, and the first store of a command writes it anew.
static DAMAGED: [OfProvider; 8] = [
    Calls(Store(7, 1, ONE, Ok(()))),
    Calls(Store(7, 0, TWO, Ok(()))),
    Looks(Look::Over("damaged/7", 0, b"x")),
    Calls(Fetch(8, 0, ROOM, Ok(false), ROOM)),
    Calls(Fetch(7, 1, ROOM, Ok(true), ONE)),
    Calls(Lacks(7, 1, 2)),
    Calls(Alter(7, 1, 0, 5, false)),
    Calls(Fetch(7, 0, ROOM, Ok(true), TWO)),
];

static MENDED: [OfProvider; 4] = [
    Calls(Store(7, 0, ROOM, Ok(()))),
    Calls(Fetch(7, 1, ROOM, Ok(true), ONE)),
    Calls(Alter(7, 1, 0, 5, true)),
    Looks(Look::RemoveAll("damaged")),
];

#[test]
fn what_is_cut_or_damaged_costs_no_other_block(rt: HostRuntime) {
    no_other(&rt, over_stack(&rt, rt.alloc(), "cut", &CUT));
    no_other(&rt, over_stack(&rt, rt.alloc(), "damaged", &DAMAGED));
    no_other(&rt, over_stack(&rt, rt.alloc(), "damaged", &MENDED));
}

// A link is not followed, and a store puts a file in its place, and in that of an empty folder, but not in that
// of a folder with something in it. A file of one block is none of a stack.
static LINKED: [OfProvider; 18] = [
    Calls(Store(1, 0, ONE, Ok(()))),
    Looks(Look::Link("1", "linked/2")),
    Calls(Lacks(2, 0, 1)),
    Calls(Alter(2, 0, 0, 5, false)),
    Calls(Lose(2, 0, false)),
    Calls(Store(2, 0, TWO, Ok(()))),
    Looks(Look::IsFile("linked/2", true)),
    Calls(Fetch(1, 0, ROOM, Ok(true), ONE)),
    Looks(Look::Folder("linked/3")),
    Calls(Lacks(3, 0, 1)),
    Calls(Store(3, 0, THREE, Ok(()))),
    Looks(Look::IsFile("linked/3", true)),
    Looks(Look::Write("linked/5-0", &[0; 16])),
    Calls(Fetch(5, 0, ROOM, Ok(false), ROOM)),
    Looks(Look::Folder("linked/4")),
    Looks(Look::Write("linked/4/kept", b"")),
    Calls(Store(4, 0, THREE, Err(StoreFault::Failed))),
    Calls(Remove(4, Err(Failed))),
];

static WITHIN_A_FILE: [OfProvider; 4] = [
    Calls(Store(1, 0, ONE, Err(StoreFault::Failed))),
    Calls(Fetch(1, 0, ROOM, Ok(false), ROOM)),
    Calls(Remove(1, Ok(()))),
    Looks(Look::RemoveAll("linked")),
];

#[test]
fn only_plain_files_are_objects(rt: HostRuntime) {
    no_other(&rt, over_stack(&rt, rt.alloc(), "linked", &LINKED));
    no_other(&rt, over_stack(&rt, rt.alloc(), "linked/1", &WITHIN_A_FILE));
}

const FAILS: OfProvider = Calls(Store(3, 0, ONE, Err(StoreFault::Failed)));

// Behind eight failures in a row nothing is done any more.
static GIVEN_UP: [OfProvider; 17] = [
    Calls(Store(1, 0, ONE, Ok(()))),
    Looks(Look::Folder("failing/3")),
    Looks(Look::Write("failing/3/kept", b"")),
    FAILS,
    FAILS,
    FAILS,
    FAILS,
    FAILS,
    FAILS,
    FAILS,
    FAILS,
    Calls(Fetch(1, 0, ROOM, Err(Failed), ROOM)),
    Calls(Ask(1, Err(Failed))),
    Calls(Remove(1, Err(Failed))),
    Calls(Store(2, 0, ONE, Err(StoreFault::Failed))),
    Looks(Look::Names("failing", 2)),
    Looks(Look::RemoveAll("failing")),
];

#[test]
fn a_stack_that_fails_on_and_on_is_given_up(rt: HostRuntime) {
    no_other(&rt, over_stack(&rt, rt.alloc(), "failing", &GIVEN_UP));
}

// A file system that says yes to all and keeps zeros: each store is a fault, also one of zeros.
static FORGOTTEN: [OfProvider; 3] = [
    Calls(Store(1, 0, ONE, Err(StoreFault::Failed))),
    Calls(Store(1, 0, ROOM, Err(StoreFault::Failed))),
    Looks(Look::RemoveAll("forgotten")),
];

/// The place of the first row that goes otherwise over files that keep nothing. Want of memory is told behind
/// the last.
fn over_forgetful<R: Files + Alloc + Clone + Drop>(
    rt: &R,
    alloc: Global,
    path: &str,
    deeds: &[OfProvider],
) -> Option<Option<usize>> {
    let counts = Rc::new(alloc, Counts::new()).ok()?;
    let files = Forgetful::new(rt.clone().ok()?, counts);
    let mut provider = FolderProvider::stacked(&files, alloc, path).ok()?;
    Some(first_wrong_of_provider(rt, &mut provider, deeds))
}

#[test]
fn a_store_in_a_stack_reads_back_what_it_stored(rt: HostRuntime) {
    let forgotten = over_forgetful(&rt, rt.alloc(), "forgotten", &FORGOTTEN);
    assert_eq!(rt; forgotten, Some(None));
}
