// Rows of folders that fail, lose or hold something else.
use crate::adapters::OfProvider::{self, Calls, Looks};
use crate::adapters::{first_wrong_of_provider, over_both, over_folder};
use crate::given::no_other;
use challenge::Challenge;
use device_fixtures::calls::Call::{Alter, Ask, AskOfOne, Fetch, Lacks, Lose, Remove, Store};
use device_fixtures::files::Look;
use device_fixtures::forgetful::{Counts, Forgetful};
use device_fixtures::given::{CHALLENGE, WEIGHT};
use hail_adapters::FolderProvider;
use hail_field::Symbol;
use provider_model::{Provider, StoreFault};
use std::alloc::{Alloc, Global};
use std::fs::{self, Files};
use std::rc::Rc;
use stream_model::Failed;

const ONE: &[u128] = &[1];

const ROOM: &[u128] = &[0];

// The challenge picks the rows 19, 70, 6 and 24 of stripes of six; the first symbol of its weight is that of
// row 19.
const SIX: &[u128] = &[0, 1, 0, 0, 0, 0];

// An answer is of the blocks that are there: without one of those picked there is none.
static ASKED: [OfProvider; 9] = [
    Calls(Ask(1, Ok(None))),
    Calls(Store(1, 1, SIX, Ok(()))),
    Calls(Store(1, 3, SIX, Ok(()))),
    Calls(Store(1, 4, SIX, Ok(()))),
    Calls(Store(1, 11, SIX, Ok(()))),
    Calls(Ask(1, Ok(Some(WEIGHT)))),
    Calls(Lose(1, 11, true)),
    Calls(Ask(1, Ok(None))),
    Looks(Look::RemoveAll("asked")),
];

// The challenge to one block picks its rows 1, 4, 0 and 0. A block of another size has no answer.
static ASKED_OF_ONE: [OfProvider; 6] = [
    Calls(AskOfOne(1, Ok(None))),
    Calls(Store(1, 0, SIX, Ok(()))),
    Calls(AskOfOne(1, Ok(Some(WEIGHT)))),
    Calls(Store(1, 0, ONE, Ok(()))),
    Calls(AskOfOne(1, Ok(None))),
    Looks(Look::RemoveAll("asked")),
];

#[test]
fn a_missing_block_has_no_answer(rt: HostRuntime) {
    no_other(&rt, over_both(&rt, rt.alloc(), "asked", &ASKED));
    no_other(&rt, over_both(&rt, rt.alloc(), "asked", &ASKED_OF_ONE));
}

const ZEROS: &[u128] = &[0; 6];

const AS_WEIGHT: OfProvider = Calls(AskOfOne(1, Ok(Some(WEIGHT))));

const AS_ZERO: OfProvider = Calls(AskOfOne(1, Ok(Some(0))));

// A block that an answer read is not answered from any more behind a store, a change, a loss and a removal.
static CHANGED: [OfProvider; 14] = [
    Calls(Store(1, 0, SIX, Ok(()))),
    AS_WEIGHT,
    Calls(Store(1, 0, ZEROS, Ok(()))),
    AS_ZERO,
    Calls(Alter(1, 0, 1, 1, true)),
    AS_WEIGHT,
    Calls(Lose(1, 0, true)),
    Calls(AskOfOne(1, Ok(None))),
    Calls(Store(1, 0, SIX, Ok(()))),
    AS_WEIGHT,
    Calls(AskOfOne(2, Ok(None))),
    Calls(Remove(1, Ok(()))),
    Calls(AskOfOne(1, Ok(None))),
    Looks(Look::RemoveAll("changed")),
];

// The blocks 3 and 11 of an object, and those of another, are not taken for each other.
static OTHERS: [OfProvider; 12] = [
    Calls(Store(1, 1, ZEROS, Ok(()))),
    Calls(Store(1, 3, SIX, Ok(()))),
    Calls(Store(1, 4, ZEROS, Ok(()))),
    Calls(Store(1, 11, ZEROS, Ok(()))),
    Calls(Store(1, 0, ZEROS, Ok(()))),
    Calls(Store(2, 0, SIX, Ok(()))),
    Calls(Ask(1, Ok(Some(WEIGHT)))),
    Calls(Ask(1, Ok(Some(WEIGHT)))),
    AS_ZERO,
    Calls(AskOfOne(2, Ok(Some(WEIGHT)))),
    AS_ZERO,
    Looks(Look::RemoveAll("others")),
];

// A file that another program changes is looked at again by a fetch, and by the first answer behind it or
// behind one about another object.
static CHANGED_OUTSIDE: [OfProvider; 11] = [
    Calls(Store(1, 0, SIX, Ok(()))),
    AS_WEIGHT,
    Looks(Look::Write("outside/1-0", &[0; 96])),
    AS_WEIGHT,
    Calls(Fetch(1, 0, &[1; 6], Ok(true), ZEROS)),
    AS_ZERO,
    Looks(Look::RemoveFile("outside/1-0")),
    AS_ZERO,
    Calls(AskOfOne(2, Ok(None))),
    Calls(AskOfOne(1, Ok(None))),
    Looks(Look::RemoveAll("outside")),
];

#[test]
fn an_answer_is_of_the_block_that_is_there(rt: HostRuntime) {
    no_other(&rt, over_both(&rt, rt.alloc(), "changed", &CHANGED));
    no_other(&rt, over_both(&rt, rt.alloc(), "others", &OTHERS));
    no_other(
        &rt,
        over_folder(&rt, rt.alloc(), "outside", &CHANGED_OUTSIDE),
    );
}

// A hole of 16 stripes hides what is behind it.
static HOLES: [OfProvider; 5] = [
    Calls(Store(7, 0, ONE, Ok(()))),
    Calls(Store(7, 17, ONE, Ok(()))),
    Calls(Remove(7, Ok(()))),
    Looks(Look::Names("holes", 1)),
    Looks(Look::RemoveAll("holes")),
];

#[test]
fn a_long_hole_ends_a_removal(rt: HostRuntime) {
    no_other(&rt, over_folder(&rt, rt.alloc(), "holes", &HOLES));
}

const FAILS: OfProvider = Calls(Store(3, 0, ONE, Err(StoreFault::Failed)));

// Seven failures in a row and then an answer, that nothing is there too, count for nothing. Behind eight in
// a row nothing is done any more.
static GIVEN_UP: [OfProvider; 33] = [
    Calls(Store(1, 0, ONE, Ok(()))),
    Looks(Look::Folder("failing/3-0")),
    Looks(Look::Write("failing/3-0/kept", b"")),
    FAILS,
    FAILS,
    FAILS,
    FAILS,
    FAILS,
    FAILS,
    FAILS,
    Calls(Fetch(2, 0, ROOM, Ok(false), ROOM)),
    FAILS,
    FAILS,
    FAILS,
    FAILS,
    FAILS,
    FAILS,
    FAILS,
    Calls(Fetch(1, 0, ROOM, Ok(true), ONE)),
    FAILS,
    FAILS,
    FAILS,
    FAILS,
    FAILS,
    FAILS,
    FAILS,
    FAILS,
    Calls(Fetch(1, 0, ROOM, Err(Failed), ROOM)),
    Calls(Ask(1, Err(Failed))),
    Calls(Remove(1, Err(Failed))),
    Calls(Store(2, 0, ONE, Err(StoreFault::Failed))),
    Looks(Look::Names("failing", 2)),
    Looks(Look::RemoveAll("failing")),
];

#[test]
fn a_folder_that_fails_on_and_on_is_given_up(rt: HostRuntime) {
    no_other(&rt, over_folder(&rt, rt.alloc(), "failing", &GIVEN_UP));
}

// An empty folder in a block's place, or in that of a new file, gives way to a block.
static EMPTY_FOLDERS: [OfProvider; 7] = [
    Calls(Store(1, 0, ONE, Ok(()))),
    Looks(Look::Folder("empty/2-0")),
    Looks(Look::Folder("empty/new")),
    Calls(Lacks(2, 0, 1)),
    Calls(Store(2, 0, ONE, Ok(()))),
    Looks(Look::IsFile("empty/2-0", true)),
    Looks(Look::RemoveAll("empty")),
];

#[test]
fn an_empty_folder_gives_way_to_a_block(rt: HostRuntime) {
    no_other(&rt, over_folder(&rt, rt.alloc(), "empty", &EMPTY_FOLDERS));
}

// A file system that says yes to all and keeps zeros: a store of other symbols is a fault.
static FORGOTTEN: [OfProvider; 3] = [
    Calls(Store(1, 0, ONE, Err(StoreFault::Failed))),
    Calls(Store(1, 0, ROOM, Ok(()))),
    Looks(Look::RemoveAll("forgotten")),
];

// A removal of one block looks at seventeen names.
static ONE_STRIPE: [OfProvider; 3] = [
    Calls(Store(1, 0, ROOM, Ok(()))),
    Calls(Remove(1, Ok(()))),
    Looks(Look::RemoveFolder("removals")),
];

/// The place of the first row that goes otherwise over files that forget, and how many removals there were.
/// Want of memory is the one refusal.
fn over_forgetful<R: Files + Alloc + Clone + Drop>(
    rt: &R,
    alloc: Global,
    path: &str,
    deeds: &[OfProvider],
) -> Option<(Option<usize>, u32)> {
    let counts = Rc::new(alloc, Counts::new()).ok()?;
    let files = Forgetful::new(rt.clone().ok()?, counts.clone().ok()?);
    let mut provider = FolderProvider::new(&files, alloc, path).ok()?;
    let place = first_wrong_of_provider(rt, &mut provider, deeds);
    Some((place, counts.removals.get()))
}

#[test]
fn a_store_reads_back_what_it_stored(rt: HostRuntime) {
    let forgotten = over_forgetful(&rt, rt.alloc(), "forgotten", &FORGOTTEN);
    assert_eq!(rt; forgotten, Some((None, 0)));
}

#[test]
fn a_removal_of_one_block_makes_few_calls(rt: HostRuntime) {
    let removed = over_forgetful(&rt, rt.alloc(), "removals", &ONE_STRIPE);
    assert_eq!(rt; removed, Some((None, 17)));
}

// Two blocks of zeros.
static TWO_BLOCKS: [OfProvider; 2] = [
    Calls(Store(1, 0, &[0; 6], Ok(()))),
    Calls(Store(1, 1, &[0; 6], Ok(()))),
];

/// Asks for the sum over 64 picks in the twelve rows of two blocks.
fn asks<P: Provider>(provider: &mut P) -> Option<Symbol> {
    let seed = CHALLENGE.seed;
    let challenge = Challenge {
        seed,
        rows: 12,
        size: 6,
        picks: 64,
    };
    provider.ask(1, &challenge).ok()?
}

/// What two blocks of zeros answer the second time, and how many files both answers opened. Want of memory is
/// the one refusal.
fn opened_by_two_answers<R: Files + Alloc + Clone + Drop>(
    rt: &R,
    alloc: Global,
    path: &str,
) -> Option<(Symbol, u32)> {
    let counts = Rc::new(alloc, Counts::new()).ok()?;
    let files = Forgetful::new(rt.clone().ok()?, counts.clone().ok()?);
    let mut provider = FolderProvider::new(&files, alloc, path).ok()?;
    let wrong = first_wrong_of_provider(rt, &mut provider, &TWO_BLOCKS);
    let before = counts.openings.get();
    asks(&mut provider)?;
    let symbol = asks(&mut provider)?;
    let openings = counts.openings.get().checked_sub(before)?;
    fs::remove_dir_all(rt, path).ok()?;
    if wrong.is_none() {
        Some((symbol, openings))
    } else {
        None
    }
}

#[test]
fn answers_in_a_row_read_each_block_once(rt: HostRuntime) {
    let opened = opened_by_two_answers(&rt, rt.alloc(), "two");
    assert_eq!(rt; opened, Some((Symbol(0), 2)));
}
