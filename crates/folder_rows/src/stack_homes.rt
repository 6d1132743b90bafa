// Rows of a home of whose providers some are stacks: what the barrier brings to the medium.
use crate::adapters::OfProvider::{self, Calls, Looks};
use crate::adapters::first_wrong_of_provider;
use device_fixtures::calls::Call::{AskOfOne, Fetch, Lacks, Remove, Store};
use device_fixtures::files::Look;
use device_fixtures::forgetful::{Counts, Forgetful};
use device_fixtures::given::WEIGHT;
use hail_adapters::{FolderProvider, ProviderFolders, Unsynced, first_twin, folder_providers};
use provider_model::StoreFault;
use std::alloc::{Alloc, Global};
use std::fs::{self, Files};
use std::os::unix::fs::symlink;
use std::rc::Rc;
use stream_model::Failed;

const ROOM: &[u128] = &[0];

const ONE: &[u128] = &[1];

const TWO: &[u128] = &[2];

/// The devices of a home, over files whose calls are counted.
#[derive(Drop)]
struct Home<R: Files + Clone + Drop> {
    counts: Rc<Counts>,
    folders: ProviderFolders<Forgetful<R>>,
    providers: Vec<FolderProvider<Forgetful<R>>>,
}

impl<R: Files + Clone + Drop> Home<R> {
    /// The devices before their first call.
    fn new(rt: &R, alloc: Global, home: &str) -> Option<Home<R>> {
        let counts = Rc::new(alloc, Counts::new()).ok()?;
        let files = Forgetful::keeping(rt.clone().ok()?, counts.clone().ok()?);
        let unsynced = Unsynced::new(alloc).ok()?;
        Some(Home {
            counts,
            folders: ProviderFolders::new(&files, alloc, home, &unsynced).ok()?,
            providers: folder_providers(&files, alloc, home, &unsynced).ok()?,
        })
    }

    /// Whether these calls of a provider, and looks, come to what they say.
    fn goes<S: Files + Alloc + Clone + Drop>(
        &mut self,
        rt: &S,
        number: usize,
        deeds: &[OfProvider],
    ) -> bool {
        match self.providers.get_mut(number) {
            Some(provider) => first_wrong_of_provider(rt, provider, deeds).is_none(),
            None => false,
        }
    }

    /// Whether all that was stored is brought to the medium, and how many files and folders are synced for it.
    fn brings(&mut self) -> (bool, u32) {
        let before = self.counts.syncs.get();
        let brought = self.folders.sync().is_ok();
        (brought, self.counts.syncs.get().saturating_sub(before))
    }

    /// The provider, if any, of which something is not brought there.
    fn left(&mut self) -> Option<u8> {
        match self.folders.sync() {
            Ok(()) => None,
            Err(_) => self.folders.left,
        }
    }
}

/// Makes a home in which providers 0 and 1 are stacks.
fn make_home<R: Files>(rt: &R, alloc: Global, home: &str) -> Option<()> {
    fs::create_dir(rt, home).ok()?;
    let first = format!(in alloc; "{home}/stack-0").ok()?;
    fs::write(rt, &first, b"").ok()?;
    let second = format!(in alloc; "{home}/stack-1").ok()?;
    fs::create_dir(rt, &second).ok()
}

static STORED: [OfProvider; 4] = [
    Calls(Store(1, 0, ONE, Ok(()))),
    Calls(Store(1, 1, ONE, Ok(()))),
    Looks(Look::IsFile("synced/provider-0/1", true)),
    Looks(Look::IsThere("synced/provider-0/1-0", false)),
];

static STORED_PLAINLY: [OfProvider; 2] = [
    Calls(Store(1, 0, ONE, Ok(()))),
    Looks(Look::IsFile("synced/provider-2/1-0", true)),
];

static STORED_AGAIN: [OfProvider; 1] = [Calls(Store(1, 1, TWO, Ok(())))];

/// Whether the files and folders to which was stored are synced, each once, and no other. A
/// file that was there is synced with its folder: another program may have made it.
fn syncs_what_was_stored<R: Files + Alloc + Clone + Drop>(rt: &R, alloc: Global) -> Option<bool> {
    make_home(rt, alloc, "synced")?;
    let mut home = Home::new(rt, alloc, "synced")?;
    let stored = home.goes(rt, 0, &STORED) && home.goes(rt, 2, &STORED_PLAINLY);
    let first = home.brings() == (true, 3) && home.brings() == (true, 0);
    let again = home.goes(rt, 0, &STORED_AGAIN) && home.brings() == (true, 1);
    let mut other = Home::new(rt, alloc, "synced")?;
    let there = other.goes(rt, 0, &STORED_AGAIN) && other.brings() == (true, 2);
    fs::remove_dir_all(rt, "synced").ok()?;
    Some(stored && first && again && there)
}

#[test]
fn what_was_stored_is_synced_once(rt: HostRuntime) {
    assert_eq!(rt; syncs_what_was_stored(&rt, rt.alloc()), Some(true));
}

static EIGHT: [OfProvider; 8] = [
    Calls(Store(1, 0, ONE, Ok(()))),
    Calls(Store(2, 0, ONE, Ok(()))),
    Calls(Store(3, 0, ONE, Ok(()))),
    Calls(Store(4, 0, ONE, Ok(()))),
    Calls(Store(5, 0, ONE, Ok(()))),
    Calls(Store(6, 0, ONE, Ok(()))),
    Calls(Store(7, 0, ONE, Ok(()))),
    Calls(Store(8, 0, ONE, Ok(()))),
];

static TWO_MORE: [OfProvider; 6] = [
    Calls(Store(9, 0, ONE, Ok(()))),
    Calls(Store(10, 0, ONE, Ok(()))),
    Calls(Store(1, 1, TWO, Ok(()))),
    Calls(Fetch(1, 0, ROOM, Ok(true), ONE)),
    Calls(Fetch(1, 1, ROOM, Ok(true), TWO)),
    Calls(Fetch(9, 0, ROOM, Ok(true), ONE)),
];

/// Whether eight objects are written to at once, and for each one more the oldest is synced.
fn keeps_eight_open<R: Files + Alloc + Clone + Drop>(rt: &R, alloc: Global) -> Option<bool> {
    make_home(rt, alloc, "eight")?;
    let mut home = Home::new(rt, alloc, "eight")?;
    let eight = home.goes(rt, 0, &EIGHT);
    let before = home.counts.syncs.get();
    let more = home.goes(rt, 0, &TWO_MORE) && home.counts.syncs.get() == before.saturating_add(3);
    let right = eight && more && home.brings() == (true, 9) && home.brings() == (true, 0);
    fs::remove_dir_all(rt, "eight").ok()?;
    Some(right)
}

#[test]
fn eight_objects_are_written_at_once(rt: HostRuntime) {
    assert_eq!(rt; keeps_eight_open(&rt, rt.alloc()), Some(true));
}

/// What is done to a home behind a store and before it is brought to the medium.
#[derive(Clone, Copy)]
enum Harm {
    /// The file is taken away.
    Gone,
    /// Another has its name.
    Replaced,
    /// It keeps nothing of what was written.
    Emptied,
    /// It keeps all but the last block.
    Shortened,
    /// Its folder is taken away.
    NoFolder,
}

static GONE: [OfProvider; 1] = [Looks(Look::RemoveFile("harmed/provider-1/1"))];

static REPLACED: [OfProvider; 2] = [
    Looks(Look::RemoveFile("harmed/provider-1/1")),
    Looks(Look::Write("harmed/provider-1/1", b"HAILstk1\x10\0\0\0\0\0\0\0")),
];

static EMPTIED: [OfProvider; 1] = [Looks(Look::Cut("harmed/provider-1/1", 0))];

static SHORTENED: [OfProvider; 1] = [Looks(Look::Cut("harmed/provider-1/1", 40))];

static NO_FOLDER: [OfProvider; 1] = [Looks(Look::RemoveAll("harmed/provider-1"))];

impl Harm {
    fn deeds(&self) -> &'static [OfProvider] {
        match self {
            Harm::Gone => &GONE,
            Harm::Replaced => &REPLACED,
            Harm::Emptied => &EMPTIED,
            Harm::Shortened => &SHORTENED,
            Harm::NoFolder => &NO_FOLDER,
        }
    }
}

static HARMS: [Harm; 5] = [
    Harm::Gone,
    Harm::Replaced,
    Harm::Emptied,
    Harm::Shortened,
    Harm::NoFolder,
];

static TWO_BLOCKS: [OfProvider; 2] = [
    Calls(Store(1, 0, ONE, Ok(()))),
    Calls(Store(1, 1, ONE, Ok(()))),
];

static NO_MORE: [OfProvider; 1] = [Calls(Store(1, 0, ONE, Err(StoreFault::Failed)))];

/// Whether a harm is told, with the provider, and so on and on: nothing is stored there behind it.
fn is_told<R: Files + Alloc + Clone + Drop>(rt: &R, alloc: Global, harm: Harm) -> Option<bool> {
    make_home(rt, alloc, "harmed")?;
    let mut home = Home::new(rt, alloc, "harmed")?;
    let stored = home.goes(rt, 0, &TWO_BLOCKS) && home.goes(rt, 1, &TWO_BLOCKS);
    let harmed = stored && home.goes(rt, 1, harm.deeds());
    let told = home.left() == Some(1) && home.left() == Some(1);
    let right = harmed && told && home.goes(rt, 1, &NO_MORE) && home.left() == Some(1);
    fs::remove_dir_all(rt, "harmed").ok()?;
    Some(right)
}

/// The first harm that is not told.
fn first_untold<R: Files + Alloc + Clone + Drop>(rt: &R, alloc: Global) -> Option<usize> {
    for place in 0..HARMS.len() {
        if is_told(rt, alloc, HARMS[place]) != Some(true) {
            return Some(place);
        }
    }
    None
}

#[test]
fn what_does_not_come_to_the_medium_is_told(rt: HostRuntime) {
    assert_eq!(rt; first_untold(&rt, rt.alloc()), None);
}

const SIX: &[u128] = &[0, 1, 0, 0, 0, 0];

const SIX_ROOM: &[u128] = &[9; 6];

static OPENED: [OfProvider; 6] = [
    Calls(Store(1, 0, SIX, Ok(()))),
    Calls(Store(1, 1, SIX, Ok(()))),
    Calls(Fetch(1, 0, SIX_ROOM, Ok(true), SIX)),
    Calls(Fetch(1, 1, SIX_ROOM, Ok(true), SIX)),
    Calls(AskOfOne(1, Ok(Some(WEIGHT)))),
    Calls(AskOfOne(1, Ok(Some(WEIGHT)))),
];

/// How often a file was opened in these rows, where they go right.
fn openings<R: Files + Alloc + Clone + Drop>(rt: &R, alloc: Global) -> Option<u32> {
    make_home(rt, alloc, "opened")?;
    let mut home = Home::new(rt, alloc, "opened")?;
    let right = home.goes(rt, 0, &OPENED);
    let openings = home.counts.openings.get();
    fs::remove_dir_all(rt, "opened").ok()?;
    if right { Some(openings) } else { None }
}

// The home is opened to sync it, as the folder is made, and the file to read it.
#[test]
fn the_file_that_was_read_last_stays_open(rt: HostRuntime) {
    assert_eq!(rt; openings(&rt, rt.alloc()), Some(2));
}

// A removal forgets what was stored to its object, whichever was read last.
static REMOVED: [OfProvider; 6] = [
    Calls(Store(1, 0, ONE, Ok(()))),
    Calls(Store(2, 0, ONE, Ok(()))),
    Calls(Fetch(2, 0, ROOM, Ok(true), ONE)),
    Calls(Remove(1, Ok(()))),
    Calls(Lacks(1, 0, 1)),
    Looks(Look::Names("removal/provider-0", 1)),
];

fn forgets_what_is_removed<R: Files + Alloc + Clone + Drop>(rt: &R, alloc: Global) -> Option<bool> {
    make_home(rt, alloc, "removal")?;
    let mut home = Home::new(rt, alloc, "removal")?;
    let right = home.goes(rt, 0, &REMOVED) && home.brings() == (true, 2);
    fs::remove_dir_all(rt, "removal").ok()?;
    Some(right)
}

#[test]
fn a_removal_leaves_nothing_to_sync(rt: HostRuntime) {
    assert_eq!(rt; forgets_what_is_removed(&rt, rt.alloc()), Some(true));
}

static REFUSED: [OfProvider; 4] = [
    Calls(Store(1, 0, ONE, Err(StoreFault::Failed))),
    Calls(Fetch(1, 0, ROOM, Err(Failed), ROOM)),
    Calls(Remove(1, Err(Failed))),
    Looks(Look::IsThere("both/provider-1", false)),
];

/// Whether a provider that is said to be a stack and a remote one is refused, and its neighbour is not.
fn refuses_both<R: Files + Alloc + Clone + Drop>(rt: &R, alloc: Global) -> Option<bool> {
    make_home(rt, alloc, "both")?;
    fs::write(rt, "both/remote-1", b"").ok()?;
    let mut home = Home::new(rt, alloc, "both")?;
    let right = home.goes(rt, 0, &TWO_BLOCKS) && home.goes(rt, 1, &REFUSED) && home.brings().0;
    fs::remove_dir_all(rt, "both").ok()?;
    Some(right)
}

#[test]
fn a_stack_that_is_remote_too_is_refused(rt: HostRuntime) {
    assert_eq!(rt; refuses_both(&rt, rt.alloc()), Some(true));
}

static TWIN: [OfProvider; 2] = [
    Calls(Store(1, 0, TWO, Err(StoreFault::Failed))),
    Calls(Fetch(1, 0, ROOM, Ok(true), ONE)),
];

/// Whether the second of two providers that are one folder is refused before anything of it is written.
fn refuses_twins<R: Files + Alloc + Clone + Drop>(
    rt: &R,
    alloc: Global,
    first: usize,
    second: usize,
) -> Option<bool> {
    make_home(rt, alloc, "twins")?;
    let folder = format!(in alloc; "provider-{first}").ok()?;
    let own = format!(in alloc; "twins/{folder}").ok()?;
    let link = format!(in alloc; "twins/provider-{second}").ok()?;
    fs::create_dir(rt, &own).ok()?;
    symlink(rt, &folder, &link).ok()?;
    let mut home = Home::new(rt, alloc, "twins")?;
    let right = home.goes(rt, first, &TWO_BLOCKS)
        && home.goes(rt, second, &TWIN)
        && home.brings().0;
    fs::remove_dir_all(rt, "twins").ok()?;
    Some(right)
}

// Providers 0 and 1 are stacks, 2 and 3 are not.
#[test]
fn two_providers_that_are_one_are_a_fault_of_the_second(rt: HostRuntime) {
    assert_eq!(rt; refuses_twins(&rt, rt.alloc(), 0, 1), Some(true));
    assert_eq!(rt; refuses_twins(&rt, rt.alloc(), 2, 3), Some(true));
}

/// Which provider, if any, has the folder of one before it, where provider 5 is a link to the folder of 2 and has
/// something at `remote-5` or not.
fn twins<R: Files + Alloc + Clone + Drop>(rt: &R, alloc: Global) -> Option<[Option<u8>; 3]> {
    make_home(rt, alloc, "apart")?;
    fs::create_dir(rt, "apart/provider-2").ok()?;
    fs::create_dir(rt, "apart/provider-4").ok()?;
    let apart = first_twin(rt, alloc, "apart").ok()?;
    symlink(rt, "provider-2", "apart/provider-5").ok()?;
    let together = first_twin(rt, alloc, "apart").ok()?;
    fs::write(rt, "apart/remote-5", b"").ok()?;
    let remote = first_twin(rt, alloc, "apart").ok()?;
    fs::remove_dir_all(rt, "apart").ok()?;
    Some([apart, together, remote])
}

#[test]
fn two_numbers_with_one_folder_are_found(rt: HostRuntime) {
    assert_eq!(rt; twins(&rt, rt.alloc()), Some([None, Some(5), None]));
}
