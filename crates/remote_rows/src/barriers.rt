// Rows of a home with two far ends: what they are sent, and what comes behind their answers.
use crate::frames::{fetch, found, store};
use crate::places::{Ends, Pipes};
use disk_model::Disk;
use hail_adapters::{ProviderFolders, StdSink, Unsynced, folder_providers, journal_disk};
use hail_field::Symbol;
use provider_model::Provider;
use remote_adapters::{Barrier, HomeDisk, HomeProvider, HomeSink, Remotes, home_providers};
use std::alloc::{Alloc, Global};
use std::fs::{self, Files};
use std::io::{PipeReader, Read, Write};
use std::process::Abort;
use stream_model::{Sink, WriteFault};

/// The numbers of the two.
const FAR: [usize; 2] = [2, 15];

/// The devices of a home.
#[derive(Drop)]
struct Devices {
    disk: HomeDisk<HostRuntime>,
    sink: HomeSink,
    barrier: Barrier<HostRuntime>,
    providers: Vec<HomeProvider>,
}

impl Devices {
    /// The devices before their first call.
    fn new(rt: &HostRuntime, alloc: Global, home: &str) -> Option<Devices> {
        let remotes = Remotes::new(rt, alloc, home).ok()?;
        let unsynced = Unsynced::new(alloc).ok()?;
        let synced = ProviderFolders::new(rt, alloc, home, &unsynced).ok()?;
        let folders = folder_providers(rt, alloc, home, &unsynced).ok()?;
        let barrier = Barrier::new(alloc, &remotes, synced).ok()?;
        let journal = journal_disk(rt, alloc, home).ok()?;
        Some(Devices {
            disk: HomeDisk::new(journal, barrier.share().ok()?),
            sink: HomeSink::new(StdSink::new(rt).ok()?, barrier.share().ok()?),
            barrier,
            providers: home_providers(alloc, &remotes, folders).ok()?,
        })
    }
}

/// A home with two far ends, by the ends of their pipes.
#[derive(Drop)]
struct Home {
    devices: Devices,
    pipes: [Pipes; 2],
}

impl Home {
    fn new(rt: &HostRuntime, alloc: Global, home: &str) -> Option<Home> {
        fs::create_dir(rt, home).ok()?;
        let pipes = [Pipes::new(rt).ok()?, Pipes::new(rt).ok()?];
        for far in 0..2usize {
            let number = FAR[far];
            let folder = format!(in alloc; "{home}/remote-{number}").ok()?;
            pipes[far].name(rt, &folder).ok()?;
        }
        let devices = Devices::new(rt, alloc, home)?;
        Some(Home { devices, pipes })
    }

    /// One of the two far ends gives these bytes.
    fn gives(&mut self, far: usize, bytes: &[u8]) -> bool {
        match self.pipes.get_mut(far) {
            Some(pipes) => pipes.answers.write_all(bytes).is_ok(),
            None => false,
        }
    }

    /// Whether a block is stored at one of the two, and it gets that very request.
    fn stores(&mut self, far: usize, object: u64, stripe: u32) -> bool {
        let (Some(number), Some(pipes)) = (FAR.get(far), self.pipes.get_mut(far)) else {
            return false;
        };
        match self.devices.providers.get_mut(*number) {
            Some(provider) => stores(provider, object, stripe)
                && reads(
                    &mut pipes.requests,
                    &store(object, stripe, symbol(object, stripe)),
                ),
            None => false,
        }
    }

    /// Whether the blocks up to a stripe are stored so.
    fn stores_up_to(&mut self, far: usize, object: u64, stripes: u32) -> bool {
        for stripe in 0..stripes {
            if !self.stores(far, object, stripe) {
                return false;
            }
        }
        true
    }
}

/// The symbol of a block.
fn symbol(object: u64, stripe: u32) -> u64 {
    object.wrapping_mul(1000).wrapping_add(stripe.into())
}

fn stores<P: Provider>(provider: &mut P, object: u64, stripe: u32) -> bool {
    let block = [Symbol(symbol(object, stripe).into())];
    provider.store(object, stripe, &block).is_ok()
}

/// The block that is fetched, if it is there.
fn fetched<P: Provider>(provider: &mut P, object: u64, stripe: u32) -> Option<u128> {
    let mut out = [Symbol(0)];
    match provider.fetch(object, stripe, &mut out) {
        Ok(true) => {
            let symbol = out[0];
            Some(symbol.0)
        }
        _ => None,
    }
}

fn writes<D: Disk>(disk: &mut D) -> Result<(), WriteFault> {
    disk.write_at(0, b"abc")
}

/// Writes no bytes.
fn tells<K: Sink>(sink: &mut K) -> Result<usize, WriteFault> {
    sink.write(b"")
}

/// Whether a reader gives these bytes next, at most 112.
fn reads<F: Read>(reader: &mut F, wanted: &[u8]) -> bool {
    let mut out = [0; 120];
    match reader.read(&mut out) {
        Ok(count) => out.get(..count) == Some(wanted),
        Err(_) => false,
    }
}

/// Whether each far end gets what is stored with it, under its own object and stripe, and what is written comes
/// behind a yes to each.
fn sends_as_stored(rt: &HostRuntime, alloc: Global) -> Option<bool> {
    let mut home = Home::new(rt, alloc, "sends")?;
    let given = home.gives(0, &[1; 303]) && home.gives(1, &[1; 4]);
    let stored = home.stores_up_to(0, 7, 300)
        && home.stores_up_to(0, 8, 3)
        && home.stores_up_to(1, 7, 3)
        && home.stores(1, u64::MAX, u32::MAX);
    let written = writes(&mut home.devices.disk) == Ok(())
        && tells(&mut home.devices.sink) == Ok(0);
    let right = given && stored && written && told(&mut home.devices, true).is_none();
    let journal = fs::read(rt, "sends/journal").ok()?;
    fs::remove_dir_all(rt, "sends").ok()?;
    Some(right && journal.as_slice() == b"abc".as_slice())
}

#[test]
fn a_far_end_gets_each_block_under_its_own_number(rt: HostRuntime) {
    assert_eq!(rt; sends_as_stored(&rt, rt.alloc()), Some(true));
}

/// What a far end says to ten stores: to each yes, or to the last something else.
const YES: &[u8] = &[1; 10];

const FAULT: &[u8] = &[1, 1, 1, 1, 1, 1, 1, 1, 1, 2];

const NO_MEMORY: &[u8] = &[1, 1, 1, 1, 1, 1, 1, 1, 1, 3];

const NOTHING: &[u8] = &[1; 9];

/// What both say, and the provider that is told.
type Late = (&'static [u8], &'static [u8], u8);

static LATE: [Late; 7] = [
    (YES, FAULT, 15),
    (FAULT, YES, 2),
    (YES, NO_MEMORY, 15),
    (NO_MEMORY, YES, 2),
    (YES, NOTHING, 15),
    (NOTHING, YES, 2),
    (NOTHING, FAULT, 2),
];

/// The provider for which the barrier is not passed, if any: once more where a command did all.
fn told(devices: &mut Devices, did_all: bool) -> Option<u8> {
    if did_all {
        devices.barrier.pass().err()
    } else {
        devices.barrier.failed()
    }
}

/// Whether nothing is told and recorded.
fn is_stopped(devices: &mut Devices) -> bool {
    tells(&mut devices.sink) == Err(WriteFault::Failed)
        && writes(&mut devices.disk) == Err(WriteFault::Failed)
}

/// Ten blocks are stored at both, who say what they say and go; tells the devices then, if all were stored.
fn stored_at_both(rt: &HostRuntime, alloc: Global, late: Late) -> Option<(Devices, [Ends; 2])> {
    let mut home = Home::new(rt, alloc, "late")?;
    let given = home.gives(0, late.0) && home.gives(1, late.1);
    let stored = home.stores_up_to(0, 7, 10) && home.stores_up_to(1, 7, 10);
    let Home { devices, pipes } = home;
    let [first, second] = pipes;
    if given && stored {
        Some((devices, [first.own(), second.own()]))
    } else {
        None
    }
}

/// Whether a late answer keeps back what comes behind it, from then on, and its provider is told at the end of a
/// command; where that did all, also if nothing came behind.
fn keeps_back(rt: &HostRuntime, alloc: Global, late: Late, did_all: bool) -> Option<bool> {
    let (mut devices, _ends) = stored_at_both(rt, alloc, late)?;
    let stopped = did_all || (is_stopped(&mut devices) && is_stopped(&mut devices));
    let named = told(&mut devices, did_all) == Some(late.2);
    let recorded = fs::exists(rt, "late/journal").ok()?;
    fs::remove_dir_all(rt, "late").ok()?;
    Some(stopped && named && !recorded)
}

/// The first of these that keeps nothing back.
fn first_passed(rt: &HostRuntime, alloc: Global) -> Option<usize> {
    for place in 0..LATE.len() {
        let right = keeps_back(rt, alloc, LATE[place], false) == Some(true)
            && keeps_back(rt, alloc, LATE[place], true) == Some(true);
        if !right {
            return Some(place);
        }
    }
    None
}

#[test]
fn nothing_comes_behind_a_late_no(rt: HostRuntime) {
    assert_eq!(rt; first_passed(&rt, rt.alloc()), None);
}

/// Puts one piece behind another.
fn put(out: &mut [u8], at: usize, piece: &[u8]) -> Option<()> {
    let end = at.checked_add(piece.len())?;
    out.get_mut(at..end)?.copy_from_slice(piece);
    Some(())
}

/// The fetches of the first eight blocks of an object.
fn eight_fetches(object: u64) -> [u8; 112] {
    let mut all = [0; 112];
    for stripe in 0..8u32 {
        let _ = put(&mut all, 14 * stripe as usize, &fetch(object, stripe));
    }
    all
}

/// What gives eight blocks, of this symbol and those behind it.
fn eight_blocks(symbol: u64) -> [u8; 136] {
    let mut all = [0; 136];
    for k in 0..8u8 {
        let _ = put(
            &mut all,
            17 * usize::from(k),
            &found(symbol.wrapping_add(k.into())),
        );
    }
    all
}

impl Home {
    /// Whether one of the two gives this block.
    fn has(&mut self, far: usize, stripe: u32, symbol: u128) -> bool {
        match FAR.get(far) {
            Some(number) => match self.devices.providers.get_mut(*number) {
                Some(provider) => fetched(provider, 7, stripe) == Some(symbol),
                None => false,
            },
            None => false,
        }
    }

    /// Whether one of the two got these requests, in one piece.
    fn got(&mut self, far: usize, requests: &[u8]) -> bool {
        match self.pipes.get_mut(far) {
            Some(pipes) => reads(&mut pipes.requests, requests),
            None => false,
        }
    }
}

/// Whether a fetch goes to both far ends, each answers for itself, and a block that came ahead is not given behind a
/// store.
fn fetches_from_both(rt: &HostRuntime, alloc: Global) -> Option<bool> {
    let mut home = Home::new(rt, alloc, "both")?;
    let given = home.gives(0, &eight_blocks(100)) && home.gives(1, &eight_blocks(200));
    let first = home.has(0, 0, 100)
        && home.got(0, &eight_fetches(7))
        && home.got(1, &eight_fetches(7));
    let own = home.has(1, 0, 200) && home.has(1, 1, 201) && home.has(0, 1, 101);
    let stored = home.gives(0, &[1]) && home.gives(0, &eight_blocks(300)) && home.stores(0, 7, 2);
    let behind = home.has(0, 2, 300) && home.has(1, 2, 202);
    fs::remove_dir_all(rt, "both").ok()?;
    Some(given && first && own && stored && behind)
}

#[test]
fn far_ends_are_asked_at_the_same_time(rt: HostRuntime) {
    assert_eq!(rt; fetches_from_both(&rt, rt.alloc()), Some(true));
}
