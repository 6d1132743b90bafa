use crate::case::Cut;
use crate::home::Devices;
use crate::medium::{CUTS, Stays};
use crate::stand_in::StandIn;
use disk_model::Disk;
use hail_adapters::{FileDisk, FolderProvider};
use hail_field::Symbol;
use provider_model::Provider;
use std::alloc::Global;
use std::fs::{self, OpenFile};
use std::io;

/// Stores the second block of the third object.
fn stores<P: Provider>(provider: &mut P, block: &[Symbol; 2]) -> bool {
    provider.store(3, 1, block).is_ok()
}

/// The second block of the third object, or none.
fn block<P: Provider>(provider: &mut P) -> Option<[Symbol; 2]> {
    let mut out = [Symbol(0); 2];
    match provider.fetch(3, 1, &mut out) {
        Ok(true) => Some(out),
        _ => None,
    }
}

/// The block that is stored first, and the one that is stored over it.
const OLD: [Symbol; 2] = [Symbol(1), Symbol(2)];

const NEW: [Symbol; 2] = [Symbol(3), Symbol(4)];

/// A provider of the home.
fn provider(files: &StandIn, alloc: Global) -> Option<FolderProvider<StandIn>> {
    FolderProvider::new(files, alloc, "home/blocks").ok()
}

/// Whether a store was done, and another over it, cut behind so many calls that change something.
fn stores_over(files: &StandIn, alloc: Global, calls: u64) -> Option<(bool, bool)> {
    let mut provider = provider(files, alloc)?;
    let first = stores(&mut provider, &OLD);
    files.cut_after(calls);
    Some((first, stores(&mut provider, &NEW)))
}

/// The block that is found.
fn block_at(files: &StandIn, alloc: Global) -> Option<[Symbol; 2]> {
    let mut provider = provider(files, alloc)?;
    block(&mut provider)
}

/// The block that is found behind a cut.
fn block_left(files: &StandIn, alloc: Global, stays: Stays) -> Option<[Symbol; 2]> {
    let left = files.after_cut(alloc, stays).ok()?;
    block_at(&left, alloc)
}

/// Whether a store over a block, cut behind so many calls that change something, leaves one of the two, and
/// the new one where it was acknowledged.
fn leaves_one(files: &StandIn, alloc: Global, calls: u64, stays: Stays) -> Option<bool> {
    let (first, second) = stores_over(files, alloc, calls)?;
    let found = block_left(files, alloc, stays)?;
    Some(first && (found == NEW || (found == OLD && !second)))
}

/// Writes, and syncs.
fn writes_and_syncs<D: Disk>(disk: &mut D) -> (bool, bool) {
    let written = disk.write_at(0, b"abc").is_ok();
    (written, disk.sync().is_ok())
}

/// The length, if it is told.
fn len<D: Disk>(disk: &mut D) -> Option<u64> {
    disk.len().ok()
}

const STORED: [Symbol; 2] = [Symbol(5), Symbol(6)];

impl Devices {
    /// Stores a block at the provider at 3, and then writes and syncs the journal; says whether all was done.
    fn store_and_write(&mut self) -> bool {
        match self.providers.get_mut(3) {
            Some(provider) => stores(provider, &STORED)
                && writes_and_syncs(&mut self.disk) == (true, true),
            None => false,
        }
    }

    /// How long the journal is, and whether the block is there.
    fn found(&mut self) -> Option<(u64, bool)> {
        let found = block(self.providers.get_mut(3)?) == Some(STORED);
        Some((len(&mut self.disk)?, found))
    }
}

/// Whether all was stored and written where the power is cut behind so many calls that change something.
fn is_all_done(files: &StandIn, alloc: Global, calls: u64) -> Option<bool> {
    files.cut_after(calls);
    Some(Devices::new(files, alloc)?.store_and_write())
}

/// How long the journal is behind a cut, and whether the block is there.
fn found_left(files: &StandIn, alloc: Global, stays: Stays) -> Option<(u64, bool)> {
    let left = files.after_cut(alloc, stays).ok()?;
    Devices::new(&left, alloc)?.found()
}

/// Whether a journal that has something behind a cut has the block too, and both are there where all was
/// done.
fn block_is_first(files: &StandIn, alloc: Global, calls: u64, stays: Stays) -> Option<bool> {
    let all = is_all_done(files, alloc, calls)?;
    let (length, found) = found_left(files, alloc, stays)?;
    Some((length == 0 || found) && (length == 3 || !all))
}

/// What is done to the devices of a home, whose power is cut, and what is to be left.
#[derive(Clone, Copy)]
pub enum Deed {
    /// A store over a block leaves one of the two, and the new one where it was acknowledged.
    StoreOver,
    /// A store and then a write of the journal leave no journal without the block, and both where all was
    /// done.
    StoreAndWrite,
    /// The same where the provider's folder is a stack.
    StackAndWrite,
}

/// Says that the folder of the provider at 3 is a stack.
fn make_stack(files: &StandIn) -> io::Result<()> {
    fs::write(files, "home/stack-3", b"")?;
    fs::open(files, "home")?.sync_all()
}

/// Whether a deed leaves what it is to, cut behind so many calls that change something.
fn goes(files: &StandIn, alloc: Global, deed: Deed, calls: u64, stays: Stays) -> Option<bool> {
    match deed {
        Deed::StoreOver => leaves_one(files, alloc, calls, stays),
        Deed::StoreAndWrite => block_is_first(files, alloc, calls, stays),
        Deed::StackAndWrite => {
            make_stack(files).ok()?;
            block_is_first(files, alloc, calls, stays)
        }
    }
}

/// Whether it does so in a home of its own.
fn goes_right(alloc: Global, deed: Deed, calls: u64, stays: Stays) -> bool {
    match StandIn::new(alloc) {
        Ok(files) => goes(&files, alloc, deed, calls, stays) == Some(true),
        Err(_) => false,
    }
}

/// The first of `CUTS`, if any, in which it leaves something else.
fn first_wrong_stays(alloc: Global, deed: Deed, calls: u64) -> Option<usize> {
    for place in 0..CUTS.len() {
        if !goes_right(alloc, deed, calls, CUTS[place]) {
            return Some(place);
        }
    }
    None
}

/// The first cut behind fewer than so many calls at which a deed leaves something else.
pub fn first_wrong_deed(alloc: Global, deed: Deed, most: u64) -> Option<Cut> {
    for calls in 0..most {
        if let Some(place) = first_wrong_stays(alloc, deed, calls) {
            return Some((calls, place));
        }
    }
    None
}

/// Whether a disk writes and syncs before, in and behind a sync that fails, and whether its length is told
/// then.
pub type Done = ([(bool, bool); 3], bool);

/// What a disk does: the system may call the next sync behind a failed one done, with bytes that never
/// reached the medium.
fn before_in_and_behind<D: Disk>(files: &StandIn, disk: &mut D) -> Done {
    let before = writes_and_syncs(disk);
    files.cut_after(1);
    let within = writes_and_syncs(disk);
    files.cut_after(u64::MAX);
    let behind = writes_and_syncs(disk);
    ([before, within, behind], len(disk).is_some())
}

/// The same of the disk of a home.
fn done_at(files: &StandIn, alloc: Global) -> Option<Done> {
    let mut disk = FileDisk::new(files, alloc, "home/journal").ok()?;
    Some(before_in_and_behind(files, &mut disk))
}

/// What the disk of a new home does before, in and behind a sync that fails.
pub fn done_about_a_failed_sync(alloc: Global) -> Option<Done> {
    let files = StandIn::new(alloc).ok()?;
    done_at(&files, alloc)
}
