use crate::given::no_other;
use device_fixtures::calls::Call::{self, Alter, Fetch, Lacks, Lose, Remove, Store};
use device_fixtures::calls::is_right_tampered;
use device_fixtures::disk_calls::DiskCall::{self, Len, Sync, Write};
use device_fixtures::files::Look;
use disk_model::Disk;
use hail_adapters::transfer::{fill, write_some};
use hail_adapters::*;
use provider_model::{StoreFault, Tamper};
use std::alloc::{Alloc, Global};
use std::fmt::Display;
use std::fs::Files;
use std::io;
use std::io::{ErrorKind, Print, Read};
use stream_model::{Failed, WriteFault};

/// A call of a disk, or a look at the files.
#[derive(Clone, Copy)]
enum OfDisk {
    Calls(DiskCall),
    Looks(Look),
}

/// The place of the first of these that comes to something else, or none.
fn first_wrong_of_disk<R: Files + Alloc + Clone + Drop, D: Disk>(
    rt: &R,
    disk: &mut D,
    deeds: &[OfDisk],
) -> Option<usize> {
    for place in 0..deeds.len() {
        let right = match &deeds[place] {
            OfDisk::Calls(call) => call.is_right(disk),
            OfDisk::Looks(look) => look.is_right(rt),
        };
        if !right {
            return Some(place);
        }
    }
    None
}

/// The same over the file at a path; want of memory is told behind the last.
fn over_file<R: Files + Alloc + Clone + Drop>(
    rt: &R,
    alloc: Global,
    path: &str,
    deeds: &[OfDisk],
) -> Option<usize> {
    match FileDisk::new(rt, alloc, path) {
        Ok(mut disk) => first_wrong_of_disk(rt, &mut disk, deeds),
        Err(_) => Some(deeds.len()),
    }
}

const NINES: &[u8] = &[9; 8];

static FIRST_OPENED: [OfDisk; 11] = [
    OfDisk::Calls(Len(Ok(0))),
    OfDisk::Calls(DiskCall::Read(0, NINES, Ok(0), NINES)),
    OfDisk::Calls(Sync(Ok(()))),
    OfDisk::Looks(Look::IsFile("journal", false)),
    OfDisk::Calls(Write(2, b"abcd", Ok(()))),
    OfDisk::Calls(Write(3, b"x", Ok(()))),
    OfDisk::Calls(Len(Ok(6))),
    OfDisk::Calls(DiskCall::Read(1, NINES, Ok(5), b"\0axcd\x09\x09\x09")),
    OfDisk::Calls(DiskCall::Read(7, NINES, Ok(0), NINES)),
    OfDisk::Calls(Write(8, b"", Ok(()))),
    OfDisk::Calls(Sync(Ok(()))),
];

static OPENED_AGAIN: [OfDisk; 4] = [
    OfDisk::Calls(Sync(Ok(()))),
    OfDisk::Calls(DiskCall::Read(0, NINES, Ok(8), b"\0\0axcd\0\0")),
    OfDisk::Looks(Look::Mode("journal", 0o600)),
    OfDisk::Looks(Look::RemoveFile("journal")),
];

static NOWHERE: [OfDisk; 2] = [
    OfDisk::Calls(Len(Ok(0))),
    OfDisk::Calls(Write(0, b"a", Err(WriteFault::Failed))),
];

#[test]
fn a_file_is_a_disk(rt: HostRuntime) {
    no_other(&rt, over_file(&rt, rt.alloc(), "journal", &FIRST_OPENED));
    no_other(&rt, over_file(&rt, rt.alloc(), "journal", &OPENED_AGAIN));
    no_other(&rt, over_file(&rt, rt.alloc(), "nowhere/journal", &NOWHERE));
}

/// A call of a provider, or a look at the files.
#[derive(Clone, Copy)]
pub enum OfProvider {
    Calls(Call),
    Looks(Look),
}

/// The place of the first of these that comes to something else, or none.
pub fn first_wrong_of_provider<R: Files + Alloc + Clone + Drop, P: Tamper>(
    rt: &R,
    provider: &mut P,
    deeds: &[OfProvider],
) -> Option<usize> {
    for place in 0..deeds.len() {
        let right = match &deeds[place] {
            OfProvider::Calls(call) => is_right_tampered(provider, call),
            OfProvider::Looks(look) => look.is_right(rt),
        };
        if !right {
            return Some(place);
        }
    }
    None
}

/// The same over the folder at a path; want of memory is told behind the last.
pub fn over_folder<R: Files + Alloc + Clone + Drop>(
    rt: &R,
    alloc: Global,
    path: &str,
    deeds: &[OfProvider],
) -> Option<usize> {
    match FolderProvider::new(rt, alloc, path) {
        Ok(mut provider) => first_wrong_of_provider(rt, &mut provider, deeds),
        Err(_) => Some(deeds.len()),
    }
}

/// The same over the folder at a path as a stack.
pub fn over_stack<R: Files + Alloc + Clone + Drop>(
    rt: &R,
    alloc: Global,
    path: &str,
    deeds: &[OfProvider],
) -> Option<usize> {
    match FolderProvider::stacked(rt, alloc, path) {
        Ok(mut provider) => first_wrong_of_provider(rt, &mut provider, deeds),
        Err(_) => Some(deeds.len()),
    }
}

/// The same over the folder in both forms, one behind the other; the last deed removes it.
pub fn over_both<R: Files + Alloc + Clone + Drop>(
    rt: &R,
    alloc: Global,
    path: &str,
    deeds: &[OfProvider],
) -> Option<usize> {
    match over_folder(rt, alloc, path, deeds) {
        None => over_stack(rt, alloc, path, deeds),
        wrong => wrong,
    }
}

const OWN: &[u128] = &[513, 1 << 127];

const FIRST: &[u128] = &[513];

const NINE: &[u128] = &[513, 9];

const FIVE: &[u128] = &[513, 5];

/// What is to be fetched into before it is: one symbol, and two.
const ROOM: &[u128] = &[0];

const WIDE_ROOM: &[u128] = &[0, 0];

const ONE: &[u128] = &[1];

const TWO: &[u128] = &[2];

const THREE: &[u128] = &[3];

/// Bytes of a file that is no block.
const ODD: &[u8] = &[0; 17];

/// The bytes of that block.
const BYTES: &[u8] = &[
    1, 2, 0, 0, 0, 0, 0, 0, 0, 0, 0, 0, 0, 0, 0, 0, 0, 0, 0, 0, 0, 0, 0, 0, 0, 0, 0, 0, 0, 0, 0,
    128,
];

static FILES: [OfProvider; 13] = [
    OfProvider::Calls(Lacks(7, 12, 2)),
    OfProvider::Looks(Look::IsThere("blocks", false)),
    OfProvider::Calls(Store(7, 12, OWN, Ok(()))),
    OfProvider::Looks(Look::Bytes("blocks/7-12", BYTES)),
    OfProvider::Looks(Look::Mode("blocks", 0o700)),
    OfProvider::Looks(Look::Mode("blocks/7-12", 0o600)),
    OfProvider::Calls(Lacks(7, 12, 1)),
    OfProvider::Calls(Lacks(7, 12, 3)),
    OfProvider::Calls(Fetch(7, 12, WIDE_ROOM, Ok(true), OWN)),
    OfProvider::Calls(Store(7, 12, FIRST, Ok(()))),
    OfProvider::Calls(Fetch(7, 12, ROOM, Ok(true), FIRST)),
    OfProvider::Calls(Remove(7, Ok(()))),
    OfProvider::Looks(Look::RemoveFolder("blocks")),
];

#[test]
fn blocks_are_files(rt: HostRuntime) {
    no_other(&rt, over_folder(&rt, rt.alloc(), "blocks", &FILES));
}

static ALTERED: [OfProvider; 14] = [
    OfProvider::Calls(Store(7, 12, NINE, Ok(()))),
    OfProvider::Calls(Alter(7, 12, 1, 5, true)),
    OfProvider::Calls(Alter(7, 12, 2, 5, false)),
    OfProvider::Calls(Alter(7, 11, 0, 5, false)),
    OfProvider::Calls(Fetch(7, 12, WIDE_ROOM, Ok(true), FIVE)),
    OfProvider::Looks(Look::Write("altered/7-13", ODD)),
    OfProvider::Calls(Lacks(7, 13, 1)),
    OfProvider::Calls(Alter(7, 13, 0, 5, false)),
    OfProvider::Calls(Lose(7, 13, false)),
    OfProvider::Calls(Lose(7, 12, true)),
    OfProvider::Calls(Lose(7, 12, false)),
    OfProvider::Calls(Lacks(7, 12, 2)),
    OfProvider::Calls(Remove(7, Ok(()))),
    OfProvider::Looks(Look::RemoveFolder("altered")),
];

#[test]
fn blocks_are_altered_and_lost(rt: HostRuntime) {
    no_other(&rt, over_folder(&rt, rt.alloc(), "altered", &ALTERED));
}

// A hole of 15 stripes hides nothing; an entry that is no file is a fault, behind which the removal goes on.
static REMOVED: [OfProvider; 12] = [
    OfProvider::Calls(Remove(7, Ok(()))),
    OfProvider::Calls(Store(7, 0, ONE, Ok(()))),
    OfProvider::Calls(Store(7, 16, ONE, Ok(()))),
    OfProvider::Calls(Store(u64::MAX, 0, ONE, Ok(()))),
    OfProvider::Looks(Look::Folder("removed/7-9")),
    OfProvider::Looks(Look::Write("removed/7-00", b"")),
    OfProvider::Looks(Look::Write("removed/77-1", b"")),
    OfProvider::Looks(Look::Write("removed/7-+1", b"")),
    OfProvider::Calls(Remove(7, Err(Failed))),
    OfProvider::Looks(Look::Names("removed", 5)),
    OfProvider::Calls(Remove(u64::MAX, Ok(()))),
    OfProvider::Looks(Look::RemoveAll("removed")),
];

#[test]
fn only_blocks_of_the_object_are_removed(rt: HostRuntime) {
    no_other(&rt, over_folder(&rt, rt.alloc(), "removed", &REMOVED));
}

// A link is not followed, and a store puts a block in its place, and in that of what a cut store left, but
// not in that of a folder with something in it. A folder that is a file holds nothing.
static LINKED: [OfProvider; 12] = [
    OfProvider::Calls(Store(1, 0, ONE, Ok(()))),
    OfProvider::Looks(Look::Link("1-0", "linked/2-0")),
    OfProvider::Looks(Look::Link("1-0", "linked/new")),
    OfProvider::Calls(Lacks(2, 0, 1)),
    OfProvider::Calls(Alter(2, 0, 0, 5, false)),
    OfProvider::Calls(Lose(2, 0, false)),
    OfProvider::Calls(Store(2, 0, TWO, Ok(()))),
    OfProvider::Looks(Look::IsFile("linked/2-0", true)),
    OfProvider::Calls(Fetch(1, 0, ROOM, Ok(true), ONE)),
    OfProvider::Looks(Look::Folder("linked/3-0")),
    OfProvider::Looks(Look::Write("linked/3-0/kept", b"")),
    OfProvider::Calls(Store(3, 0, THREE, Err(StoreFault::Failed))),
];

static DISK_OF_A_FOLDER: [OfDisk; 2] = [
    OfDisk::Calls(Len(Err(Failed))),
    OfDisk::Calls(Write(0, b"a", Err(WriteFault::Failed))),
];

static WITHIN_A_FILE: [OfProvider; 4] = [
    OfProvider::Calls(Store(1, 0, ONE, Err(StoreFault::Failed))),
    OfProvider::Calls(Lacks(1, 0, 1)),
    OfProvider::Calls(Remove(1, Ok(()))),
    OfProvider::Looks(Look::RemoveAll("linked")),
];

#[test]
fn only_plain_files_are_blocks(rt: HostRuntime) {
    let alloc = rt.alloc();
    no_other(&rt, over_folder(&rt, alloc, "linked", &LINKED));
    no_other(&rt, over_file(&rt, alloc, "linked/3-0", &DISK_OF_A_FOLDER));
    no_other(&rt, over_folder(&rt, alloc, "linked/1-0", &WITHIN_A_FILE));
}

// Is cut off at its first call, gives one byte at the next two, and fails at the fourth.
#[derive(Drop)]
struct ShortReads(u8);

impl Read for ShortReads {
    fn read(&mut self, buf: &mut [u8]) -> io::Result<usize> {
        self.0 = self.0.saturating_add(1);
        match self.0 {
            1 => Err(ErrorKind::Interrupted.into()),
            2 | 3 if !buf.is_empty() => {
                buf[0] = self.0;
                Ok(1)
            }
            _ => Err(ErrorKind::Other.into()),
        }
    }
}

// Takes nothing.
#[derive(Drop)]
struct Full;

impl Print for Full {
    fn print<D: Display + Drop>(&self, _value: D) -> io::Result<()> {
        Ok(())
    }

    fn println<D: Display + Drop>(&self, _value: D) -> io::Result<()> {
        Ok(())
    }

    fn write_all(&self, _bytes: &[u8]) -> io::Result<()> {
        Ok(())
    }

    fn write_some(&self, _bytes: &[u8]) -> io::Result<usize> {
        Ok(0)
    }
}

// The first bytes that are read into room for so many; none where the read fails.
fn filled<const N: usize>() -> Option<[u8; N]> {
    let mut out = [0; N];
    fill(&mut ShortReads(0), &mut out).ok()?;
    Some(out)
}

#[test]
fn a_signal_is_no_fault_and_nothing_taken_is_one(rt: HostRuntime) {
    assert!(rt; filled() == Some([2, 3]) && filled::<3>().is_none());
    assert!(rt; write_some(&Full, b"a").is_err() && write_some(&Full, b"").is_ok());
}
