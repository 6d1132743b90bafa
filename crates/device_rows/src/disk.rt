use crate::given::no_other;
use device_fixtures::disk_calls::DiskCall::{self, Len, Read, Stop, Sync, Write};
use device_fixtures::disk_calls::first_wrong;
use device_fixtures::given::or_behind;
use disk_model::*;
use std::alloc::Global;
use stream_model::{Failed, WriteFault};

/// Whether the front of a disk is these bytes.
fn has_front<D: Disk>(alloc: Global, disk: &mut D, bytes: &[u8]) -> bool {
    match read_front(alloc, disk) {
        Ok(front) => front.as_slice() == bytes,
        Err(_) => false,
    }
}

/// Whether a disk in memory has these bytes.
fn has_bytes(disk: &MemDisk, bytes: &[u8]) -> bool {
    disk.bytes() == bytes
}

/// The first of these calls that is answered otherwise by a disk in memory. Where all go right and the disk
/// then has other bytes, or gives others as its front, that is told behind the last.
fn first_other(
    alloc: Global,
    disk: &mut MemDisk,
    calls: &[DiskCall],
    wanted: &[u8],
) -> Option<usize> {
    let wrong = first_wrong(disk, calls);
    let is_right = has_bytes(disk, wanted) && has_front(alloc, disk, wanted);
    or_behind(wrong, calls.len(), is_right)
}

/// The same by one of some bytes whose listed calls fail.
fn by_memory(
    alloc: Global,
    bytes: &[u8],
    fails: &[u64],
    calls: &[DiskCall],
    wanted: &[u8],
) -> Option<usize> {
    match MemDisk::new(alloc, bytes, fails) {
        Ok(mut disk) => first_other(alloc, &mut disk, calls, wanted),
        Err(_) => Some(calls.len()),
    }
}

/// The same by a disk that never fails, whose front is not read.
fn first_other_of_sure(disk: &mut SureDisk, calls: &[DiskCall], wanted: &[u8]) -> Option<usize> {
    let wrong = first_wrong(disk, calls);
    or_behind(wrong, calls.len(), disk.bytes() == wanted)
}

/// The same by one of some bytes.
fn by_sure(alloc: Global, bytes: &[u8], calls: &[DiskCall], wanted: &[u8]) -> Option<usize> {
    match SureDisk::new(alloc, bytes) {
        Ok(mut disk) => first_other_of_sure(&mut disk, calls, wanted),
        Err(_) => Some(calls.len()),
    }
}

static STOPPED: [DiskCall; 2] = [Write(2, b"\x01\x02", Ok(())), Stop(b"\xff")];

#[test]
fn a_stop_leaves_what_is_picked(rt: HostRuntime) {
    let other = by_memory(rt.alloc(), &[7, 8, 9], &[], &STOPPED, &[7, 8, 255, 2]);
    no_other(&rt, other);
}

static SYNCED: [DiskCall; 3] = [
    Write(3, b"\x01", Ok(())),
    Sync(Ok(())),
    Write(0, b"\x06\x05", Ok(())),
];

static SYNCED_AND_STOPPED: [DiskCall; 4] = [
    Write(3, b"\x01", Ok(())),
    Sync(Ok(())),
    Write(0, b"\x06\x05", Ok(())),
    Stop(b"\x01\x02\x03\x04"),
];

#[test]
fn a_stop_leaves_what_is_synced(rt: HostRuntime) {
    no_other(&rt, by_sure(rt.alloc(), &[7], &SYNCED, &[6, 5, 0, 1]));
    no_other(
        &rt,
        by_sure(rt.alloc(), &[7], &SYNCED_AND_STOPPED, &[1, 2, 0, 1]),
    );
}

static FAILING: [DiskCall; 6] = [
    Write(1, b"\x01\x02\x03\x04", Err(WriteFault::Failed)),
    Len(Ok(3)),
    Sync(Err(Failed)),
    Read(1, b"\0\0\0\0", Err(Failed), b""),
    Read(1, b"\0\0\0\0", Ok(2), b"\x01\x02\0\0"),
    Stop(b"\x05\x06"),
];

#[test]
fn listed_calls_fail(rt: HostRuntime) {
    let other = by_memory(rt.alloc(), &[7, 8, 9], &[0, 2, 3], &FAILING, &[7, 5, 6]);
    no_other(&rt, other);
}
