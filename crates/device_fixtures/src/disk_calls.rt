// Calls of a disk and what they are to answer, each made through a function with no clause.
use disk_model::Disk;
use record_defs::LARGEST_JOURNAL;
use stream_model::{Failed, WriteFault};

/// A call of a disk, and what it is to answer. The first number is the offset.
#[derive(Clone, Copy)]
pub enum DiskCall {
    Len(Result<u64, Failed>),
    /// Bytes are read into these, at most eight; where the read does not fail they are the last ones then.
    Read(u64, &'static [u8], Result<usize, Failed>, &'static [u8]),
    Write(u64, &'static [u8], Result<(), WriteFault>),
    Sync(Result<(), Failed>),
    /// A stop, with these picks.
    Stop(&'static [u8]),
}

fn len<D: Disk>(disk: &mut D) -> Result<u64, Failed> {
    disk.len()
}

fn read<D: Disk>(disk: &mut D, at: u64, out: &mut [u8]) -> Result<usize, Failed> {
    disk.read_at(at, out)
}

/// Whether a read into some bytes answers so, and they are these then.
fn reads<D: Disk>(
    disk: &mut D,
    at: u64,
    room: &[u8],
    given: Result<usize, Failed>,
    wanted: &[u8],
) -> bool {
    let mut all = [0; 8];
    match all.get_mut(..room.len()) {
        Some(out) => {
            out.copy_from_slice(room);
            read(disk, at, out) == given && (given.is_err() || *out == *wanted)
        }
        None => false,
    }
}

/// Writes within the most bytes of a disk.
fn write<D: Disk>(disk: &mut D, at: u64, bytes: &[u8]) -> Option<Result<(), WriteFault>> {
    if at > LARGEST_JOURNAL || bytes.len() as u64 > LARGEST_JOURNAL - at {
        return None;
    }
    Some(disk.write_at(at, bytes))
}

fn sync<D: Disk>(disk: &mut D) -> Result<(), Failed> {
    disk.sync()
}

fn stop<D: Disk>(disk: &mut D, picks: &[u8]) {
    disk.stop(picks);
}

impl DiskCall {
    /// Whether the call is answered as it is to be.
    pub fn is_right<D: Disk>(&self, disk: &mut D) -> bool {
        match *self {
            DiskCall::Len(wanted) => len(disk) == wanted,
            DiskCall::Read(at, room, given, wanted) => reads(disk, at, room, given, wanted),
            DiskCall::Write(at, bytes, wanted) => write(disk, at, bytes) == Some(wanted),
            DiskCall::Sync(wanted) => sync(disk) == wanted,
            DiskCall::Stop(picks) => {
                stop(disk, picks);
                true
            }
        }
    }
}

/// The place of the first of these calls that is answered otherwise, or none.
pub fn first_wrong<D: Disk>(disk: &mut D, calls: &[DiskCall]) -> Option<usize> {
    for place in 0..calls.len() {
        if !calls[place].is_right(disk) {
            return Some(place);
        }
    }
    None
}
