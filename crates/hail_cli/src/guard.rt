// What stands between a home and other programs: streams that are open, and a lock.
use program_words::only_reads;
use std::fs::{self, File};
use std::io::{self, ErrorKind};
use std::os::unix::io::AsRawFd;

/// The descriptors of the standard streams come before this one.
const FIRST_FREE: i32 = 3;

/// Descriptors that stand in for standard streams which came closed.
#[derive(Drop)]
pub struct HeldStreams {
    held: [Option<File>; 3],
}

/// Opens a folder that is there always. Neither a read nor a write of it is done, so a stream that came
/// closed fails.
fn stand_in(rt: &HostRuntime) -> io::Result<Option<File>> {
    let file = fs::open(rt, "/")?;
    Ok(if file.as_raw_fd() < FIRST_FREE {
        Some(file)
    } else {
        None
    })
}

/// Holds each standard stream that came closed, so that no file of the home gets its descriptor. A read of
/// standard input and a write to standard output then fail.
pub fn hold_streams(rt: &HostRuntime) -> io::Result<HeldStreams> {
    Ok(HeldStreams {
        held: [stand_in(rt)?, stand_in(rt)?, stand_in(rt)?],
    })
}

/// Takes the turn among those that wait for the home, until the file is dropped: an exclusive lock on its
/// journal, which nothing else locks. None where no plain file is there, such as a link, or it can't be
/// locked: the turn says who waits first, and keeps nobody out.
fn take_turn(rt: &HostRuntime, home: &str) -> Option<File> {
    let path = format!(in rt.alloc(); "{home}/journal").ok()?;
    if !fs::symlink_metadata(rt, &path).ok()?.is_file() {
        return None;
    }
    let file = fs::open(rt, &path).ok()?;
    file.lock().ok()?;
    Some(file)
}

/// Waits until no other program is at work in the home, and keeps others out until the file is dropped: a
/// command that only reads keeps out those that write. Who waits has the turn, so that commands that come
/// later, and only read, don't go before one that writes. A home that is no folder needs no lock, since
/// nothing can be stored in it.
pub fn lock_home(rt: &HostRuntime, home: &str, words: &[String]) -> io::Result<Option<File>> {
    let folder = format!(in rt.alloc(); "{home}/")?;
    match fs::open(rt, &folder) {
        Ok(file) => {
            let _turn = take_turn(rt, home);
            if only_reads(words) {
                file.lock_shared()?;
            } else {
                file.lock()?;
            }
            Ok(Some(file))
        }
        Err(error) if matches!(error.kind(), ErrorKind::NotFound | ErrorKind::NotADirectory) => {
            Ok(None)
        }
        Err(error) => Err(error),
    }
}
