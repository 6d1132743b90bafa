// How what stores wrote to the file of an object comes to the medium.
ghost use Rattle.std.specs.Prelude.{◌≡◌, ◌≤◌, false, OnOk};

use crate::object_file::{has_mark, header_says};
use file_parts::plain::to_read;
use file_parts::slot::Header;
use file_parts::unsynced::Place;
use file_parts::written::Written;
use std::fs::{self, Files};
use std::io::{self, ErrorKind};

/// The file still stands at the path: one that was taken away, or a folder over which another was mounted, is an
/// error.
fn is_at<R: Files>(rt: &R, path: &str, file: &Written<R::File>) -> io::Result<()> {
    let own = Place::of(&file.metadata()?);
    let there = Place::of(&fs::symlink_metadata(rt, path)?);
    if own.is_like(there) {
        Ok(())
    } else {
        Err(ErrorKind::NotFound.into())
    }
}

/// The file, opened anew, says of which size its blocks are, and has the one that was written last: a file
/// system may have said yes to all, and have kept nothing.
fn is_kept<R: Files>(rt: &R, path: &str, file: &Written<R::File>) -> io::Result<()> {
    let size = file.size;
    let mut opened = to_read().open(rt, path)?;
    let kept = header_says(&mut opened, size) == Header::Right
        && match file.last {
            Some(stripe) => has_mark(&mut opened, stripe, size)?,
            None => true,
        };
    if kept {
        Ok(())
    } else {
        Err(ErrorKind::InvalidData.into())
    }
}

/// Brings to the medium what was written to the file of an object, which stands at this path.
pub fn bring<R: Files>(rt: &R, path: &str, file: &mut Written<R::File>) -> io::Result<()>
    ensures { OnOk result (file.new.is_unsynced ≡ false) }
{
    is_at(rt, path, file)?;
    file.sync()?;
    is_kept(rt, path, file)
}
