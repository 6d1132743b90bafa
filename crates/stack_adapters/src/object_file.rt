// The file of an object, opened by its path.
ghost use Rattle.std.specs.Prelude.{◌≡◌, ◌≤◌, ◌↔◌, length, IfOk, IfSome, IsTrue};

use file_parts::plain::open_plain;
use file_parts::slot::{
    HEADER_BYTES, Header, MARK_BYTES, are_same, judged, mark_of, place_of, size_in,
};
use file_parts::transfer::fill;
use std::fs::{Files, OpenOptions};
use std::io::{self, Read, Seek, SeekFrom};

/// How a file is opened to be read and written.
pub fn to_change() -> OpenOptions {
    let mut how = OpenOptions::new();
    how.read(true);
    how.write(true);
    how
}

/// Reads the bytes from an offset on, and says whether there were as many as fit.
pub fn reads<F: Seek + Read>(file: &mut F, at: u64, out: &mut [u8]) -> io::Result<bool>
    ensures { length out.new ≡ length out.old }
{
    file.seek(SeekFrom::Start(at))?;
    Ok(fill(file, out)? == out.len())
}

/// What a file begins with, which can be short, or not be read.
fn header_in<F: Seek + Read>(file: &mut F) -> Option<[u8; 16]> {
    let mut header = [0; HEADER_BYTES];
    match reads(file, 0, &mut header) {
        Ok(true) => Some(header),
        _ => None,
    }
}

/// What a file says at its beginning, where blocks of so many bytes are looked for.
pub fn header_says<F: Seek + Read>(file: &mut F, size: u16) -> Header {
    match header_in(file) {
        Some(header) => judged(&header, size),
        None => Header::Damaged,
    }
}

/// Whether a file of blocks of so many bytes has that of a stripe, by what stands behind it.
pub fn has_mark<F: Seek + Read>(file: &mut F, stripe: u32, size: u16) -> io::Result<bool> {
    let mut mark = [0; MARK_BYTES];
    let at = place_of(stripe, size) + u64::from(size);
    Ok(reads(file, at, &mut mark)? && are_same(&mark, &mark_of(stripe)))
}

/// Opens the plain file at a path, if there is one whose beginning does not say that its blocks have another
/// size.
pub fn open_object<R: Files>(
    rt: &R,
    path: &str,
    size: u16,
    how: &OpenOptions,
) -> io::Result<Option<(R::File, Header)>> {
    let Some(mut file) = open_plain(rt, path, how)? else {
        return Ok(None);
    };
    match header_says(&mut file, size) {
        Header::Other => Ok(None),
        header => Ok(Some((file, header))),
    }
}

/// Opens the plain file at a path to change it, and says of how many bytes its blocks are; none where it does
/// not say it.
pub fn open_to_change<R: Files>(rt: &R, path: &str) -> io::Result<Option<(R::File, u16)>> {
    let Some(mut file) = open_plain(rt, path, &to_change())? else {
        return Ok(None);
    };
    let Some(header) = header_in(&mut file) else {
        return Ok(None);
    };
    match size_in(&header) {
        Some(size) => Ok(Some((file, size))),
        None => Ok(None),
    }
}
