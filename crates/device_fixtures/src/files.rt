// Files and folders below the test's own folder.
use std::alloc::Alloc;
use std::fs::{self, Files, OpenFile, OpenOptions};
use std::io::{Seek, SeekFrom, Write};
use std::os::unix::fs::{PermissionsExt, symlink};

/// Something that is done to files and folders or seen of them, by their paths; what is done succeeds.
#[derive(Clone, Copy)]
pub enum Look {
    /// Whether something is there.
    IsThere(&'static str, bool),
    /// Whether a file is there that is no link.
    IsFile(&'static str, bool),
    /// The rights.
    Mode(&'static str, u32),
    /// The bytes of a file.
    Bytes(&'static str, &'static [u8]),
    /// How many names a folder has.
    Names(&'static str, usize),
    /// A file is written.
    Write(&'static str, &'static [u8]),
    /// Bytes of a file are written over, from an offset on.
    Over(&'static str, u64, &'static [u8]),
    /// A file is cut to a length.
    Cut(&'static str, u64),
    /// A folder is made.
    Folder(&'static str),
    /// A link to the first is made at the second.
    Link(&'static str, &'static str),
    /// A file is removed.
    RemoveFile(&'static str),
    /// An empty folder is removed.
    RemoveFolder(&'static str),
    /// A folder is removed with what is in it.
    RemoveAll(&'static str),
}

fn is_there<R: Files>(rt: &R, path: &str) -> Option<bool> {
    fs::exists(rt, path).ok()
}

fn is_file<R: Files>(rt: &R, path: &str) -> bool {
    match fs::symlink_metadata(rt, path) {
        Ok(metadata) => metadata.is_file(),
        Err(_) => false,
    }
}

fn mode<R: Files>(rt: &R, path: &str) -> Option<u32> {
    let metadata = fs::metadata(rt, path).ok()?;
    Some(metadata.permissions().mode() % 512)
}

fn has_bytes<R: Files + Alloc>(rt: &R, path: &str, bytes: &[u8]) -> bool {
    match fs::read(rt, path) {
        Ok(read) => read.as_slice() == bytes,
        Err(_) => false,
    }
}

fn names<R: Files + Alloc + Clone + Drop>(rt: &R, path: &str) -> Option<usize> {
    let names = fs::read_dir(rt, path).ok()?;
    Some(names.count())
}

fn write<R: Files>(rt: &R, path: &str, bytes: &[u8]) -> bool {
    fs::write(rt, path, bytes).is_ok()
}

/// Opens a file to change it.
fn to_change<R: Files>(rt: &R, path: &str) -> Option<R::File> {
    let mut how = OpenOptions::new();
    how.write(true);
    how.open(rt, path).ok()
}

fn write_over<R: Files>(rt: &R, path: &str, at: u64, bytes: &[u8]) -> Option<()> {
    let mut file = to_change(rt, path)?;
    file.seek(SeekFrom::Start(at)).ok()?;
    file.write_all(bytes).ok()
}

fn cut<R: Files>(rt: &R, path: &str, len: u64) -> Option<()> {
    to_change(rt, path)?.set_len(len).ok()
}

fn make_folder<R: Files>(rt: &R, path: &str) -> bool {
    fs::create_dir(rt, path).is_ok()
}

fn link<R: Files>(rt: &R, to: &str, path: &str) -> bool {
    symlink(rt, to, path).is_ok()
}

fn remove_file<R: Files>(rt: &R, path: &str) -> bool {
    fs::remove_file(rt, path).is_ok()
}

fn remove_folder<R: Files>(rt: &R, path: &str) -> bool {
    fs::remove_dir(rt, path).is_ok()
}

fn remove_all<R: Files + Alloc>(rt: &R, path: &str) -> bool {
    fs::remove_dir_all(rt, path).is_ok()
}

impl Look {
    /// Whether it is so, or is done.
    pub fn is_right<R: Files + Alloc + Clone + Drop>(&self, rt: &R) -> bool {
        match *self {
            Look::IsThere(path, wanted) => is_there(rt, path) == Some(wanted),
            Look::IsFile(path, wanted) => is_file(rt, path) == wanted,
            Look::Mode(path, wanted) => mode(rt, path) == Some(wanted),
            Look::Bytes(path, wanted) => has_bytes(rt, path, wanted),
            Look::Names(path, wanted) => names(rt, path) == Some(wanted),
            Look::Write(path, bytes) => write(rt, path, bytes),
            Look::Over(path, at, bytes) => write_over(rt, path, at, bytes).is_some(),
            Look::Cut(path, len) => cut(rt, path, len).is_some(),
            Look::Folder(path) => make_folder(rt, path),
            Look::Link(to, path) => link(rt, to, path),
            Look::RemoveFile(path) => remove_file(rt, path),
            Look::RemoveFolder(path) => remove_folder(rt, path),
            Look::RemoveAll(path) => remove_all(rt, path),
        }
    }
}
