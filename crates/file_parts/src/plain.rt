// Files that are opened only where they are plain: a link is not followed, and a pipe would be waited for.
ghost use Rattle.std.specs.Prelude.{◌≡◌, ◌≢◌, ℕ, List, [], Some, true, IsTrue};
ghost use Rattle.std.specs.Path.{path_parent};
ghost use Rattle.std.specs.Fs.{new_options, with_read, with_write, asks_create, asks_create_new};

use crate::found::found;
use std::fs::{self, DirBuilder, Files, OpenFile, OpenOptions};
use std::io::{self, ErrorKind};
use std::os::unix::fs::{DirBuilderExt, OpenOptionsExt};
use std::path::Path;

/// Only the owner of a file that is made reads and writes it.
const OWN_FILE: u32 = 0o600;

/// Only the owner of a folder that is made enters it.
const OWN_FOLDER: u32 = 0o700;

/// How many bytes the plain file at a path has; none where there is none, but a link to one, say.
fn plain_len<R: Files>(rt: &R, path: &str) -> io::Result<Option<u64>> {
    match found(fs::symlink_metadata(rt, path))? {
        Some(metadata) if metadata.is_file() => Ok(Some(metadata.len())),
        _ => Ok(None),
    }
}

/// Opens a plain file; none where there is none.
pub fn open_plain<R: Files>(rt: &R, path: &str, how: &OpenOptions) -> io::Result<Option<R::File>> {
    match plain_len(rt, path)? {
        Some(_) => found(how.open(rt, path)),
        None => Ok(None),
    }
}

/// Opens a plain file of so many bytes to read it; none where there is none.
pub fn open_sized<R: Files>(rt: &R, path: &str, size: usize) -> io::Result<Option<R::File>> {
    match plain_len(rt, path)? {
        Some(len) if len == size as u64 => found(to_read().open(rt, path)),
        _ => Ok(None),
    }
}

/// Whether a file is at a path, behind links too. What stands there and is no plain file is an error.
pub fn is_there<R: Files>(rt: &R, path: &str) -> io::Result<bool> {
    match found(fs::metadata(rt, path))? {
        Some(metadata) if metadata.is_file() => Ok(true),
        Some(_) => Err(ErrorKind::InvalidInput.into()),
        None => Ok(false),
    }
}

/// How a file is opened to be read.
pub fn to_read() -> OpenOptions
    ensures { result ≡ with_read new_options true }
{
    let mut how = OpenOptions::new();
    how.read(true);
    how
}

/// How a file that is there is opened to be written.
pub fn to_write() -> OpenOptions
    ensures { result ≡ with_write new_options true }
{
    let mut how = OpenOptions::new();
    how.write(true);
    how
}

/// How a file is opened to be written, or made for its owner alone.
pub fn to_write_or_make() -> OpenOptions
    ensures { IsTrue (asks_create result) }
{
    let mut how = to_write();
    how.mode(OWN_FILE);
    how.create(true);
    how
}

/// How a file that is not there yet is made for its owner alone.
pub fn to_make() -> OpenOptions
    ensures { IsTrue (asks_create_new result) }
{
    let mut how = to_write();
    how.mode(OWN_FILE);
    how.create_new(true);
    how
}

/// Brings the names in a folder to the medium.
pub fn sync_folder<R: Files>(rt: &R, path: &str) -> io::Result<()> {
    fs::open(rt, path)?.sync_all()
}

/// The folder of a path to a file.
pub fn folder_of(path: &str) -> &str
    ensures { (folder : List ℕ) → path_parent path.now ≡ Some folder → folder ≢ [] → result.now ≡ folder }
{
    match Path::new(path).parent() {
        Some(folder) if !folder.as_str().is_empty() => folder.as_str(),
        _ => ".",
    }
}

/// Makes a folder for its owner alone, and brings its name to the medium.
pub fn make_folder<R: Files>(rt: &R, path: &str) -> io::Result<()> {
    let mut how = DirBuilder::new();
    how.mode(OWN_FOLDER);
    how.create(rt, path)?;
    sync_folder(rt, folder_of(path))
}
