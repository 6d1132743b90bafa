ghost use Rattle.std.specs.Prelude.{◌≡◌, ◌≤◌, ◌∷◌, ◌++◌, length, string_bytes, IfOk, OnOk, IsTrue};
ghost use Rattle.std.specs.Option.{is_some};

use file_parts::transfer::read_some;
use std::alloc::Global;
use std::fs::{self, Files, OpenOptions};
use std::io::{self, ErrorKind, Write};
use stream_model::Memory;

/// What the link to an open descriptor begins with.
const DESCRIPTORS: &str = "/dev/fd/";

/// The descriptors of the standard streams come before this one.
const FIRST_FREE: u32 = 3;

/// What the system calls a pipe without a name.
const PIPE: &str = "pipe:[";

/// One end of a pipe that hail got when it was started. It is opened at its first use and then kept open.
#[derive(Drop)]
pub struct PipeEnd<R: Files + Clone + Drop> {
    folder: String,
    path: String,
    file: Option<R::File>,
}

/// Whether a path is that of a descriptor behind those of the standard streams.
fn is_free(path: &str) -> bool {
    match path.strip_prefix(DESCRIPTORS) {
        Some(number) => match number.parse::<u32>() {
            Ok(number) => number >= FIRST_FREE,
            Err(_) => false,
        },
        None => false,
    }
}

/// Whether a folder, which is no link, has at a path in it a link to a descriptor that is open on a pipe
/// without a name, and is none of the standard streams. Nothing else is opened: a named pipe would be waited
/// for, and requests would be written into a file, or among what a command writes.
fn is_pipe<R: Files>(rt: &R, alloc: Global, folder: &str, path: &str) -> io::Result<bool> {
    if !fs::symlink_metadata(rt, folder)?.is_dir() {
        return Ok(false);
    }
    let descriptor = rt.read_link(alloc, path)?;
    if !is_free(descriptor.as_str()) {
        return Ok(false);
    }
    let end = rt.read_link(alloc, descriptor.as_str())?;
    Ok(end.as_str().starts_with(PIPE))
}

impl<R: Files + Clone + Drop> PipeEnd<R> {
    /// The end that a link of this name in a folder leads to. Opens nothing; want of memory is its one
    /// refusal.
    pub fn new(alloc: Global, folder: &str, name: &str) -> Result<PipeEnd<R>, Memory>
        ensures own { IfOk result (λ end. string_bytes end.folder ≡ folder.now) }
        ensures path { IfOk result (λ end. string_bytes end.path ≡ folder.now ++ 47 ∷ name.now) }
    {
        Ok(PipeEnd {
            folder: String::from_str(alloc, folder)?,
            path: format!(in alloc; "{folder}/{name}")?,
            file: None,
        })
    }

    /// Opens the end, unless it is open.
    fn open(&mut self, rt: &R, alloc: Global, how: &OpenOptions) -> io::Result<()>
        ensures once { IsTrue (is_some self.old.file) → self.new ≡ self.old }
        ensures opened { OnOk result (IsTrue (is_some self.new.file)) }
    {
        if self.file.is_some() {
            return Ok(());
        }
        if !is_pipe(rt, alloc, &self.folder, &self.path)? {
            return Err(ErrorKind::InvalidInput.into());
        }
        self.file = Some(how.open(rt, &self.path)?);
        Ok(())
    }

    /// Writes all the bytes.
    pub fn write(&mut self, rt: &R, alloc: Global, bytes: &[u8]) -> io::Result<()>
        ensures { OnOk result (IsTrue (is_some self.new.file)) }
    {
        let mut how = OpenOptions::new();
        how.write(true);
        self.open(rt, alloc, &how)?;
        match &mut self.file {
            Some(file) => file.write_all(bytes),
            None => Err(ErrorKind::NotFound.into()),
        }
    }

    /// Reads some bytes, none only at the end or where there is no room, and says how many.
    pub fn read(&mut self, rt: &R, alloc: Global, out: &mut [u8]) -> io::Result<usize>
        ensures at_most { IfOk result (λ n. n ≤ length out.old) }
        ensures opened { OnOk result (IsTrue (is_some self.new.file)) }
    {
        let mut how = OpenOptions::new();
        how.read(true);
        self.open(rt, alloc, &how)?;
        match &mut self.file {
            Some(file) => read_some(file, out),
            None => Err(ErrorKind::NotFound.into()),
        }
    }
}
