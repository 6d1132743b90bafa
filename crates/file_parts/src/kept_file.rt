ghost use Rattle.std.specs.Prelude.{◌≡◌, ◌≤◌, ◌↔◌, length, string_bytes, IfOk, OnOk, OnErr, IsErr, IsTrue};
ghost use Rattle.std.specs.Option.{is_some};

use crate::found::found;
use crate::plain::{folder_of, is_there, sync_folder, to_write_or_make};
use crate::transfer::fill;
use hail_field::Memory;
use std::alloc::Global;
use std::fs::{self, Files, OpenFile};
use std::io::{self, ErrorKind, Seek, SeekFrom, Write};

/// A plain file that is opened when it is first needed, and then kept open. One that isn't there reads as
/// empty, and the first write makes it, for its owner alone. A folder, a pipe or a device in its place is an
/// error. Behind a sync that failed each call fails: the system may show bytes that never reached the medium,
/// and call a later sync done.
#[derive(Drop)]
pub struct KeptFile<R: Files + Clone + Drop> {
    rt: R,
    path: String,
    reading: Option<R::File>,
    writing: Option<R::File>,
    has_synced_name: bool,
    has_failed: bool,
}

impl<R: Files + Clone + Drop> KeptFile<R> {
    /// A file at a path, which is opened when it is first needed. It refuses only for want of memory.
    pub fn new(rt: &R, alloc: Global, path: &str) -> Result<KeptFile<R>, Memory>
        ensures { IfOk result (λ file. string_bytes file.path ≡ path.now) }
    {
        Ok(KeptFile {
            path: String::from_str(alloc, path)?,
            rt: rt.clone()?,
            reading: None,
            writing: None,
            has_synced_name: false,
            has_failed: false,
        })
    }

    /// No sync has failed.
    fn is_sure(&self) -> io::Result<()>
        ensures { IsErr result ↔ IsTrue self.now.has_failed }
    {
        if self.has_failed {
            return Err(ErrorKind::Other.into());
        }
        Ok(())
    }

    /// From now on each call fails.
    pub fn give_up(&mut self)
        ensures { IsTrue self.new.has_failed }
    {
        self.has_failed = true;
    }

    fn open_to_read(&mut self) -> io::Result<()>
        ensures { IsTrue self.old.has_failed → IsErr result }
    {
        self.is_sure()?;
        if self.reading.is_none() && is_there(&self.rt, &self.path)? {
            self.reading = found(fs::open(&self.rt, &self.path))?;
        }
        Ok(())
    }

    fn open_to_write(&mut self) -> io::Result<()>
        ensures { IsTrue self.old.has_failed → IsErr result }
    {
        self.is_sure()?;
        if self.writing.is_none() {
            is_there(&self.rt, &self.path)?;
            self.writing = Some(to_write_or_make().open(&self.rt, &self.path)?);
        }
        Ok(())
    }

    /// How many bytes the file has; 0 where there is none. An error is std's, or comes behind a sync that
    /// failed.
    pub fn len(&mut self) -> io::Result<u64>
        ensures { IsTrue self.old.has_failed → IsErr result }
    {
        self.open_to_read()?;
        match &self.reading {
            Some(file) => Ok(file.metadata()?.len()),
            None => Ok(0),
        }
    }

    /// Reads the bytes from the offset on, as many as fit or are there.
    pub fn read_at(&mut self, at: u64, out: &mut [u8]) -> io::Result<usize>
        ensures at_most { IfOk result (λ n. n ≤ length out.old) }
        ensures given_up { IsTrue self.old.has_failed → IsErr result }
    {
        self.open_to_read()?;
        match &mut self.reading {
            Some(file) => {
                file.seek(SeekFrom::Start(at))?;
                fill(file, out)
            }
            None => Ok(0),
        }
    }

    /// Writes the bytes from the offset on. The system fills a gap before them with zero bytes.
    pub fn write_at(&mut self, at: u64, bytes: &[u8]) -> io::Result<()>
        ensures { IsTrue self.old.has_failed → IsErr result }
    {
        self.open_to_write()?;
        match &mut self.writing {
            Some(file) => put(file, at, bytes),
            None => Ok(()),
        }
    }

    /// Brings what was written to the medium, and at the first time the file's name in its folder too:
    /// another program may have made the file and ended before it synced.
    pub fn sync(&mut self) -> io::Result<()>
        ensures given_up { IsTrue self.old.has_failed → IsErr result }
        ensures failed { OnErr result (IsTrue self.new.has_failed) }
    {
        let synced = self.try_sync();
        if synced.is_err() {
            self.give_up();
        }
        synced
    }

    fn try_sync(&mut self) -> io::Result<()>
        ensures given_up { IsTrue self.old.has_failed → IsErr result }
        ensures named { OnOk result (IsTrue (is_some self.new.reading) → IsTrue self.new.has_synced_name) }
    {
        self.is_sure()?;
        if let Some(file) = &self.writing {
            file.sync_all()?;
            return self.sync_name();
        }
        self.open_to_read()?;
        match &self.reading {
            Some(file) => {
                file.sync_all()?;
                self.sync_name()
            }
            None => Ok(()),
        }
    }

    /// Brings the file's name to the medium, once.
    fn sync_name(&mut self) -> io::Result<()>
        ensures { OnOk result (IsTrue self.new.has_synced_name) }
    {
        if !self.has_synced_name {
            sync_folder(&self.rt, folder_of(&self.path))?;
            self.has_synced_name = true;
        }
        Ok(())
    }
}

/// Writes at an offset. Where nothing is to be written past the end, the gap before it is all that there is
/// to fill.
fn put<F: Seek + Write + OpenFile>(file: &mut F, at: u64, bytes: &[u8]) -> io::Result<()> {
    if bytes.is_empty() {
        if file.metadata()?.len() < at {
            file.set_len(at)?;
        }
        return Ok(());
    }
    file.seek(SeekFrom::Start(at))?;
    file.write_all(bytes)
}
