// A file with the blocks of an object that is open to be written.
ghost use Rattle.std.specs.Prelude.{◌≡◌, ◌≤◌, Some, false, OnOk, IsTrue};

use crate::slot::{HEADER_BYTES, header_of, place_of};
use std::fs::{Metadata, OpenFile};
use std::io::{self, Seek, SeekFrom, Write};

/// The file of an object that is open to be written, and whether it may have bytes that are not on the medium:
/// what opens it and what writes to it says so, and a sync that was done takes it back.
#[derive(Drop)]
pub struct Written<F: Drop> {
    /// The object.
    pub object: u64,
    /// The bytes of a block.
    pub size: u16,
    /// The stripe that was written last, if any.
    pub last: Option<u32>,
    /// Whether it may have bytes that are not on the medium.
    pub is_unsynced: bool,
    file: F,
}

impl<F: Seek + Write + OpenFile + Drop> Written<F> {
    /// The file of an object, which was opened or made.
    pub fn new(object: u64, size: u16, file: F) -> Written<F>
        ensures marks { IsTrue result.is_unsynced }
        ensures own { result.object ≡ object }
        ensures size { result.size ≡ size }
    {
        Written {
            object,
            size,
            last: None,
            is_unsynced: true,
            file,
        }
    }

    /// Writes what the file begins with.
    pub fn write_header(&mut self) -> io::Result<()>
        ensures marks { IsTrue self.new.is_unsynced }
        ensures own { self.new.object ≡ self.old.object }
        ensures size { self.new.size ≡ self.old.size }
    {
        self.is_unsynced = true;
        self.file.seek(SeekFrom::Start(0))?;
        self.file.write_all(&header_of(self.size))
    }

    /// Writes the bytes of a stripe's place.
    pub fn write(&mut self, stripe: u32, bytes: &[u8]) -> io::Result<()>
        ensures marks { IsTrue self.new.is_unsynced }
        ensures last { self.new.last ≡ Some stripe }
        ensures own { self.new.object ≡ self.old.object }
        ensures size { self.new.size ≡ self.old.size }
    {
        self.is_unsynced = true;
        self.last = Some(stripe);
        let at = place_of(stripe, self.size);
        self.file.seek(SeekFrom::Start(at))?;
        self.file.write_all(bytes)
    }

    /// Brings what was written to the medium.
    pub fn sync(&mut self) -> io::Result<()>
        ensures done { OnOk result (self.new.is_unsynced ≡ false) }
        ensures own { self.new.object ≡ self.old.object }
        ensures size { self.new.size ≡ self.old.size }
        ensures last { self.new.last ≡ self.old.last }
    {
        self.file.sync_all()?;
        self.is_unsynced = false;
        Ok(())
    }

    /// What is told of the file.
    pub fn metadata(&self) -> io::Result<Metadata> {
        self.file.metadata()
    }
}
