// A folder of objects, each a file.
ghost use Rattle.std.specs.Prelude.{◌≡◌, ◌≤◌, ◌<◌, ◌+◌, ◌*◌, ◌++◌, false, length, IfOk, IfSome, OnErr};
ghost use Rattle.file_parts.specs.Stacks.{mark_bytes};
ghost use Rattle.column_defs.specs.Objects.{bytes_of_symbols};

use crate::object_file::{has_mark, open_object, open_to_change, reads, to_change};
use crate::sync::bring;
use file_parts::block_bytes::{SYMBOL_BYTES, put_symbols, take_symbols};
use file_parts::found::{found, is_missing};
use file_parts::plain::{make_folder, sync_folder, to_make, to_read};
use file_parts::slot::{Header, MARK_BYTES, PLACE_BYTES, are_same, has_block, mark_of, place_of};
use file_parts::unsynced::{Mark, OPEN_FILES};
use file_parts::written::Written;
use hail_field::{Memory, Symbol};
use std::alloc::Global;
use std::fs::{self, Files};
use std::io::{self, ErrorKind, Seek, SeekFrom, Write};

/// The most bytes of an object's name, with the slash before it.
const NAME_BYTES: usize = 24;

/// The file of an object that is open to be read: its blocks have so many bytes.
#[derive(Drop)]
struct Reading<F: Drop> {
    object: u64,
    size: u16,
    file: F,
}

/// A folder with a file for each object. It is made at the first store; one that isn't there holds nothing. The
/// file that was read last stays open, and eight that were written.
#[derive(Drop)]
pub struct Stack<R: Files + Clone + Drop> {
    rt: R,
    path: String,
    file_path: String,
    reading: Option<Reading<R::File>>,
    mark: Mark<R::File>,
    /// The place whose file is closed next, where all eight have bytes that are not on the medium.
    oldest: usize,
    syncs: bool,
}

/// Fills the front of `out` with the bytes of a stripe's place.
fn put_place(block: &[Symbol], stripe: u32, out: &mut [u8])
    requires few { length block.now ≤ 128 }
    requires fits { length out.old ≡ 16 * length block.now + 8 }
    ensures { out.new ≡ bytes_of_symbols block.now ++ mark_bytes stripe }
{
    let size = SYMBOL_BYTES * block.len();
    put_symbols(block, &mut out[..size]);
    out[size..].copy_from_slice(&mark_of(stripe));
}

impl<R: Files + Clone + Drop> Stack<R> {
    /// Opens nothing, and makes room for the path of a file, so that no later call has to. A store leaves its
    /// mark; where `syncs` is set it brings what it wrote to the medium itself.
    pub fn new(
        rt: &R,
        alloc: Global,
        path: &str,
        mark: Mark<R::File>,
        syncs: bool,
    ) -> Result<Stack<R>, Memory> {
        let mut file_path = String::from_str(alloc, path)?;
        file_path.reserve(NAME_BYTES)?;
        Ok(Stack {
            rt: rt.clone()?,
            path: String::from_str(alloc, path)?,
            file_path,
            reading: None,
            mark,
            oldest: 0,
            syncs,
        })
    }

    /// Puts the path of an object's file.
    fn put_path(&mut self, object: u64) -> io::Result<()> {
        self.file_path.clear();
        write!(self.file_path, "{}/{object}", self.path)?;
        Ok(())
    }

    /// Opens the file of an object to read it, unless it is open; says whether there is one whose blocks may
    /// have so many bytes.
    fn open_to_read(&mut self, object: u64, size: u16) -> io::Result<bool> {
        if let Some(reading) = &self.reading {
            if reading.object == object && reading.size == size {
                return Ok(true);
            }
        }
        self.reading = None;
        self.put_path(object)?;
        let Some((file, _)) = open_object(&self.rt, &self.file_path, size, &to_read())? else {
            return Ok(false);
        };
        self.reading = Some(Reading { object, size, file });
        Ok(true)
    }

    /// Closes the file of an object that is open to be read.
    fn close(&mut self, object: u64) {
        if let Some(reading) = &self.reading {
            if reading.object == object {
                self.reading = None;
            }
        }
    }

    /// Reads the place of a stripe, and says whether it has a block.
    fn read_place(
        &mut self,
        object: u64,
        stripe: u32,
        size: u16,
        out: &mut [u8],
    ) -> io::Result<bool>
        requires fits { length out.old ≡ size + 8 }
        ensures { length out.new ≡ length out.old }
    {
        if !self.open_to_read(object, size)? {
            return Ok(false);
        }
        match &mut self.reading {
            Some(reading) => {
                let whole = reads(&mut reading.file, place_of(stripe, size), out)?;
                Ok(whole && has_block(out, stripe, size))
            }
            None => Ok(false),
        }
    }

    /// Reads a block of as many symbols as `out` has, and says whether the file has one.
    pub fn fetch(&mut self, object: u64, stripe: u32, out: &mut [Symbol]) -> io::Result<bool>
        requires { length out.old ≤ 128 }
        ensures not_found { IfOk result (λ found. found ≡ false → out.new ≡ out.old) }
        ensures err { OnErr result (out.new ≡ out.old) }
    {
        let size = SYMBOL_BYTES * out.len();
        let mut buffer = [0; PLACE_BYTES];
        if !self.read_place(
            object,
            stripe,
            size as u16,
            &mut buffer[..size + MARK_BYTES],
        )? {
            return Ok(false);
        }
        take_symbols(&buffer[..size], out);
        Ok(true)
    }

    /// Takes away what stands in the file's place: a file, a link or an empty folder.
    fn clear(&self) -> io::Result<()> {
        let removed = found(fs::remove_file(&self.rt, &self.file_path));
        if removed.is_err() && fs::remove_dir(&self.rt, &self.file_path).is_ok() {
            return Ok(());
        }
        removed?;
        Ok(())
    }

    /// Makes the file at the path, which is not there, and the folder if it is missing.
    fn make(&self) -> io::Result<R::File> {
        match to_make().open(&self.rt, &self.file_path) {
            Err(error) if is_missing(error.kind()) => {
                make_folder(&self.rt, &self.path)?;
                to_make().open(&self.rt, &self.file_path)
            }
            answer => answer,
        }
    }

    /// The file at the path, made anew.
    fn begun(&mut self, object: u64, size: u16) -> io::Result<Written<R::File>>
        ensures { IfOk result (λ file. file.size ≡ size) }
    {
        self.close(object);
        self.clear()?;
        let _ = self.take_open(object);
        let mut file = Written::new(object, size, self.make()?);
        file.write_header()?;
        Ok(file)
    }

    /// Opens the file of an object to write to it. One that is not there, or has blocks of another size, is
    /// begun anew; a beginning that says nothing is written anew.
    fn opened(&mut self, object: u64, size: u16) -> io::Result<Written<R::File>>
        ensures { IfOk result (λ file. file.size ≡ size) }
    {
        self.put_path(object)?;
        let there = open_object(&self.rt, &self.file_path, size, &to_change())?;
        let Some((file, header)) = there else {
            return self.begun(object, size);
        };
        let mut file = Written::new(object, size, file);
        if header == Header::Damaged {
            file.write_header()?;
        }
        Ok(file)
    }

    /// Brings to the medium the file at one of the eight places, and its name.
    fn sync_at(&mut self, at: usize) -> io::Result<()> {
        let Some(mut file) = self.mark.take(at) else {
            return Ok(());
        };
        self.put_path(file.object)?;
        let synced = bring(&self.rt, &self.file_path, &mut file);
        self.mark.put(at, file);
        if synced.is_err() {
            self.mark.fail();
        }
        synced
    }

    /// The first of the eight places with no file whose bytes are not on the medium.
    fn free_place(&self) -> Option<usize> {
        for at in 0..OPEN_FILES {
            if !self.mark.is_file_unsynced(at) {
                return Some(at);
            }
        }
        None
    }

    /// A place for one file more. Where there is none the oldest file is brought to the medium.
    fn place_for_one_more(&mut self) -> io::Result<usize> {
        if let Some(at) = self.free_place() {
            return Ok(at);
        }
        let at = self.oldest % OPEN_FILES;
        self.oldest = (at + 1) % OPEN_FILES;
        self.sync_at(at)?;
        Ok(at)
    }

    /// The file of an object that is open to be written, taken out of its place.
    fn take_open(&self, object: u64) -> Option<(usize, Written<R::File>)> {
        for at in 0..OPEN_FILES {
            if let Some(file) = self.mark.take(at) {
                if file.object == object {
                    return Some((at, file));
                }
                self.mark.put(at, file);
            }
        }
        None
    }

    /// The folder is there, and that of no other provider of the home. It is looked at once.
    fn has_folder(&self) -> io::Result<()> {
        if self.mark.is_known() {
            return Ok(());
        }
        if found(fs::metadata(&self.rt, &self.path))?.is_none() {
            make_folder(&self.rt, &self.path)?;
        }
        self.mark.is_own(&self.rt, &self.path)
    }

    /// The file of an object to write to, and the place where it goes afterwards. The folder has its name then
    /// that may not be on the medium, also where it was there: another program may have made it.
    fn take(&mut self, object: u64, size: u16) -> io::Result<(usize, Written<R::File>)>
        ensures { IfOk result (λ taken. taken.1.size ≡ size) }
    {
        if let Some((at, file)) = self.take_open(object) {
            if file.size == size {
                return Ok((at, file));
            }
            self.mark.put(at, file);
        }
        self.has_folder()?;
        let at = self.place_for_one_more()?;
        let file = self.opened(object, size)?;
        self.mark.set();
        Ok((at, file))
    }

    /// The place of a stripe has these bytes, in the file as another opening of it reads.
    fn reads_back(&mut self, object: u64, stripe: u32, size: u16, bytes: &[u8]) -> io::Result<()>
        requires size { size ≤ 2048 }
        requires fits { length bytes.now ≡ size + 8 }
    {
        let mut buffer = [0; PLACE_BYTES];
        let back = &mut buffer[..bytes.len()];
        if self.read_place(object, stripe, size, back)? && are_same(back, bytes) {
            return Ok(());
        }
        Err(ErrorKind::InvalidData.into())
    }

    /// Brings to the medium the file at one of the eight places, and its name, where each store does.
    fn sync_if(&mut self, at: usize) -> io::Result<()> {
        if !self.syncs {
            return Ok(());
        }
        self.sync_at(at)?;
        sync_folder(&self.rt, &self.path)?;
        self.mark.unset();
        Ok(())
    }

    /// Writes a block at its place, and reads it back.
    pub fn store(&mut self, object: u64, stripe: u32, block: &[Symbol]) -> io::Result<()>
        requires { length block.now ≤ 128 }
    {
        let size = SYMBOL_BYTES * block.len();
        let mut buffer = [0; PLACE_BYTES];
        let bytes = &mut buffer[..size + MARK_BYTES];
        put_place(block, stripe, bytes);
        self.mark.is_sure()?;
        let (at, mut file) = self.take(object, size as u16)?;
        let written = file.write(stripe, bytes);
        self.mark.put(at, file);
        written?;
        self.reads_back(object, stripe, size as u16, bytes)?;
        self.sync_if(at)
    }

    /// Removes an object's file. What was written to it need not come to the medium any more.
    pub fn remove(&mut self, object: u64) -> io::Result<()> {
        self.close(object);
        let _ = self.take_open(object);
        self.put_path(object)?;
        found(fs::remove_file(&self.rt, &self.file_path))?;
        Ok(())
    }

    /// Opens the file of an object to change a block, if it has it, and says of how many bytes its blocks are.
    fn open_block(&mut self, object: u64, stripe: u32) -> io::Result<Option<(R::File, u16)>> {
        self.put_path(object)?;
        let Some((mut file, size)) = open_to_change(&self.rt, &self.file_path)? else {
            return Ok(None);
        };
        if has_mark(&mut file, stripe, size)? {
            return Ok(Some((file, size)));
        }
        Ok(None)
    }

    /// Puts a symbol at a place of a block, and says whether it has the place.
    pub fn alter(
        &mut self,
        object: u64,
        stripe: u32,
        place: u32,
        symbol: Symbol,
    ) -> io::Result<bool> {
        let Some((mut file, size)) = self.open_block(object, stripe)? else {
            return Ok(false);
        };
        let within = 16 * u64::from(place);
        if within >= u64::from(size) {
            return Ok(false);
        }
        file.seek(SeekFrom::Start(place_of(stripe, size) + within))?;
        file.write_all(&symbol.to_bytes())?;
        Ok(true)
    }

    /// Takes the mark of a block away, and says whether there was a block.
    pub fn lose(&mut self, object: u64, stripe: u32) -> io::Result<bool> {
        let Some((mut file, size)) = self.open_block(object, stripe)? else {
            return Ok(false);
        };
        file.seek(SeekFrom::Start(place_of(stripe, size) + u64::from(size)))?;
        file.write_all(&[0; MARK_BYTES])?;
        Ok(true)
    }
}
