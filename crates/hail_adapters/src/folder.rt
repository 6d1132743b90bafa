// A folder of blocks, each a file.
ghost use Rattle.std.specs.Prelude.{◌≡◌, ◌≢◌, ◌≤◌, ◌<◌, ◌+◌, ◌++◌, Ok, true, false, length, string_bytes, IfOk, OnErr};
ghost use Rattle.hail_adapters.specs.BlockNames.{new_block};

use crate::block_name::{NAME_BYTES, put_path};
use file_parts::block_bytes::{BLOCK_BYTES, SYMBOL_BYTES, put_symbols, take_symbols};
use file_parts::found::{found, is_missing};
use file_parts::plain::{
    make_folder, open_plain, open_sized, sync_folder, to_make, to_read, to_write,
};
use file_parts::transfer::{fill, gives};
use file_parts::unsynced::Mark;
use hail_field::{Memory, Symbol};
use std::alloc::Global;
use std::fs::{self, Files, OpenFile};
use std::io::{self, ErrorKind, Seek, SeekFrom, Write};

/// So many stripes in a row that are not there end a removal.
const MISSES: u32 = 16;

/// The stripes of the longest file, where one provider has its bytes and a block keeps two symbols.
const MOST_STRIPES: u32 = 131_072;

/// How many stripes in a row a removal did not find, behind one more.
fn misses_behind(misses: u32, removed: &io::Result<bool>) -> u32
    requires { misses < 16 }
    ensures there { removed.now ≡ Ok true → result ≡ 0 }
    ensures missing { removed.now ≢ Ok true → result ≡ misses + 1 }
{
    match removed {
        Ok(true) => 0,
        _ => misses + 1,
    }
}

/// A folder with a file for each block. It is made at the first store; one that isn't there holds nothing.
#[derive(Drop)]
pub struct Folder<R: Files + Clone + Drop> {
    rt: R,
    path: String,
    block_path: String,
    new_path: String,
    unsynced: Option<Mark<R::File>>,
}

impl<R: Files + Clone + Drop> Folder<R> {
    /// Opens nothing, and makes room for the path of a block, so that no later call has to. A store marks the
    /// folder as unsynced; where there is no mark it syncs the folder itself.
    pub fn new(
        rt: &R,
        alloc: Global,
        path: &str,
        unsynced: Option<Mark<R::File>>,
    ) -> Result<Folder<R>, Memory>
        ensures own { IfOk result (λ folder. string_bytes folder.path ≡ path.now) }
        ensures new { IfOk result (λ folder. string_bytes folder.new_path ≡ path.now ++ new_block) }
    {
        let mut block_path = String::from_str(alloc, path)?;
        block_path.reserve(NAME_BYTES)?;
        Ok(Folder {
            rt: rt.clone()?,
            path: String::from_str(alloc, path)?,
            block_path,
            new_path: format!(in alloc; "{path}/new")?,
            unsynced,
        })
    }

    /// Opens the file of a block to read it; none where there is no plain file of so many bytes.
    fn open(&mut self, object: u64, stripe: u32, size: usize) -> io::Result<Option<R::File>> {
        put_path(&mut self.block_path, &self.path, object, stripe)?;
        open_sized(&self.rt, &self.block_path, size)
    }

    /// Takes away what stands in the new file's place: a file, a link or an empty folder.
    fn clear_new(&self) -> io::Result<()> {
        let removed = fs::remove_file(&self.rt, &self.new_path);
        if removed.is_err() && fs::remove_dir(&self.rt, &self.new_path).is_ok() {
            return Ok(());
        }
        removed
    }

    /// Makes the new file, which is not there: what stands in its place goes, and a missing folder is made.
    fn make_new(&self) -> io::Result<R::File> {
        match to_make().open(&self.rt, &self.new_path) {
            Err(error) if error.kind() == ErrorKind::AlreadyExists => self.clear_new()?,
            Err(error) if is_missing(error.kind()) => make_folder(&self.rt, &self.path)?,
            answer => return answer,
        }
        to_make().open(&self.rt, &self.new_path)
    }

    /// The folder, which is there, is that of no other provider of the home. It is looked at once.
    fn is_own(&self) -> io::Result<()> {
        match &self.unsynced {
            Some(mark) => mark.is_own(&self.rt, &self.path),
            None => Ok(()),
        }
    }

    /// Writes the new file and brings it to the medium.
    fn write_new(&self, bytes: &[u8]) -> io::Result<()> {
        let mut file = self.make_new()?;
        self.is_own()?;
        file.write_all(bytes)?;
        file.sync_all()
    }

    /// Gives the new file the name of a block. A file that had it goes, and so does an empty folder.
    fn rename_new(&self) -> io::Result<()> {
        let renamed = fs::rename(&self.rt, &self.new_path, &self.block_path);
        if renamed.is_err() && fs::remove_dir(&self.rt, &self.block_path).is_ok() {
            return fs::rename(&self.rt, &self.new_path, &self.block_path);
        }
        renamed
    }

    /// Writes the new file, and gives it the block's name.
    fn put_new(&self, bytes: &[u8]) -> io::Result<()> {
        self.write_new(bytes)?;
        self.rename_new()
    }

    /// Brings the block's name to the medium, or marks the folder.
    fn sync_name(&self) -> io::Result<()> {
        match &self.unsynced {
            Some(mark) => {
                mark.set();
                Ok(())
            }
            None => sync_folder(&self.rt, &self.path),
        }
    }

    /// The block's file, opened anew, has these bytes and no more: a file system may have said yes to all, and
    /// have kept nothing.
    fn reads_back(&self, bytes: &[u8]) -> io::Result<()>
        requires { length bytes.now ≤ 2048 }
    {
        let mut file = to_read().open(&self.rt, &self.block_path)?;
        if gives(&mut file, bytes)? {
            Ok(())
        } else {
            Err(ErrorKind::InvalidData.into())
        }
    }

    /// Writes the file of a block, and reads it back. Where that fails before the new file has the block's
    /// name, the block is as it was.
    pub fn store(&mut self, object: u64, stripe: u32, block: &[Symbol]) -> io::Result<()>
        requires { length block.now ≤ 128 }
    {
        let mut buffer = [0; BLOCK_BYTES];
        let bytes = &mut buffer[..SYMBOL_BYTES * block.len()];
        put_symbols(block, bytes);
        put_path(&mut self.block_path, &self.path, object, stripe)?;
        match self.put_new(bytes) {
            Ok(()) => {
                self.sync_name()?;
                self.reads_back(bytes)
            }
            Err(error) => {
                let _ = fs::remove_file(&self.rt, &self.new_path);
                Err(error)
            }
        }
    }

    /// Reads a block of as many symbols as `out` has, and says whether the file has one.
    pub fn fetch(&mut self, object: u64, stripe: u32, out: &mut [Symbol]) -> io::Result<bool>
        requires { length out.old ≤ 128 }
        ensures not_found { IfOk result (λ found. found ≡ false → out.new ≡ out.old) }
        ensures err { OnErr result (out.new ≡ out.old) }
    {
        let size = SYMBOL_BYTES * out.len();
        let Some(mut file) = self.open(object, stripe, size)? else {
            return Ok(false);
        };
        let mut buffer = [0; BLOCK_BYTES];
        if fill(&mut file, &mut buffer[..size])? != size {
            return Ok(false);
        }
        take_symbols(&buffer[..size], out);
        Ok(true)
    }

    /// Removes the file of a block, and says whether there was one.
    fn remove_one(&mut self, object: u64, stripe: u32) -> io::Result<bool> {
        put_path(&mut self.block_path, &self.path, object, stripe)?;
        let removed = found(fs::remove_file(&self.rt, &self.block_path))?;
        Ok(removed.is_some())
    }

    /// Removes the files of an object's blocks, and no other file, by their numbers, and goes on past one
    /// that cannot be removed. It ends behind 16 stripes in a row of which none was removed: a longer hole
    /// hides what is behind it. It ends at the longest file's stripes at the latest. The answer is the last
    /// error.
    pub fn remove(&mut self, object: u64) -> io::Result<()> {
        let mut misses = 0;
        let mut answer = Ok(());
        for stripe in 0..MOST_STRIPES {
            let removed = self.remove_one(object, stripe);
            misses = misses_behind(misses, &removed);
            if let Err(error) = removed {
                answer = Err(error);
            }
            if misses >= MISSES {
                return answer;
            }
        }
        answer
    }

    /// Puts a symbol at a place of a block, and says whether it has the place.
    pub fn alter(
        &mut self,
        object: u64,
        stripe: u32,
        place: u32,
        symbol: Symbol,
    ) -> io::Result<bool> {
        put_path(&mut self.block_path, &self.path, object, stripe)?;
        let Some(mut file) = open_plain(&self.rt, &self.block_path, &to_write())? else {
            return Ok(false);
        };
        let at = 16 * u64::from(place);
        let len = file.metadata()?.len();
        if len % 16 != 0 || at >= len {
            return Ok(false);
        }
        file.seek(SeekFrom::Start(at))?;
        file.write_all(&symbol.to_bytes())?;
        Ok(true)
    }

    /// Removes the file of a block, and says whether there was a block.
    pub fn lose(&mut self, object: u64, stripe: u32) -> io::Result<bool> {
        put_path(&mut self.block_path, &self.path, object, stripe)?;
        let Some(metadata) = found(fs::symlink_metadata(&self.rt, &self.block_path))? else {
            return Ok(false);
        };
        if !metadata.is_file() || metadata.len() % 16 != 0 {
            return Ok(false);
        }
        fs::remove_file(&self.rt, &self.block_path)?;
        Ok(true)
    }
}
