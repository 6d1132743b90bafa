// Which folders and files of a home's providers have something that is not on the medium yet.
use crate::written::Written;
use hail_field::Memory;
use std::alloc::{AllocError, Global};
use std::cell::Cell;
use std::fs::{self, Files, Metadata};
use std::io::{self, ErrorKind};
use std::os::unix::fs::MetadataExt;
use std::rc::Rc;

/// So many files of a provider are open to be written at most.
pub const OPEN_FILES: usize = 8;

/// Which folder or file a path leads to: its device, and its number there, which is 0 where it is not known.
#[derive(Clone, Copy)]
pub struct Place {
    device: u64,
    number: u64,
}

impl Place {
    /// The place of what this is told of.
    pub fn of(metadata: &Metadata) -> Place {
        Place {
            device: metadata.dev(),
            number: metadata.ino(),
        }
    }

    /// Whether both are known to be one.
    pub fn is_also(&self, other: Place) -> bool {
        self.number != 0 && self.is_like(other)
    }

    /// Whether nothing is known in which both differ.
    pub fn is_like(&self, other: Place) -> bool {
        self.number == other.number && self.device == other.device
    }
}

/// What a command knows of a provider's folder: whether it has names that are not on the medium yet, whether a
/// sync of it or of a file in it failed, from the first store on where it is, and the files with blocks of more
/// than one stripe that are open to be written.
#[derive(Drop)]
struct Known<F: Drop> {
    is_unsynced: Cell<bool>,
    has_failed: Cell<bool>,
    place: Cell<Option<Place>>,
    files: Vec<Cell<Option<Written<F>>>>,
}

impl<F: Drop> Known<F> {
    /// Nothing is known, and nothing stored. Want of memory is the one refusal.
    fn new(alloc: Global) -> Result<Known<F>, Memory> {
        let mut files = Vec::new(alloc);
        for _ in 0..OPEN_FILES {
            files.push(Cell::new(None)).map_err(AllocError::from)?;
        }
        Ok(Known {
            is_unsynced: Cell::new(false),
            has_failed: Cell::new(false),
            place: Cell::new(None),
            files,
        })
    }

    /// Whether this folder is at a place.
    fn is_at(&self, place: Place) -> bool {
        match self.place.get() {
            Some(known) => known.is_also(place),
            None => false,
        }
    }

    /// Takes out the file that is open at one of the eight places.
    fn take(&self, at: usize) -> Option<Written<F>> {
        self.files.get(at)?.replace(None)
    }

    /// Puts a file that is open to one of the eight places.
    fn put(&self, at: usize, file: Written<F>) {
        if let Some(place) = self.files.get(at) {
            place.set(Some(file));
        }
    }

    /// Whether a file that is open has bytes that are not on the medium.
    fn is_file_unsynced(&self, at: usize) -> bool {
        match self.take(at) {
            Some(file) => {
                let is_unsynced = file.is_unsynced;
                self.put(at, file);
                is_unsynced
            }
            None => false,
        }
    }

    /// Whether something of the folder is not on the medium, or a sync failed.
    fn is_marked(&self) -> bool {
        if self.is_unsynced.get() || self.has_failed.get() {
            return true;
        }
        for at in 0..OPEN_FILES {
            if self.is_file_unsynced(at) {
                return true;
            }
        }
        false
    }
}

/// Says of one folder what it has that is not on the medium yet: a store sets it, and a sync takes it back.
#[derive(Drop)]
pub struct Mark<F: Drop> {
    folders: Rc<Vec<Known<F>>>,
    provider: usize,
}

impl<F: Drop> Mark<F> {
    fn known(&self) -> Option<&Known<F>> {
        self.folders.get(self.provider)
    }

    /// The folder has names that are not on the medium.
    pub fn set(&self) {
        if let Some(folder) = self.known() {
            folder.is_unsynced.set(true);
        }
    }

    /// The folder's names are on the medium.
    pub fn unset(&self) {
        if let Some(folder) = self.known() {
            folder.is_unsynced.set(false);
        }
    }

    /// A sync failed: so does each behind it.
    pub fn fail(&self) {
        if let Some(folder) = self.known() {
            folder.has_failed.set(true);
        }
    }

    /// No sync has failed.
    pub fn is_sure(&self) -> io::Result<()> {
        match self.known() {
            Some(folder) if !folder.has_failed.get() => Ok(()),
            _ => Err(ErrorKind::Other.into()),
        }
    }

    /// Takes out the file that is open to be written at one of the eight places.
    pub fn take(&self, at: usize) -> Option<Written<F>> {
        self.known()?.take(at)
    }

    /// Puts a file that is open to be written to one of the eight places.
    pub fn put(&self, at: usize, file: Written<F>) {
        if let Some(folder) = self.known() {
            folder.put(at, file);
        }
    }

    /// Whether the file at one of the eight places has bytes that are not on the medium.
    pub fn is_file_unsynced(&self, at: usize) -> bool {
        match self.known() {
            Some(folder) => folder.is_file_unsynced(at),
            None => false,
        }
    }

    /// Whether it is known where the folder is.
    pub fn is_known(&self) -> bool {
        match self.known() {
            Some(folder) => folder.place.get().is_some(),
            None => true,
        }
    }

    /// Whether a folder of the home that was stored to is at a place.
    fn is_taken(&self, place: Place) -> bool {
        for folder in self.folders.iter() {
            if folder.is_at(place) {
                return true;
            }
        }
        false
    }

    /// Keeps where the folder is, of which this is told. An error where another provider's folder is there.
    fn know(&self, metadata: &Metadata) -> io::Result<()> {
        let place = Place::of(metadata);
        if self.is_taken(place) {
            return Err(ErrorKind::AlreadyExists.into());
        }
        if let Some(folder) = self.known() {
            folder.place.set(Some(place));
        }
        Ok(())
    }

    /// The folder, which is there, is that of no other provider of the home. It is looked at once.
    pub fn is_own<R: Files>(&self, rt: &R, path: &str) -> io::Result<()> {
        if self.is_known() {
            return Ok(());
        }
        self.know(&fs::metadata(rt, path)?)
    }
}

/// What the sixteen folders of a home's providers have that is not on the medium yet. A store marks its
/// provider's, and the barrier syncs those that are marked.
#[derive(Drop)]
pub struct Unsynced<F: Drop> {
    folders: Rc<Vec<Known<F>>>,
}

impl<F: Drop> Unsynced<F> {
    /// No folder is marked. Want of memory is the one refusal.
    pub fn new(alloc: Global) -> Result<Unsynced<F>, Memory> {
        let mut folders = Vec::new(alloc);
        for _ in 0..16u8 {
            folders.push(Known::new(alloc)?).map_err(AllocError::from)?;
        }
        Ok(Unsynced {
            folders: Rc::new(alloc, folders).map_err(AllocError::from)?,
        })
    }

    /// The mark of a provider's folder.
    pub fn mark(&self, provider: u8) -> Result<Mark<F>, Memory> {
        Ok(Mark {
            folders: self.folders.clone()?,
            provider: usize::from(provider),
        })
    }

    /// The same marks, for another holder.
    pub fn share(&self) -> Result<Unsynced<F>, Memory> {
        Ok(Unsynced {
            folders: self.folders.clone()?,
        })
    }

    fn known(&self, provider: u8) -> Option<&Known<F>> {
        self.folders.get(usize::from(provider))
    }

    /// Whether a provider's folder, or a file in it, is marked, or a sync of it failed.
    pub fn is_marked(&self, provider: u8) -> bool {
        match self.known(provider) {
            Some(folder) => folder.is_marked(),
            None => false,
        }
    }

    /// Whether a provider's folder has names that are not on the medium.
    pub fn is_unnamed(&self, provider: u8) -> bool {
        match self.known(provider) {
            Some(folder) => folder.is_unsynced.get(),
            None => false,
        }
    }

    /// The first provider whose folder, or a file in it, is marked.
    pub fn first_marked(&self) -> Option<u8> {
        for provider in 0..16u8 {
            if self.is_marked(provider) {
                return Some(provider);
            }
        }
        None
    }

    /// The device that a provider's folder was on at its first store.
    pub fn device(&self, provider: u8) -> Option<u64> {
        Some(self.known(provider)?.place.get()?.device)
    }

    /// A provider's folder has its names on the medium.
    pub fn unmark(&self, provider: u8) {
        if let Some(folder) = self.known(provider) {
            folder.is_unsynced.set(false);
        }
    }

    /// A sync of a provider's folder, or of a file in it, failed: so does each behind it.
    pub fn fail(&self, provider: u8) {
        if let Some(folder) = self.known(provider) {
            folder.has_failed.set(true);
        }
    }

    /// No sync of a provider's folder, or of a file in it, has failed.
    pub fn is_sure(&self, provider: u8) -> io::Result<()> {
        match self.known(provider) {
            Some(folder) if !folder.has_failed.get() => Ok(()),
            _ => Err(ErrorKind::Other.into()),
        }
    }

    /// Takes out the file that is open to be written at one of a provider's eight places.
    pub fn take(&self, provider: u8, at: usize) -> Option<Written<F>> {
        self.known(provider)?.take(at)
    }

    /// Puts a file that is open to be written to one of a provider's eight places.
    pub fn put(&self, provider: u8, at: usize, file: Written<F>) {
        if let Some(folder) = self.known(provider) {
            folder.put(at, file);
        }
    }
}
