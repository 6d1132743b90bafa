use crate::medium::{Change, Medium, Stays, kept};
use std::alloc::{Allocator, Global};
use std::cell::{RefCell, RefMut};
use std::fs::{Files, Metadata, OpenFile, OpenOptions, Permissions};
use std::io::{self, ErrorKind, PipeReader, PipeWriter, Read, Seek, SeekFrom, Write};
use std::os::unix::io::BorrowedFd;
use std::os::unix::net::SocketAddr;
use std::path::PathBuf;
use std::rc::Rc;

/// A stand-in for the operating system's files, over a medium in memory.
#[derive(Clone, Drop)]
pub struct StandIn {
    medium: Rc<RefCell<Medium>>,
}

/// A file or a folder that was opened.
#[derive(Drop)]
pub struct Opened {
    medium: Rc<RefCell<Medium>>,
    node: usize,
    at: usize,
}

/// The names in a folder, which no device reads.
#[derive(Drop)]
pub struct NoNames;

/// What a call answers that no device makes.
fn not_done() -> io::Error {
    ErrorKind::Unsupported.into()
}

/// The medium, for one call.
fn lend(medium: &Rc<RefCell<Medium>>) -> io::Result<RefMut<'_, Medium>> {
    match medium.try_borrow_mut() {
        Ok(medium) => Ok(medium),
        Err(_) => Err(not_done()),
    }
}

/// Makes a call that changes something on a medium.
fn change_on(medium: &Rc<RefCell<Medium>>, change: Change<'_>) -> io::Result<()> {
    lend(medium)?.change(change)
}

/// What is told of a node.
fn metadata_of(medium: &Rc<RefCell<Medium>>, path: &str) -> io::Result<Metadata> {
    lend(medium)?.metadata_at(path)
}

impl StandIn {
    /// A stand-in over a medium.
    fn over(alloc: Global, medium: Medium) -> io::Result<StandIn> {
        let medium = kept(Rc::new(alloc, RefCell::new(medium)))?;
        Ok(StandIn { medium })
    }

    /// A stand-in with an empty folder `home`.
    pub fn new(alloc: Global) -> io::Result<StandIn> {
        StandIn::over(alloc, Medium::new(alloc)?)
    }

    /// From now on files that are made keep what is written to them, or nothing, and say yes to all.
    pub fn set_keeping(&self, keeps: bool) {
        if let Ok(mut medium) = lend(&self.medium) {
            medium.set_keeping(keeps);
        }
    }

    /// From now on the power is cut behind so many calls that change something.
    pub fn cut_after(&self, calls: u64) {
        if let Ok(mut medium) = lend(&self.medium) {
            medium.cut_after(calls);
        }
    }

    /// How many calls may still change something.
    pub fn calls_left(&self) -> u64 {
        match lend(&self.medium) {
            Ok(medium) => medium.calls_left(),
            Err(_) => 0,
        }
    }

    /// What is found behind a cut, with power again.
    pub fn after_cut(&self, alloc: Global, stays: Stays) -> io::Result<StandIn> {
        let left = lend(&self.medium)?.after_cut(stays)?;
        StandIn::over(alloc, left)
    }

    /// Whether both have a file with some bytes at this path, and the same.
    pub fn has_same(&self, other: &StandIn, path: &str) -> bool {
        match (lend(&self.medium), lend(&other.medium)) {
            (Ok(medium), Ok(other)) => medium.has_same(&other, path),
            _ => false,
        }
    }
}

impl Files for StandIn {
    type File = Opened;

    type Dir = NoNames;

    fn open_file(&self, how: &OpenOptions, path: &str) -> io::Result<Opened> {
        let node = lend(&self.medium)?.open(how, path)?;
        let medium = kept(self.medium.clone())?;
        Ok(Opened {
            medium,
            node,
            at: 0,
        })
    }

    fn open_dir(&self, _path: &str) -> io::Result<NoNames> {
        Err(not_done())
    }

    fn metadata(&self, path: &str) -> io::Result<Metadata> {
        metadata_of(&self.medium, path)
    }

    fn symlink_metadata(&self, path: &str) -> io::Result<Metadata> {
        metadata_of(&self.medium, path)
    }

    fn copy(&self, _from: &str, _to: &str) -> io::Result<u64> {
        Err(not_done())
    }

    fn rename(&self, from: &str, to: &str) -> io::Result<()> {
        change_on(&self.medium, Change::Rename(from, to))
    }

    fn remove_file(&self, path: &str) -> io::Result<()> {
        change_on(&self.medium, Change::Remove(path))
    }

    fn create_dir(&self, path: &str) -> io::Result<()> {
        change_on(&self.medium, Change::MakeFolder(path))
    }

    fn create_dir_with_mode(&self, path: &str, _mode: u32) -> io::Result<()> {
        self.create_dir(path)
    }

    fn remove_dir(&self, _path: &str) -> io::Result<()> {
        Err(not_done())
    }

    fn remove_dir_all<B: Allocator>(&self, _alloc: B, _path: &str) -> io::Result<()> {
        Err(not_done())
    }

    fn canonicalize<B: Allocator>(&self, _alloc: B, _path: &str) -> io::Result<PathBuf<B>> {
        Err(not_done())
    }

    fn read_link<B: Allocator>(&self, _alloc: B, _path: &str) -> io::Result<PathBuf<B>> {
        Err(not_done())
    }

    fn hard_link(&self, _original: &str, _link: &str) -> io::Result<()> {
        Err(not_done())
    }

    fn set_permissions(&self, _path: &str, _permissions: Permissions) -> io::Result<()> {
        Err(not_done())
    }

    fn symlink(&self, _original: &str, _link: &str) -> io::Result<()> {
        Err(not_done())
    }

    fn pipe(&self) -> io::Result<(PipeReader, PipeWriter)> {
        Err(not_done())
    }

    fn chown(&self, _path: &str, _user: Option<u32>, _group: Option<u32>) -> io::Result<()> {
        Err(not_done())
    }

    fn lchown(&self, _path: &str, _user: Option<u32>, _group: Option<u32>) -> io::Result<()> {
        Err(not_done())
    }

    fn bind_unix(&self, _socket: BorrowedFd<'_>, _address: &SocketAddr) -> io::Result<()> {
        Err(not_done())
    }
}

impl Read for NoNames {
    fn read(&mut self, _buf: &mut [u8]) -> io::Result<usize> {
        Err(not_done())
    }
}

impl Read for Opened {
    fn read(&mut self, buf: &mut [u8]) -> io::Result<usize> {
        let n = lend(&self.medium)?.read(self.node, self.at, buf)?;
        self.at = self.at.saturating_add(n);
        Ok(n)
    }
}

impl Write for Opened {
    fn write(&mut self, buf: &[u8]) -> io::Result<usize> {
        change_on(&self.medium, Change::Write(self.node, self.at, buf))?;
        self.at = self.at.saturating_add(buf.len());
        Ok(buf.len())
    }

    fn flush(&mut self) -> io::Result<()> {
        Ok(())
    }
}

impl Seek for Opened {
    fn seek(&mut self, to: SeekFrom) -> io::Result<u64> {
        match to {
            SeekFrom::Start(at) => {
                self.at = at as usize;
                Ok(at)
            }
            _ => Err(not_done()),
        }
    }
}

impl OpenFile for Opened {
    fn metadata(&self) -> io::Result<Metadata> {
        lend(&self.medium)?.metadata(self.node)
    }

    fn set_len(&self, size: u64) -> io::Result<()> {
        change_on(&self.medium, Change::SetLen(self.node, size as usize))
    }

    fn sync_all(&self) -> io::Result<()> {
        change_on(&self.medium, Change::Sync(self.node))
    }

    fn sync_data(&self) -> io::Result<()> {
        self.sync_all()
    }
}
