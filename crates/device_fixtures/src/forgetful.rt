// The system's files, of which those that are written keep nothing, and whose calls are counted.
use std::alloc::Allocator;
use std::cell::Cell;
use std::fs::{Files, Metadata, OpenFile, OpenOptions, Permissions};
use std::io::{self, PipeReader, PipeWriter, Read, Seek, SeekFrom, Write};
use std::os::unix::io::BorrowedFd;
use std::os::unix::net::SocketAddr;
use std::path::PathBuf;
use std::rc::Rc;

/// The system's files, whose calls are counted, and where a write may say yes to all and put zeros in place of
/// what it was given, which a file system over a network may do whose other end has no room.
#[derive(Clone, Drop)]
pub struct Forgetful<R: Files + Clone + Drop> {
    files: R,
    counts: Rc<Counts>,
    keeps: bool,
}

/// How many calls there were that opened a file to read it, that removed one, and that synced one or a folder.
#[derive(Drop)]
pub struct Counts {
    pub openings: Cell<u32>,
    pub removals: Cell<u32>,
    pub syncs: Cell<u32>,
}

impl Counts {
    /// No call was made.
    pub fn new() -> Counts {
        Counts {
            openings: Cell::new(0),
            removals: Cell::new(0),
            syncs: Cell::new(0),
        }
    }
}

/// One more.
fn raise(count: &Cell<u32>) {
    count.set(count.get().saturating_add(1));
}

/// A file that was opened.
#[derive(Drop)]
pub struct Opened<F: Drop> {
    file: F,
    counts: Rc<Counts>,
    keeps: bool,
}

impl<R: Files + Clone + Drop> Forgetful<R> {
    /// Stands over these files, and counts here.
    pub fn new(files: R, counts: Rc<Counts>) -> Forgetful<R> {
        Forgetful {
            files,
            counts,
            keeps: false,
        }
    }

    /// The same, where a write keeps what it was given.
    pub fn keeping(files: R, counts: Rc<Counts>) -> Forgetful<R> {
        Forgetful {
            files,
            counts,
            keeps: true,
        }
    }
}

impl<R: Files + Clone + Drop> Files for Forgetful<R> {
    type File = Opened<R::File>;

    type Dir = R::Dir;

    fn open_file(&self, how: &OpenOptions, path: &str) -> io::Result<Opened<R::File>> {
        if how.asks_read() {
            raise(&self.counts.openings);
        }
        let file = self.files.open_file(how, path)?;
        Ok(Opened {
            file,
            counts: self.counts.clone()?,
            keeps: self.keeps,
        })
    }

    fn open_dir(&self, path: &str) -> io::Result<R::Dir> {
        self.files.open_dir(path)
    }

    fn metadata(&self, path: &str) -> io::Result<Metadata> {
        self.files.metadata(path)
    }

    fn symlink_metadata(&self, path: &str) -> io::Result<Metadata> {
        self.files.symlink_metadata(path)
    }

    fn copy(&self, from: &str, to: &str) -> io::Result<u64> {
        self.files.copy(from, to)
    }

    fn rename(&self, from: &str, to: &str) -> io::Result<()> {
        self.files.rename(from, to)
    }

    fn remove_file(&self, path: &str) -> io::Result<()> {
        raise(&self.counts.removals);
        self.files.remove_file(path)
    }

    fn create_dir(&self, path: &str) -> io::Result<()> {
        self.files.create_dir(path)
    }

    fn create_dir_with_mode(&self, path: &str, mode: u32) -> io::Result<()> {
        self.files.create_dir_with_mode(path, mode)
    }

    fn remove_dir(&self, path: &str) -> io::Result<()> {
        self.files.remove_dir(path)
    }

    fn remove_dir_all<B: Allocator>(&self, alloc: B, path: &str) -> io::Result<()> {
        self.files.remove_dir_all(alloc, path)
    }

    fn canonicalize<B: Allocator>(&self, alloc: B, path: &str) -> io::Result<PathBuf<B>> {
        self.files.canonicalize(alloc, path)
    }

    fn read_link<B: Allocator>(&self, alloc: B, path: &str) -> io::Result<PathBuf<B>> {
        self.files.read_link(alloc, path)
    }

    fn hard_link(&self, original: &str, link: &str) -> io::Result<()> {
        self.files.hard_link(original, link)
    }

    fn set_permissions(&self, path: &str, permissions: Permissions) -> io::Result<()> {
        self.files.set_permissions(path, permissions)
    }

    fn symlink(&self, original: &str, link: &str) -> io::Result<()> {
        self.files.symlink(original, link)
    }

    fn pipe(&self) -> io::Result<(PipeReader, PipeWriter)> {
        self.files.pipe()
    }

    fn chown(&self, path: &str, user: Option<u32>, group: Option<u32>) -> io::Result<()> {
        self.files.chown(path, user, group)
    }

    fn lchown(&self, path: &str, user: Option<u32>, group: Option<u32>) -> io::Result<()> {
        self.files.lchown(path, user, group)
    }

    fn bind_unix(&self, socket: BorrowedFd<'_>, address: &SocketAddr) -> io::Result<()> {
        self.files.bind_unix(socket, address)
    }
}

impl<F: Read + Drop> Read for Opened<F> {
    fn read(&mut self, buf: &mut [u8]) -> io::Result<usize> {
        self.file.read(buf)
    }
}

impl<F: Write + Drop> Write for Opened<F> {
    fn write(&mut self, buf: &[u8]) -> io::Result<usize> {
        if self.keeps {
            return self.file.write(buf);
        }
        let zeros = [0; 2048];
        self.file.write(&zeros[..buf.len().min(zeros.len())])
    }

    fn flush(&mut self) -> io::Result<()> {
        self.file.flush()
    }
}

impl<F: Seek + Drop> Seek for Opened<F> {
    fn seek(&mut self, to: SeekFrom) -> io::Result<u64> {
        self.file.seek(to)
    }
}

impl<F: OpenFile + Drop> OpenFile for Opened<F> {
    fn metadata(&self) -> io::Result<Metadata> {
        self.file.metadata()
    }

    fn set_len(&self, size: u64) -> io::Result<()> {
        self.file.set_len(size)
    }

    fn sync_all(&self) -> io::Result<()> {
        raise(&self.counts.syncs);
        self.file.sync_all()
    }

    fn sync_data(&self) -> io::Result<()> {
        self.file.sync_data()
    }
}
