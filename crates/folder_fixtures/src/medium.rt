ghost use Rattle.std.specs.Prelude.{◌≤◌, length, IfOk};

use std::alloc::Global;
use std::fs::{Metadata, OpenOptions};
use std::io::{self, ErrorKind};

/// The number of the home's folder, which is always there.
const HOME: usize = 0;

/// A file or a folder: its bytes as they were written, and as the medium has them. One that keeps nothing says
/// yes to each write, and has zeros then.
#[derive(Drop)]
struct Node {
    is_folder: bool,
    is_kept: bool,
    written: Vec<u8>,
    firm: Vec<u8>,
}

/// A name in a folder: which node it names as the calls were made, and as the medium has it.
#[derive(Drop)]
struct Name {
    path: String,
    folder: usize,
    now: Option<usize>,
    firm: Option<usize>,
}

/// How much of a file's unsynced bytes stays.
#[derive(Clone, Copy)]
pub enum Part {
    Nothing,
    Half,
    All,
}

/// What stays of unsynced changes when the power is cut: whether the names in folders do, and how much of the
/// bytes of files.
#[derive(Clone, Copy)]
pub struct Stays {
    pub names: bool,
    pub bytes: Part,
}

/// All that was not synced stays.
pub const ALL: Stays = Stays {
    names: true,
    bytes: Part::All,
};

/// Unsynced names stay or go, and unsynced bytes stay, or half of them where the names stay, or go.
pub const CUTS: [Stays; 5] = [
    Stays {
        names: false,
        bytes: Part::Nothing,
    },
    Stays {
        names: false,
        bytes: Part::All,
    },
    Stays {
        names: true,
        bytes: Part::Nothing,
    },
    Stays {
        names: true,
        bytes: Part::Half,
    },
    ALL,
];

/// A file system in memory that keeps what was written apart from what was synced. A name is on the medium
/// once its folder is synced, a file's bytes once the file is. Its power is cut behind so many calls that
/// change something: each call after them fails. Files that are made while it keeps nothing keep nothing.
#[derive(Drop)]
pub struct Medium {
    alloc: Global,
    nodes: Vec<Node>,
    names: Vec<Name>,
    calls_left: u64,
    keeps: bool,
}

/// A call that changes something and gives nothing.
#[derive(Clone, Copy)]
pub enum Change<'a> {
    MakeFolder(&'a str),
    Rename(&'a str, &'a str),
    Remove(&'a str),
    Write(usize, usize, &'a [u8]),
    SetLen(usize, usize),
    Sync(usize),
}

/// What a call answers whose power is cut.
fn no_power() -> io::Error {
    ErrorKind::Other.into()
}

/// What a call answers that finds nothing.
fn missing() -> io::Error {
    ErrorKind::NotFound.into()
}

/// What came of an allocation, as a call answers it.
pub fn kept<T, E: Drop>(made: Result<T, E>) -> io::Result<T> {
    match made {
        Ok(value) => Ok(value),
        Err(_) => Err(ErrorKind::OutOfMemory.into()),
    }
}

/// A path without the slash at its end.
fn trimmed(path: &str) -> &str {
    path.strip_suffix('/').unwrap_or(path)
}

/// The folder that a path leads through to its last name.
fn folder_of(path: &str) -> &str {
    match path.rsplit_once('/') {
        Some((folder, _)) => folder,
        None => "",
    }
}

/// These bytes with others written over them from an offset on, where zero bytes fill a gap.
fn overwritten(alloc: Global, old: &[u8], at: usize, bytes: &[u8]) -> io::Result<Vec<u8>> {
    let front = at.min(old.len());
    let mut new = kept(Vec::from_slice(alloc, &old[..front]))?;
    kept(new.resize(at, 0))?;
    kept(new.extend_from_slice(bytes))?;
    if let Some(rest) = old.get(new.len()..) {
        kept(new.extend_from_slice(rest))?;
    }
    Ok(new)
}

/// How many bytes both begin with.
fn same_at_front(a: &[u8], b: &[u8]) -> usize {
    let mut same = 0usize;
    for (x, y) in a.iter().zip(b.iter()) {
        if x != y {
            return same;
        }
        same = same.saturating_add(1);
    }
    same
}

/// The bytes of a file that was cut half-way through what it has that is new.
fn torn(alloc: Global, firm: &[u8], written: &[u8]) -> io::Result<Vec<u8>> {
    let same = same_at_front(firm, written).min(written.len());
    let cut = same + (written.len() - same) / 2;
    overwritten(alloc, firm, 0, &written[..cut])
}

impl Node {
    fn new(alloc: Global, is_folder: bool, is_kept: bool) -> Node {
        Node {
            is_folder,
            is_kept,
            written: Vec::new(alloc),
            firm: Vec::new(alloc),
        }
    }

    /// Writes from an offset on.
    fn write(&mut self, alloc: Global, at: usize, bytes: &[u8]) -> io::Result<()> {
        let mut written = overwritten(alloc, &self.written, at, bytes)?;
        if !self.is_kept {
            written.fill(0);
        }
        self.written = written;
        Ok(())
    }

    /// Brings the bytes to the medium.
    fn sync(&mut self, alloc: Global) -> io::Result<()> {
        self.firm = kept(Vec::from_slice(alloc, &self.written))?;
        Ok(())
    }

    /// The bytes of the node as they are found behind a cut.
    fn left(&self, alloc: Global, part: Part) -> io::Result<Vec<u8>> {
        match part {
            Part::Nothing => kept(Vec::from_slice(alloc, &self.firm)),
            Part::Half => torn(alloc, &self.firm, &self.written),
            Part::All => kept(Vec::from_slice(alloc, &self.written)),
        }
    }

    /// The node as it is found behind a cut.
    fn after_cut(&self, alloc: Global, stays: Stays) -> io::Result<Node> {
        Ok(Node {
            is_folder: self.is_folder,
            is_kept: self.is_kept,
            written: self.left(alloc, stays.bytes)?,
            firm: self.left(alloc, stays.bytes)?,
        })
    }
}

impl Name {
    /// A name for a path, as the calls and the medium have it.
    fn new(
        alloc: Global,
        path: &str,
        folder: usize,
        now: Option<usize>,
        firm: Option<usize>,
    ) -> io::Result<Name> {
        let path = kept(String::from_str(alloc, path))?;
        Ok(Name {
            path,
            folder,
            now,
            firm,
        })
    }

    /// The same name for this node, as the calls and the medium have it.
    fn naming(&self, alloc: Global, node: usize) -> io::Result<Name> {
        let path = self.path.as_str();
        Name::new(alloc, path, self.folder, Some(node), Some(node))
    }

    /// What the name names behind a cut.
    fn after_cut(&self, stays: Stays) -> Option<usize> {
        if stays.names { self.now } else { self.firm }
    }
}

impl Medium {
    /// A medium on which a folder `home` is. Its power is not cut.
    pub fn new(alloc: Global) -> io::Result<Medium> {
        let mut nodes = Vec::new(alloc);
        kept(nodes.push(Node::new(alloc, true, true)))?;
        let mut names = Vec::new(alloc);
        let home = Name::new(alloc, "home", HOME, Some(HOME), Some(HOME))?;
        kept(names.push(home))?;
        Ok(Medium {
            alloc,
            nodes,
            names,
            calls_left: u64::MAX,
            keeps: true,
        })
    }

    /// From now on files that are made keep what is written to them, or nothing.
    pub fn set_keeping(&mut self, keeps: bool) {
        self.keeps = keeps;
    }

    /// From now on the power is cut behind so many calls that change something.
    pub fn cut_after(&mut self, calls: u64) {
        self.calls_left = calls;
    }

    /// How many calls may still change something.
    pub fn calls_left(&self) -> u64 {
        self.calls_left
    }

    /// Refuses a call behind the cut.
    fn powered(&self) -> io::Result<()> {
        if self.calls_left == 0 {
            return Err(no_power());
        }
        Ok(())
    }

    /// Counts a call that changes something.
    fn turn(&mut self) -> io::Result<()> {
        self.calls_left = self.calls_left.checked_sub(1).ok_or(no_power())?;
        Ok(())
    }

    /// The node that a path names.
    pub fn find(&self, path: &str) -> Option<usize> {
        let path = trimmed(path);
        for name in self.names.iter() {
            if name.path.as_str() == path {
                return name.now;
            }
        }
        None
    }

    /// The bytes of a file as they were written.
    fn bytes_at(&self, path: &str) -> Option<&[u8]> {
        let node = self.nodes.get(self.find(path)?)?;
        if node.is_folder {
            return None;
        }
        Some(&node.written)
    }

    /// Whether both have a file with some bytes at this path, and the same.
    pub fn has_same(&self, other: &Medium, path: &str) -> bool {
        match (self.bytes_at(path), other.bytes_at(path)) {
            (Some(bytes), Some(others)) => bytes.len() > 0 && bytes == others,
            _ => false,
        }
    }

    /// Lets a path that has named something name a node, or nothing; says whether there is such a path.
    fn point_again(&mut self, path: &str, node: Option<usize>) -> bool {
        for name in self.names.iter_mut() {
            if name.path.as_str() == path {
                name.now = node;
                return true;
            }
        }
        false
    }

    /// Lets a path name a node, or nothing.
    fn point(&mut self, path: &str, node: Option<usize>) -> io::Result<()> {
        let folder = self.find(folder_of(path)).ok_or(missing())?;
        if self.point_again(path, node) {
            return Ok(());
        }
        let name = Name::new(self.alloc, path, folder, node, None)?;
        kept(self.names.push(name))
    }

    /// Makes an empty file or a folder, and gives its node.
    fn make(&mut self, path: &str, is_folder: bool) -> io::Result<usize> {
        if self.find(path).is_some() {
            return Err(ErrorKind::AlreadyExists.into());
        }
        self.find(folder_of(path)).ok_or(missing())?;
        self.turn()?;
        let node = self.nodes.len();
        kept(
            self.nodes
                .push(Node::new(self.alloc, is_folder, self.keeps)),
        )?;
        self.point(path, Some(node))?;
        Ok(node)
    }

    /// Makes a folder.
    fn make_folder(&mut self, path: &str) -> io::Result<()> {
        self.make(path, true)?;
        Ok(())
    }

    /// Opens what is at a path, or makes it where this is asked for, and gives its node.
    pub fn open(&mut self, how: &OpenOptions, path: &str) -> io::Result<usize> {
        self.powered()?;
        match self.find(path) {
            Some(_) if how.asks_create_new() => Err(ErrorKind::AlreadyExists.into()),
            Some(node) if how.asks_truncate() => {
                self.set_len(node, 0)?;
                Ok(node)
            }
            Some(node) => Ok(node),
            None if how.asks_create() || how.asks_create_new() => self.make(path, false),
            None => Err(missing()),
        }
    }

    /// Makes a call that changes something.
    pub fn change(&mut self, change: Change<'_>) -> io::Result<()> {
        match change {
            Change::MakeFolder(path) => self.make_folder(path),
            Change::Rename(from, to) => self.rename(from, to),
            Change::Remove(path) => self.remove(path),
            Change::Write(node, at, bytes) => self.write(node, at, bytes),
            Change::SetLen(node, len) => self.set_len(node, len),
            Change::Sync(node) => self.sync(node),
        }
    }

    /// What is told of a node.
    pub fn metadata(&self, node: usize) -> io::Result<Metadata> {
        self.powered()?;
        match self.nodes.get(node) {
            Some(node) if node.is_folder => Ok(Metadata::of_dir()),
            Some(node) => Ok(Metadata::of_file(node.written.len() as u64)),
            None => Err(missing()),
        }
    }

    /// What is told of the node at a path.
    pub fn metadata_at(&self, path: &str) -> io::Result<Metadata> {
        self.metadata(self.find(path).ok_or(missing())?)
    }

    /// Gives the node at a path another path, which it takes from whatever has it.
    fn rename(&mut self, from: &str, to: &str) -> io::Result<()> {
        let node = self.find(from).ok_or(missing())?;
        self.turn()?;
        self.point(to, Some(node))?;
        self.point(from, None)
    }

    /// Takes a name away. Where there is none nothing changes.
    fn remove(&mut self, path: &str) -> io::Result<()> {
        self.powered()?;
        self.find(path).ok_or(missing())?;
        self.turn()?;
        self.point(path, None)
    }

    /// Reads from an offset on, as much as fits or is there.
    pub fn read(&self, node: usize, at: usize, out: &mut [u8]) -> io::Result<usize>
        ensures { IfOk result (λ n. n ≤ length out.old) }
    {
        self.powered()?;
        let node = self.nodes.get(node).ok_or(missing())?;
        let rest = node.written.get(at..).unwrap_or(&[]);
        let n = rest.len().min(out.len());
        out[..n].copy_from_slice(&rest[..n]);
        Ok(n)
    }

    /// Writes from an offset on.
    fn write(&mut self, node: usize, at: usize, bytes: &[u8]) -> io::Result<()> {
        self.turn()?;
        match self.nodes.get_mut(node) {
            Some(node) => node.write(self.alloc, at, bytes),
            None => Err(missing()),
        }
    }

    /// Gives a file this length, where zero bytes fill a gap.
    fn set_len(&mut self, node: usize, len: usize) -> io::Result<()> {
        self.turn()?;
        match self.nodes.get_mut(node) {
            Some(node) => kept(node.written.resize(len, 0)),
            None => Err(missing()),
        }
    }

    /// Brings to the medium the names in a folder.
    fn sync_names(&mut self, folder: usize) {
        for name in self.names.iter_mut() {
            if name.folder == folder {
                name.firm = name.now;
            }
        }
    }

    /// Brings to the medium the bytes of a file, or the names in a folder.
    fn sync(&mut self, node: usize) -> io::Result<()> {
        self.turn()?;
        self.sync_names(node);
        match self.nodes.get_mut(node) {
            Some(node) => node.sync(self.alloc),
            None => Err(missing()),
        }
    }

    /// Whether a node is found behind a cut.
    fn is_left(&self, node: usize, stays: Stays) -> bool {
        for name in self.names.iter() {
            if name.after_cut(stays) == Some(node) {
                return true;
            }
        }
        false
    }

    /// The files and folders as they are found behind a cut.
    fn nodes_left(&self, stays: Stays) -> io::Result<Vec<Node>> {
        let mut left = Vec::new(self.alloc);
        for node in self.nodes.iter() {
            kept(left.push(node.after_cut(self.alloc, stays)?))?;
        }
        Ok(left)
    }

    /// The node that a name names behind a cut, where its folder is found.
    fn node_left(&self, name: &Name, stays: Stays) -> Option<usize> {
        let node = name.after_cut(stays)?;
        if !self.is_left(name.folder, stays) {
            return None;
        }
        Some(node)
    }

    /// The names as they are found behind a cut.
    fn names_left(&self, stays: Stays) -> io::Result<Vec<Name>> {
        let mut left = Vec::new(self.alloc);
        for name in self.names.iter() {
            if let Some(node) = self.node_left(name, stays) {
                kept(left.push(name.naming(self.alloc, node)?))?;
            }
        }
        Ok(left)
    }

    /// The medium as it is found behind a cut, with power again.
    pub fn after_cut(&self, stays: Stays) -> io::Result<Medium> {
        let nodes = self.nodes_left(stays)?;
        let names = self.names_left(stays)?;
        Ok(Medium {
            alloc: self.alloc,
            nodes,
            names,
            calls_left: u64::MAX,
            keeps: self.keeps,
        })
    }
}
