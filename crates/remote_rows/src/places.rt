// Files, folders and links below the test's own folder, and pipes.
use provider_wire::Link;
use remote_adapters::PipeLink;
use std::alloc::{Alloc, Global};
use std::fs::{self, Files};
use std::io::{self, PipeReader, PipeWriter, pipe};
use std::os::unix::fs::symlink;
use std::os::unix::io::{AsRawFd, RawFd};

/// The ends that a link is to open: that of its requests and that of the answers.
pub type Ends = (PipeWriter, PipeReader);

/// The two pipes of a link: the ends that the link is to open, and those of the far end.
#[derive(Drop)]
pub struct Pipes {
    pub requests: PipeReader,
    pub answers: PipeWriter,
    own_requests: PipeWriter,
    own_answers: PipeReader,
}

impl Pipes {
    /// Makes them.
    pub fn new(rt: &HostRuntime) -> io::Result<Pipes> {
        let (requests, own_requests) = pipe(rt)?;
        let (own_answers, answers) = pipe(rt)?;
        Ok(Pipes {
            requests,
            answers,
            own_requests,
            own_answers,
        })
    }

    /// Makes a folder whose links lead to the ends that the link is to open.
    pub fn name(&self, rt: &HostRuntime, folder: &str) -> io::Result<()> {
        fs::create_dir(rt, folder)?;
        descriptor(rt, folder, "requests", self.own_requests.as_raw_fd())?;
        descriptor(rt, folder, "answers", self.own_answers.as_raw_fd())
    }

    /// What is left to the far end: its two ends.
    pub fn far(self) -> (PipeReader, PipeWriter) {
        (self.requests, self.answers)
    }

    /// What is left where the far end goes: the ends that the link is to open.
    pub fn own(self) -> Ends {
        (self.own_requests, self.own_answers)
    }
}

/// Makes a link to an open descriptor in a folder.
fn descriptor(rt: &HostRuntime, folder: &str, name: &str, number: RawFd) -> io::Result<()> {
    let path = format!(in rt.alloc(); "{folder}/{name}")?;
    let target = format!(in rt.alloc(); "/dev/fd/{number}")?;
    symlink(rt, &target, &path)
}

/// A link over the pipes that a folder names.
pub fn link(rt: &HostRuntime, alloc: Global, folder: &str) -> Option<PipeLink> {
    PipeLink::new(rt, alloc, folder).ok()
}

/// Whether bytes are sent.
pub fn sends<L: Link>(link: &mut L, bytes: &[u8]) -> bool {
    link.send(bytes).is_ok()
}

/// Whether these bytes are received next, at most eight.
pub fn receives<L: Link>(link: &mut L, wanted: &[u8]) -> bool {
    let mut out = [0; 8];
    match link.receive(&mut out) {
        Ok(count) => out.get(..count) == Some(wanted),
        Err(_) => false,
    }
}

/// Whether nothing is sent or received any more.
pub fn has_failed<L: Link>(link: &mut L) -> bool {
    let mut out = [0; 8];
    link.send(b"x").is_err() && link.receive(&mut out).is_err()
}
