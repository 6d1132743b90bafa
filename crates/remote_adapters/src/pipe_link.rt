ghost use Rattle.std.specs.Prelude.{◌≡◌, ◌≤◌, ◌<◌, None, length, IfOk, OnOk, OnErr, IsErr};
ghost use Rattle.device_defs.specs.Faults.{one_more};

use crate::pipe_end::PipeEnd;
use provider_wire::Link;
use std::alloc::Global;
use std::io::{self, ErrorKind};
use std::marker::Model;
use stream_model::{Failed, Memory};

/// A link over two pipes that hail got when it was started, seen in contracts as its count of faults. It tells
/// nothing of what is behind it. Each pipe is opened at its first use, and kept open. Behind a call that failed
/// each call fails.
#[derive(Drop)]
pub struct PipeLink {
    rt: HostRuntime,
    alloc: Global,
    requests: PipeEnd<HostRuntime>,
    answers: PipeEnd<HostRuntime>,
    faults: u64,
}

impl Model for PipeLink {
    ghost use Rattle.std.specs.Prelude.{ℕ};

    ghost Value = { ℕ };

    ghost view = { λ link. link.faults };
}

impl PipeLink {
    /// A link over the pipes that `requests` and `answers` in a folder lead to. Opens nothing; want of memory
    /// is its one refusal.
    pub fn new(rt: &HostRuntime, alloc: Global, folder: &str) -> Result<PipeLink, Memory>
        ensures { IfOk result (λ link. link ≡ 0) }
    {
        Ok(PipeLink {
            rt: rt.clone()?,
            alloc,
            requests: PipeEnd::new(alloc, folder, "requests")?,
            answers: PipeEnd::new(alloc, folder, "answers")?,
            faults: 0,
        })
    }

    /// No call failed.
    fn is_sound(&self) -> io::Result<()>
        ensures { 0 < self.now → IsErr result }
    {
        if self.faults > 0 {
            return Err(ErrorKind::Other.into());
        }
        Ok(())
    }

    /// Writes the bytes of a request, if they may be.
    fn try_send(&mut self, bytes: &[u8]) -> io::Result<()>
        ensures same { self.new ≡ self.old }
        ensures broken { 0 < self.old → IsErr result }
    {
        self.is_sound()?;
        self.requests.write(&self.rt, self.alloc, bytes)
    }

    /// Reads some bytes of an answer, if they may be.
    fn try_receive(&mut self, out: &mut [u8]) -> io::Result<usize>
        ensures same { self.new ≡ self.old }
        ensures at_most { IfOk result (λ n. n ≤ length out.old) }
        ensures broken { 0 < self.old → IsErr result }
    {
        self.is_sound()?;
        self.answers.read(&self.rt, self.alloc, out)
    }

    /// Counts a fault; the count stays at its last value.
    fn fail(&mut self) -> Failed
        ensures { self.new ≡ one_more self.old }
    {
        self.faults = self.faults.saturating_add(1);
        Failed
    }
}

impl Link for PipeLink {
    ghost behind = { λ _. None };

    ghost faults = { λ link. link };

    fn send(&mut self, bytes: &[u8]) -> Result<(), Failed>
        ensures ok { OnOk result (self.new ≡ self.old) }
        ensures failed { OnErr result (self.new ≡ one_more self.old) }
        ensures broken { 0 < self.old → IsErr result }
    {
        match self.try_send(bytes) {
            Ok(()) => Ok(()),
            Err(_) => Err(self.fail()),
        }
    }

    fn receive(&mut self, out: &mut [u8]) -> Result<usize, Failed>
        ensures at_most { IfOk result (λ n. n ≤ length out.old) }
        ensures ok { OnOk result (self.new ≡ self.old) }
        ensures failed { OnErr result (self.new ≡ one_more self.old) }
        ensures broken { 0 < self.old → IsErr result }
    {
        match self.try_receive(out) {
            Ok(count) => Ok(count),
            Err(_) => Err(self.fail()),
        }
    }
}
