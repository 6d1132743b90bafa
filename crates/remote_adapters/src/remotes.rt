// The remote providers of a home, for which its barrier waits.
ghost use Rattle.std.specs.Prelude.{◌≡◌, ◌≤◌, None, length, true, IfOk, OnOk, OnErr, IsErr, IsTrue};
ghost use Rattle.device_defs.specs.Faults.{one_more};

use crate::ahead::AheadLink;
use crate::pipe_link::PipeLink;
use file_parts::found::is_taken;
use provider_wire::Link;
use std::alloc::{AllocError, Global};
use std::cell::RefCell;
use std::fs;
use std::marker::Model;
use std::rc::Rc;
use stream_model::{Failed, Memory};

/// What is known of a provider that is remote.
type Remote = RefCell<AheadLink<PipeLink>>;

/// The link to the provider of this number, if something stands at `remote-J` in the home and nothing at
/// `stack-J`. Opens nothing.
fn remote(
    rt: &HostRuntime,
    alloc: Global,
    home: &str,
    number: u8,
) -> Result<Option<Remote>, Memory> {
    let path = format!(in alloc; "{home}/remote-{number}")?;
    let stack = format!(in alloc; "{home}/stack-{number}")?;
    if !is_taken(fs::symlink_metadata(rt, &path)) || is_taken(fs::symlink_metadata(rt, &stack)) {
        return Ok(None);
    }
    let link = PipeLink::new(rt, alloc, &path)?;
    Ok(Some(RefCell::new(AheadLink::new(alloc, link)?)))
}

/// The links to the remote providers of a home, by number: those where something stands at `remote-J` in the
/// home and nothing at `stack-J`. They are shared by the providers of the home and its barrier.
#[derive(Drop)]
pub struct Remotes {
    links: Rc<Vec<Option<Remote>>>,
}

impl Remotes {
    /// Looks which providers are remote, and opens nothing. Want of memory is its one refusal.
    pub fn new(rt: &HostRuntime, alloc: Global, home: &str) -> Result<Remotes, Memory> {
        let mut links = Vec::new(alloc);
        for number in 0..16u8 {
            let link = remote(rt, alloc, home, number)?;
            links.push(link).map_err(AllocError::from)?;
        }
        Remotes::of(alloc, links)
    }

    /// No provider is remote. Want of memory is its one refusal.
    pub fn none(alloc: Global) -> Result<Remotes, Memory> {
        Remotes::of(alloc, Vec::new(alloc))
    }

    /// Those over these links.
    fn of(alloc: Global, links: Vec<Option<Remote>>) -> Result<Remotes, Memory> {
        Ok(Remotes {
            links: Rc::new(alloc, links).map_err(AllocError::from)?,
        })
    }

    /// The same, for another holder.
    pub fn share(&self) -> Result<Remotes, Memory> {
        Ok(Remotes {
            links: self.links.clone()?,
        })
    }

    /// The link of a number, if its provider is remote.
    fn get(&self, number: usize) -> Option<&Remote> {
        match self.links.get(number) {
            Some(Some(link)) => Some(link),
            _ => None,
        }
    }

    /// Whether the provider of a number is remote.
    pub fn is_remote(&self, number: usize) -> bool {
        self.get(number).is_some()
    }

    /// Sends a request to the far end of a number.
    fn send(&self, number: usize, request: &[u8]) -> Result<(), Failed> {
        let link = self.get(number).ok_or(Failed)?;
        let spreads = link.try_borrow_mut().map_err(|_| Failed)?.send(request)?;
        if spreads {
            self.send_ahead(number, request);
        }
        Ok(())
    }

    /// Sends the other far ends what they are likely to be asked next.
    fn send_ahead(&self, number: usize, request: &[u8]) {
        for other in 0..self.links.len() {
            if other != number {
                self.send_ahead_to(other, request);
            }
        }
    }

    /// Sends one of them what it is likely to be asked next.
    fn send_ahead_to(&self, number: usize, request: &[u8]) {
        if let Some(link) = self.get(number) {
            if let Ok(mut link) = link.try_borrow_mut() {
                link.send_ahead(request);
            }
        }
    }

    /// Receives some of the answer from the far end of a number.
    fn receive(&self, number: usize, out: &mut [u8]) -> Result<usize, Failed>
        ensures { IfOk result (λ n. n ≤ length out.old) }
    {
        let link = self.get(number).ok_or(Failed)?;
        link.try_borrow_mut().map_err(|_| Failed)?.receive(out)
    }

    /// Whether the far end of a number said yes to each store.
    fn is_settled(&self, number: usize) -> bool {
        match self.get(number) {
            Some(link) => match link.try_borrow_mut() {
                Ok(mut link) => link.settle().is_ok(),
                Err(_) => false,
            },
            None => true,
        }
    }

    /// Waits until each far end has answered all stores. An error is the first that did not say yes to each.
    pub fn settle(&self) -> Result<(), u8> {
        for number in 0..16u8 {
            if !self.is_settled(usize::from(number)) {
                return Err(number);
            }
        }
        Ok(())
    }

    /// Reads the answers that are due of a number.
    fn finish_one(&self, number: usize) {
        if let Some(link) = self.get(number) {
            if let Ok(mut link) = link.try_borrow_mut() {
                link.finish();
            }
        }
    }

    /// Reads all answers that are due, so that each far end finds a reader for what it says.
    pub fn finish(&self) {
        for number in 0..self.links.len() {
            self.finish_one(number);
        }
    }
}

/// A link to the far end of one of a home's remote providers, seen in contracts as its count of faults. It
/// tells nothing of what is behind it.
#[derive(Drop)]
pub struct RemoteLink {
    remotes: Remotes,
    number: usize,
    faults: u64,
}

impl Model for RemoteLink {
    ghost use Rattle.std.specs.Prelude.{ℕ};

    ghost Value = { ℕ };

    ghost view = { λ link. link.faults };
}

impl RemoteLink {
    /// The link to the provider of a number. Want of memory is its one refusal.
    pub fn new(remotes: &Remotes, number: usize) -> Result<RemoteLink, Memory>
        ensures { IfOk result (λ link. link ≡ 0) }
    {
        Ok(RemoteLink {
            remotes: remotes.share()?,
            number,
            faults: 0,
        })
    }

    /// Counts a fault; the count stays at its last value.
    fn fail(&mut self) -> Failed
        ensures { self.new ≡ one_more self.old }
    {
        self.faults = self.faults.saturating_add(1);
        Failed
    }
}

impl Link for RemoteLink {
    ghost behind = { λ _. None };

    ghost faults = { λ link. link };

    fn send(&mut self, bytes: &[u8]) -> Result<(), Failed>
        ensures ok { OnOk result (self.new ≡ self.old) }
        ensures failed { OnErr result (self.new ≡ one_more self.old) }
    {
        match self.remotes.send(self.number, bytes) {
            Ok(()) => Ok(()),
            Err(_) => Err(self.fail()),
        }
    }

    fn receive(&mut self, out: &mut [u8]) -> Result<usize, Failed>
        ensures at_most { IfOk result (λ n. n ≤ length out.old) }
        ensures ok { OnOk result (self.new ≡ self.old) }
        ensures failed { OnErr result (self.new ≡ one_more self.old) }
    {
        match self.remotes.receive(self.number, out) {
            Ok(count) => Ok(count),
            Err(_) => Err(self.fail()),
        }
    }
}
