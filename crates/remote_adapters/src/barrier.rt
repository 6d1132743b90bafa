// What a record of the journal and a line of the output come behind.
ghost use Rattle.std.specs.Prelude.{◌≡◌, IfOk, OnOk, OnErr, IsErr};
ghost use Rattle.remote_adapters.specs.Passes.{not_met, with_pass, with_stop, HasFailed};

use crate::owed::Owed;
use crate::remotes::Remotes;
use hail_adapters::ProviderFolders;
use std::alloc::{AllocError, Global};
use std::cell::RefCell;
use std::fs::Files;
use std::marker::Model;
use std::rc::Rc;
use stream_model::Memory;

/// The one barrier of a home, seen in contracts as its counts of passes and of stops. It is passed only where
/// each far end said yes to each store, and each folder that was stored to is on the medium. One that was not
/// passed is not passed any more, by none who share it.
///
/// The disk of the home passes it before each write, the sink before each piece of output, and a command at
/// its end: so nothing that was recorded, told or answered rests on a store that may be gone.
#[derive(Drop)]
pub struct Barrier<R: Files + Clone + Drop> {
    owed: Rc<RefCell<Owed<R>>>,
    passed: u64,
    stopped: u64,
}

impl<R: Files + Clone + Drop> Model for Barrier<R> {
    ghost use Rattle.remote_adapters.specs.Passes.{Passes};

    ghost Value = { Passes };

    ghost view = { λ barrier. record { passed = barrier.passed; stopped = barrier.stopped } };
}

impl<R: Files + Clone + Drop> Barrier<R> {
    /// A barrier for what these far ends and folders are to bring. Want of memory is its one refusal.
    pub fn new(
        alloc: Global,
        remotes: &Remotes,
        folders: ProviderFolders<R>,
    ) -> Result<Barrier<R>, Memory>
        ensures { IfOk result (λ barrier. barrier ≡ not_met) }
    {
        let owed = RefCell::new(Owed::new(remotes.share()?, folders));
        Ok(Barrier {
            owed: Rc::new(alloc, owed).map_err(AllocError::from)?,
            passed: 0,
            stopped: 0,
        })
    }

    /// The same barrier, for another holder, whose counts begin anew.
    pub fn share(&self) -> Result<Barrier<R>, Memory>
        ensures { IfOk result (λ barrier. barrier ≡ not_met) }
    {
        Ok(Barrier {
            owed: self.owed.clone()?,
            passed: 0,
            stopped: 0,
        })
    }

    /// The provider for which it was not passed, by whomever.
    pub fn failed(&self) -> Option<u8> {
        match self.owed.try_borrow() {
            Ok(owed) => owed.failed(),
            Err(_) => None,
        }
    }

    /// Brings what is owed, if it was passed each time before.
    fn try_pass(&self) -> Result<(), u8>
        ensures { HasFailed self.now → IsErr result }
    {
        match self.owed.try_borrow_mut() {
            Ok(mut owed) if self.stopped == 0 => owed.bring(),
            Ok(owed) => Err(owed.failed().unwrap_or(0)),
            Err(_) => Err(0),
        }
    }

    /// Waits until each far end has answered all stores, and brings the marked folders to the medium. Where
    /// one did not say yes to each, or a folder can't be brought there, it names the first such provider, the
    /// far ends before the folders, and names it ever again.
    pub fn pass(&mut self) -> Result<(), u8>
        ensures ok { OnOk result (self.new ≡ with_pass self.old) }
        ensures stopped { OnErr result (self.new ≡ with_stop self.old) }
        ensures stays { HasFailed self.old → IsErr result }
    {
        let passed = self.try_pass();
        if passed.is_ok() {
            self.passed = self.passed.saturating_add(1);
        } else {
            self.stopped = self.stopped.saturating_add(1);
        }
        passed
    }
}
