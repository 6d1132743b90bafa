// What far ends and folders still owe to a command.
ghost use Rattle.std.specs.Prelude.{◌≡◌, ℕ, Ok, Err, Some, None, IfOk, OnOk};

use crate::remotes::Remotes;
use hail_adapters::ProviderFolders;
use std::fs::Files;

/// The answers that far ends owe to stores, and the folders whose names are not on the medium yet; and the
/// provider that failed to bring its own, if one did.
#[derive(Drop)]
pub struct Owed<R: Files + Clone + Drop> {
    remotes: Remotes,
    folders: ProviderFolders<R>,
    failed: Option<u8>,
}

impl<R: Files + Clone + Drop> Owed<R> {
    /// No provider failed yet.
    pub fn new(remotes: Remotes, folders: ProviderFolders<R>) -> Owed<R>
        ensures { result.failed ≡ None }
    {
        Owed {
            remotes,
            folders,
            failed: None,
        }
    }

    /// The provider that failed, if one did.
    pub fn failed(&self) -> Option<u8>
        ensures { result ≡ self.now.failed }
    {
        self.failed
    }

    /// Waits until each far end has answered all stores, and brings the marked folders to the medium. Names
    /// the first provider for which that fails.
    fn try_bring(&mut self) -> Result<(), u8>
        ensures { self.new.failed ≡ self.old.failed }
    {
        self.remotes.settle()?;
        match self.folders.sync() {
            Ok(()) => Ok(()),
            Err(_) => Err(self.folders.left.unwrap_or(0)),
        }
    }

    /// The same. Where it failed once, nothing is tried again, and the same provider is named.
    pub fn bring(&mut self) -> Result<(), u8>
        ensures ok { OnOk result (self.old.failed ≡ None) }
        ensures same { OnOk result (self.new.failed ≡ None) }
        ensures failed { (number : ℕ) → result ≡ Err number → self.new.failed ≡ Some number }
        ensures stays { (number : ℕ) → self.old.failed ≡ Some number → self.new.failed ≡ Some number }
    {
        if let Some(number) = self.failed {
            return Err(number);
        }
        let brought = self.try_bring();
        self.failed = brought.err();
        brought
    }
}
