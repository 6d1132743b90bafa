ghost use Rattle.std.specs.Prelude.{◌≡◌, ◌≤◌, ◌⊎◌, ◌↔◌, None, Ok, false, length, IfOk, OnOk, OnErr, IsErr, IsErrOf, IsTrue};
ghost use Rattle.provider_model.specs.declared.fault.StoreFault.TheVariants as store_fault;
ghost use Rattle.hail_adapters.specs.FolderCounts.{fresh_counts, with_store_fault, with_other_fault, with_answer, with_fetch, with_call, IsGivenUp};

use crate::asked_folder::AskedFolder;
use crate::folder::Folder;
use crate::form::Form;
use challenge::Challenge;
use file_parts::tried::{tried, tried_writing};
use file_parts::unsynced::{Mark, Unsynced};
use hail_field::{Memory, Symbol};
use provider_model::{Provider, StoreFault, Tamper};
use stack_adapters::Stack;
use std::alloc::Global;
use std::fs::Files;
use std::io::{self, ErrorKind};
use std::marker::Model;
use stream_model::{Failed, WriteFault};

/// So many calls that failed one behind the other are the last for which the folder is looked at.
const MOST_FAILED: u64 = 8;

/// A folder as a provider, seen in contracts as its counts. It tells nothing of what it holds. The block of
/// object I and stripe S is the file `I-S` in it, 16 bytes a symbol, or where it is a stack a place in the file
/// `I`. Behind eight calls in a row that failed
/// the folder is not looked at any more, and each call fails: else each block of a provider that does not
/// answer would be waited for. A block that is not there is no failure. An answer to a challenge goes by the
/// files, but for up to eight blocks that the answers right before it, about the same object, have read: so
/// the rounds of an audit read a small file once, where there is memory to keep its blocks. Any other call and
/// a failing one drop them.
#[derive(Drop)]
pub struct FolderProvider<R: Files + Clone + Drop> {
    folder: AskedFolder<R>,
    store_faults: u64,
    other_faults: u64,
    fetches: u64,
    calls: u64,
    failed_in_a_row: u64,
}

impl<R: Files + Clone + Drop> Model for FolderProvider<R> {
    ghost use Rattle.hail_adapters.specs.FolderCounts.{FolderCounts};

    ghost Value = { FolderCounts };

    ghost view = { λ provider. record {
      store_faults = provider.store_faults;
      other_faults = provider.other_faults;
      fetches = provider.fetches;
      calls = provider.calls;
      failed_in_a_row = provider.failed_in_a_row;
    } };
}

impl<R: Files + Clone + Drop> FolderProvider<R> {
    /// The folder at this path, which the first store makes, with a file for each block. Each store syncs it.
    /// Opens nothing; want of memory is its one refusal.
    pub fn new(rt: &R, alloc: Global, path: &str) -> Result<FolderProvider<R>, Memory>
        ensures { IfOk result (λ provider. provider ≡ fresh_counts) }
    {
        let folder = Folder::new(rt, alloc, path, None)?;
        Ok(FolderProvider::of(alloc, Form::Plain(folder)))
    }

    /// The same, where a store sets this mark in place of the sync of the folder.
    pub fn marking(
        rt: &R,
        alloc: Global,
        path: &str,
        mark: Mark<R::File>,
    ) -> Result<FolderProvider<R>, Memory>
        ensures { IfOk result (λ provider. provider ≡ fresh_counts) }
    {
        let folder = Folder::new(rt, alloc, path, Some(mark))?;
        Ok(FolderProvider::of(alloc, Form::Plain(folder)))
    }

    /// The folder at this path, which the first store makes, with a file for each object. Each store brings what
    /// it wrote to the medium. Opens nothing; want of memory is its one refusal.
    pub fn stacked(rt: &R, alloc: Global, path: &str) -> Result<FolderProvider<R>, Memory>
        ensures { IfOk result (λ provider. provider ≡ fresh_counts) }
    {
        let mark = Unsynced::new(alloc)?.mark(0)?;
        let stack = Stack::new(rt, alloc, path, mark, true)?;
        Ok(FolderProvider::of(alloc, Form::Stacked(stack)))
    }

    /// The same, where a store leaves what it wrote in this mark.
    pub fn stacked_marking(
        rt: &R,
        alloc: Global,
        path: &str,
        mark: Mark<R::File>,
    ) -> Result<FolderProvider<R>, Memory>
        ensures { IfOk result (λ provider. provider ≡ fresh_counts) }
    {
        let stack = Stack::new(rt, alloc, path, mark, false)?;
        Ok(FolderProvider::of(alloc, Form::Stacked(stack)))
    }

    /// A provider each of whose calls fails.
    pub fn refused(alloc: Global) -> FolderProvider<R>
        ensures { result ≡ fresh_counts }
    {
        FolderProvider::of(alloc, Form::Refused)
    }

    /// A folder before its first call.
    fn of(alloc: Global, folder: Form<R>) -> FolderProvider<R>
        ensures { result ≡ fresh_counts }
    {
        FolderProvider {
            folder: AskedFolder::new(alloc, folder),
            store_faults: 0,
            other_faults: 0,
            fetches: 0,
            calls: 0,
            failed_in_a_row: 0,
        }
    }

    /// The folder is not given up.
    fn is_tried(&self) -> io::Result<()>
        ensures { IsErr result ↔ IsGivenUp self.now }
    {
        if self.failed_in_a_row >= MOST_FAILED {
            return Err(ErrorKind::Other.into());
        }
        Ok(())
    }

    /// Stores in the folder, unless it is given up.
    fn try_store(&mut self, object: u64, stripe: u32, block: &[Symbol]) -> io::Result<()>
        requires { length block.now ≤ 128 }
        ensures same { self.new ≡ self.old }
        ensures given_up { IsGivenUp self.old → IsErr result }
    {
        self.is_tried()?;
        self.folder.store(object, stripe, block)
    }

    /// Fetches from the folder, unless it is given up.
    fn try_fetch(&mut self, object: u64, stripe: u32, out: &mut [Symbol]) -> io::Result<bool>
        requires { length out.old ≤ 128 }
        ensures not_found { IfOk result (λ found. found ≡ false → out.new ≡ out.old) }
        ensures err { OnErr result (out.new ≡ out.old) }
        ensures same { self.new ≡ self.old }
        ensures given_up { IsGivenUp self.old → IsErr result }
    {
        self.is_tried()?;
        self.folder.fetch(object, stripe, out)
    }

    /// Asks the folder, unless it is given up.
    fn try_answer(&mut self, object: u64, challenge: &Challenge) -> io::Result<Option<Symbol>>
        ensures same { self.new ≡ self.old }
        ensures given_up { IsGivenUp self.old → IsErr result }
    {
        self.is_tried()?;
        self.folder.answer(object, challenge)
    }

    /// Removes from the folder, unless it is given up.
    fn try_remove(&mut self, object: u64) -> io::Result<()>
        ensures same { self.new ≡ self.old }
        ensures given_up { IsGivenUp self.old → IsErr result }
    {
        self.is_tried()?;
        self.folder.remove(object)
    }

    /// What came of a call that is no store, counted.
    fn told<T: Drop>(&mut self, answer: io::Result<T>) -> Result<T, Failed>
        ensures value { IfOk result (λ value. answer ≡ Ok value) }
        ensures error { OnErr result (IsErr answer) }
        ensures ok { OnOk result (self.new ≡ with_answer self.old) }
        ensures failed { OnErr result (self.new ≡ with_other_fault self.old) }
    {
        match tried(answer, &mut self.other_faults) {
            Ok(value) => {
                self.failed_in_a_row = 0;
                Ok(value)
            }
            Err(failed) => {
                self.failed_in_a_row = self.failed_in_a_row.saturating_add(1);
                Err(failed)
            }
        }
    }

    /// What came of a store, counted. Want of memory tells nothing of the folder.
    fn told_store(&mut self, answer: io::Result<()>) -> Result<(), StoreFault>
        ensures value { IfOk result (λ value. answer ≡ Ok value) }
        ensures error { OnErr result (IsErr answer) }
        ensures ok { OnOk result (self.new ≡ with_answer self.old) }
        ensures failed { IsErrOf result store_fault.Failed → self.new ≡ with_store_fault self.old }
        ensures memory { IsErrOf result store_fault.Memory → self.new ≡ self.old }
    {
        match tried_writing(answer, &mut self.store_faults) {
            Ok(()) => {
                self.failed_in_a_row = 0;
                Ok(())
            }
            Err(WriteFault::Failed) => {
                self.failed_in_a_row = self.failed_in_a_row.saturating_add(1);
                Err(StoreFault::Failed)
            }
            Err(WriteFault::Memory) => Err(StoreFault::Memory),
        }
    }
}

impl<R: Files + Clone + Drop> Provider for FolderProvider<R> {
    ghost held = { λ _. None };

    ghost store_faults = { λ provider. provider.store_faults };

    ghost other_faults = { λ provider. provider.other_faults };

    ghost fetches = { λ provider. provider.fetches };

    ghost calls = { λ provider. provider.calls };

    fn store(&mut self, object: u64, stripe: u32, block: &[Symbol]) -> Result<(), StoreFault>
        requires { length block.now ≤ 128 }
        ensures ok { OnOk result (self.new ≡ with_answer (with_call self.old)) }
        ensures failed { IsErrOf result store_fault.Failed
            → self.new ≡ with_store_fault (with_call self.old) }
        ensures memory { IsErrOf result store_fault.Memory → self.new ≡ with_call self.old }
        ensures given_up { IsGivenUp self.old → IsErr result }
    {
        self.calls = self.calls.saturating_add(1);
        let stored = self.try_store(object, stripe, block);
        self.told_store(stored)
    }

    fn fetch(&mut self, object: u64, stripe: u32, out: &mut [Symbol]) -> Result<bool, Failed>
        requires { length out.old ≤ 128 }
        ensures not_found { IfOk result (λ found. found ≡ false → out.new ≡ out.old) }
        ensures err { OnErr result (out.new ≡ out.old) }
        ensures ok { OnOk result (self.new ≡ with_answer (with_fetch (with_call self.old))) }
        ensures failed { OnErr result (self.new ≡ with_other_fault (with_fetch (with_call self.old))) }
        ensures given_up { IsGivenUp self.old → IsErr result }
    {
        self.calls = self.calls.saturating_add(1);
        self.fetches = self.fetches.saturating_add(1);
        let fetched = self.try_fetch(object, stripe, out);
        self.told(fetched)
    }

    fn ask(&mut self, object: u64, challenge: &Challenge) -> Result<Option<Symbol>, Failed>
        ensures ok { OnOk result (self.new ≡ with_answer (with_call self.old)) }
        ensures failed { OnErr result (self.new ≡ with_other_fault (with_call self.old)) }
        ensures given_up { IsGivenUp self.old → IsErr result }
    {
        self.calls = self.calls.saturating_add(1);
        let answered = self.try_answer(object, challenge);
        self.told(answered)
    }

    fn remove(&mut self, object: u64) -> Result<(), Failed>
        ensures ok { OnOk result (self.new ≡ with_answer (with_call self.old)) }
        ensures failed { OnErr result (self.new ≡ with_other_fault (with_call self.old)) }
        ensures given_up { IsGivenUp self.old → IsErr result }
    {
        self.calls = self.calls.saturating_add(1);
        let removed = self.try_remove(object);
        self.told(removed)
    }
}

impl<R: Files + Clone + Drop> Tamper for FolderProvider<R> {
    /// Where a call of std fails this counts as a fault, and the answer is false.
    fn alter(&mut self, object: u64, stripe: u32, place: u32, symbol: Symbol) -> bool
        ensures there { IsTrue result → self.new ≡ with_answer self.old }
        ensures not_there { result ≡ false
            → (self.new ≡ with_answer self.old) ⊎ (self.new ≡ with_other_fault self.old) }
    {
        let altered = self.folder.alter(object, stripe, place, symbol);
        self.told(altered).unwrap_or(false)
    }

    /// Where a call of std fails this counts as a fault, and the answer is false.
    fn lose(&mut self, object: u64, stripe: u32) -> bool
        ensures there { IsTrue result → self.new ≡ with_answer self.old }
        ensures not_there { result ≡ false
            → (self.new ≡ with_answer self.old) ⊎ (self.new ≡ with_other_fault self.old) }
    {
        let lost = self.folder.lose(object, stripe);
        self.told(lost).unwrap_or(false)
    }
}
