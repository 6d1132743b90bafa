// A provider's folder in one of its forms.
ghost use Rattle.std.specs.Prelude.{◌≡◌, ◌≤◌, false, length, IfOk, OnErr};

use crate::folder::Folder;
use hail_field::Symbol;
use stack_adapters::Stack;
use std::fs::Files;
use std::io::{self, ErrorKind};

/// A provider's folder.
#[derive(Drop)]
pub enum Form<R: Files + Clone + Drop> {
    /// Each block is a file.
    Plain(Folder<R>),
    /// Each object is a file.
    Stacked(Stack<R>),
    /// Nobody knows which, or it is no folder: each call fails.
    Refused,
}

/// What each call of a folder answers that is refused.
fn refused<T>() -> io::Result<T> {
    Err(ErrorKind::InvalidInput.into())
}

impl<R: Files + Clone + Drop> Form<R> {
    /// Stores a block, as [`Folder::store`] or [`Stack::store`] does.
    pub fn store(&mut self, object: u64, stripe: u32, block: &[Symbol]) -> io::Result<()>
        requires { length block.now ≤ 128 }
    {
        match self {
            Form::Plain(folder) => folder.store(object, stripe, block),
            Form::Stacked(stack) => stack.store(object, stripe, block),
            Form::Refused => refused(),
        }
    }

    /// Reads a block of as many symbols as `out` has, and says whether there is one.
    pub fn fetch(&mut self, object: u64, stripe: u32, out: &mut [Symbol]) -> io::Result<bool>
        requires { length out.old ≤ 128 }
        ensures not_found { IfOk result (λ found. found ≡ false → out.new ≡ out.old) }
        ensures err { OnErr result (out.new ≡ out.old) }
    {
        match self {
            Form::Plain(folder) => folder.fetch(object, stripe, out),
            Form::Stacked(stack) => stack.fetch(object, stripe, out),
            Form::Refused => refused(),
        }
    }

    /// Removes an object, as [`Folder::remove`] or [`Stack::remove`] does.
    pub fn remove(&mut self, object: u64) -> io::Result<()> {
        match self {
            Form::Plain(folder) => folder.remove(object),
            Form::Stacked(stack) => stack.remove(object),
            Form::Refused => refused(),
        }
    }

    /// Puts a symbol at a place of a block, and says whether it has the place.
    pub fn alter(
        &mut self,
        object: u64,
        stripe: u32,
        place: u32,
        symbol: Symbol,
    ) -> io::Result<bool> {
        match self {
            Form::Plain(folder) => folder.alter(object, stripe, place, symbol),
            Form::Stacked(stack) => stack.alter(object, stripe, place, symbol),
            Form::Refused => refused(),
        }
    }

    /// Takes a block away, and says whether there was one.
    pub fn lose(&mut self, object: u64, stripe: u32) -> io::Result<bool> {
        match self {
            Form::Plain(folder) => folder.lose(object, stripe),
            Form::Stacked(stack) => stack.lose(object, stripe),
            Form::Refused => refused(),
        }
    }
}
