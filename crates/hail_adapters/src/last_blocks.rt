// Blocks that answers to challenges read.
ghost use Rattle.std.specs.Prelude.{◌≡◌, ◌≤◌, ◌<◌, ◌↔◌, None, length, IsTrue};

use crate::form::Form;
use hail_field::Symbol;
use std::alloc::Global;
use std::fs::Files;
use std::io;

/// So many blocks are kept at most.
const KEPT: usize = 8;

/// A block that was read, if any: its stripe, and its symbols, which stand at the front.
#[derive(Clone, Copy)]
pub struct LastBlock {
    stripe: Option<u32>,
    symbols: [Symbol; 128],
}

impl LastBlock {
    /// No block was read.
    pub fn none() -> LastBlock {
        LastBlock {
            stripe: None,
            symbols: [Symbol::ZERO; 128],
        }
    }
}

/// The blocks of one object that were read last, each in the place of its stripe modulo eight. Memory is
/// taken at the first answer that finds some.
#[derive(Drop)]
pub struct LastBlocks {
    /// The object, and the size of its blocks; none where no block is kept.
    pub of: Option<(u64, u32)>,
    /// The eight places; none before memory is taken.
    pub places: Vec<LastBlock>,
}

impl LastBlocks {
    /// No block was read; takes no memory.
    pub fn new(alloc: Global) -> LastBlocks
        ensures { result.of ≡ None }
    {
        LastBlocks {
            of: None,
            places: Vec::new(alloc),
        }
    }

    /// Drops all blocks, and hands on what a call answered.
    pub fn forget<T: Drop>(&mut self, answer: io::Result<T>) -> io::Result<T>
        ensures nothing { self.new.of ≡ None }
        ensures same { result ≡ answer }
    {
        self.of = None;
        answer
    }

    /// Takes memory for the places where none is taken yet, and says whether there are places.
    pub fn has_places(&mut self) -> bool
        ensures { IsTrue result ↔ 0 < length self.new.places.items }
    {
        if self.places.is_empty() {
            let _ = self.places.resize(KEPT, LastBlock::none());
        }
        !self.places.is_empty()
    }

    /// Drops the blocks of another object, and those of another size.
    pub fn turn_to(&mut self, object: u64, size: u32) {
        if self.of == Some((object, size)) {
            return;
        }
        for k in 0..self.places.len() {
            self.places[k].stripe = None;
        }
        self.of = Some((object, size));
    }
}

/// Reads a block into its place where it is not kept there, and says whether there is one of this size.
pub fn read_into<R: Files + Clone + Drop>(
    places: &mut [LastBlock],
    folder: &mut Form<R>,
    object: u64,
    stripe: u32,
    size: u32,
) -> io::Result<bool>
    requires size { size ≤ 128 }
    requires places { 0 < length places.old }
{
    let place = stripe as usize % places.len();
    let block = &mut places[place];
    if block.stripe == Some(stripe) {
        return Ok(true);
    }
    block.stripe = None;
    if !folder.fetch(object, stripe, &mut block.symbols[..size as usize])? {
        return Ok(false);
    }
    block.stripe = Some(stripe);
    Ok(true)
}

/// The symbols in the place of a stripe, which was read last there.
pub fn symbols(places: &[LastBlock], stripe: u32) -> &[Symbol]
    requires { 0 < length places.now }
    ensures { length result.now ≡ 128 }
{
    &places[stripe as usize % places.len()].symbols
}
