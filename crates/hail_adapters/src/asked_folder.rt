// A folder of which challenges ask.
ghost use Rattle.std.specs.Prelude.{◌≡◌, ◌≤◌, ◌<◌, ℕ, None, false, length, IfOk, OnErr};
ghost use Rattle.std.specs.List.{All};
ghost use Rattle.std.specs.List.Sorted.{IsSorted};
ghost use Rattle.std.specs.Ordering.{nat_cmp};

use crate::form::Form;
use crate::last_blocks::{LastBlock, LastBlocks, read_into, symbols};
use challenge::Challenge;
use file_parts::one_block::answer_in_block;
use file_parts::seen_rows::answer_of;
use hail_field::Symbol;
use std::alloc::Global;
use std::fs::Files;
use std::io;

/// Puts picked rows in ascending order, so that those of a block stand one behind the other.
fn ascend(rows: &mut [u64])
    ensures within { (n : ℕ) → All (λ row. row < n) rows.old → All (λ row. row < n) rows.new }
    ensures as_many { length rows.new ≡ length rows.old }
    ensures ascending { IsSorted nat_cmp rows.new }
{
    rows.sort_unstable();
}

/// Answers a challenge to a file of one block; none where there is no block of the challenge's size.
fn answer_in_one<R: Files + Clone + Drop>(
    folder: &mut Form<R>,
    places: &mut [LastBlock],
    object: u64,
    challenge: &Challenge,
) -> io::Result<Option<Symbol>>
    requires { 0 < length places.old }
{
    let size = challenge.size;
    if !read_into(places, folder, object, 0, size)? {
        return Ok(None);
    }
    let block = &symbols(places, 0)[..size as usize];
    Ok(answer_in_block(&challenge.draw(), block))
}

/// The symbol in a row; none where there is no block of the challenge's size.
fn symbol_in<R: Files + Clone + Drop>(
    folder: &mut Form<R>,
    places: &mut [LastBlock],
    object: u64,
    challenge: &Challenge,
    row: u64,
) -> io::Result<Option<Symbol>>
    requires row { row < challenge.now.rows }
    requires places { 0 < length places.old }
{
    let size = u64::from(challenge.size);
    let stripe = (row / size) as u32;
    if !read_into(places, folder, object, stripe, challenge.size)? {
        return Ok(None);
    }
    Ok(Some(symbols(places, stripe)[(row % size) as usize]))
}

/// Answers a challenge by what stands in the picked rows; none where one of them has no symbol.
fn answer_in_rows<R: Files + Clone + Drop>(
    folder: &mut Form<R>,
    places: &mut [LastBlock],
    object: u64,
    challenge: &Challenge,
) -> io::Result<Option<Symbol>>
    requires { 0 < length places.old }
{
    let drawn = challenge.draw();
    let picks = challenge.picks as usize;
    let mut drawn_rows = drawn.rows;
    let picked = &mut drawn_rows[..picks];
    ascend(picked);
    let mut rows = [(0, Symbol::ZERO); 64];
    for k in 0..picks {
        let row = picked[k];
        let Some(symbol) = symbol_in(folder, places, object, challenge, row)? else {
            return Ok(None);
        };
        rows[k] = (row, symbol);
    }
    Ok(answer_of(&drawn, &rows[..picks]))
}

/// Answers a challenge by the files, or by the blocks that are kept in these places.
fn answer_over<R: Files + Clone + Drop>(
    folder: &mut Form<R>,
    places: &mut [LastBlock],
    object: u64,
    challenge: &Challenge,
) -> io::Result<Option<Symbol>>
    requires { 0 < length places.old }
{
    if challenge.rows <= u64::from(challenge.size) {
        return answer_in_one(folder, places, object, challenge);
    }
    answer_in_rows(folder, places, object, challenge)
}

/// A folder of blocks. Answers in a row about one object read each block once, where no stripes eight apart
/// are picked and there is memory to keep blocks, else for each answer: they are kept until a store, a fetch,
/// a removal or a change of a block, a call that fails, or an answer about another object or to another size.
/// None outlasts the command.
#[derive(Drop)]
pub struct AskedFolder<R: Files + Clone + Drop> {
    folder: Form<R>,
    last: LastBlocks,
}

impl<R: Files + Clone + Drop> AskedFolder<R> {
    /// A folder of which no block is kept.
    pub fn new(alloc: Global, folder: Form<R>) -> AskedFolder<R>
        ensures { result.last.of ≡ None }
    {
        AskedFolder {
            folder,
            last: LastBlocks::new(alloc),
        }
    }

    /// Stores a block, as [`Form::store`] does.
    pub fn store(&mut self, object: u64, stripe: u32, block: &[Symbol]) -> io::Result<()>
        requires { length block.now ≤ 128 }
        ensures forgets { self.new.last.of ≡ None }
    {
        self.last.forget(self.folder.store(object, stripe, block))
    }

    /// Reads a block of as many symbols as `out` has, and says whether there is one.
    pub fn fetch(&mut self, object: u64, stripe: u32, out: &mut [Symbol]) -> io::Result<bool>
        requires { length out.old ≤ 128 }
        ensures not_found { IfOk result (λ found. found ≡ false → out.new ≡ out.old) }
        ensures err { OnErr result (out.new ≡ out.old) }
        ensures forgets { self.new.last.of ≡ None }
    {
        self.last.forget(self.folder.fetch(object, stripe, out))
    }

    /// Answers a challenge by the files or by the blocks that are kept. Where there is no memory to keep some,
    /// the answer has one place of its own.
    fn answer_so(&mut self, object: u64, challenge: &Challenge) -> io::Result<Option<Symbol>> {
        if self.last.has_places() {
            return answer_over(&mut self.folder, &mut self.last.places, object, challenge);
        }
        let mut place = [LastBlock::none()];
        answer_over(&mut self.folder, &mut place, object, challenge)
    }

    /// Answers a challenge; none where a block is missing of which it picks a row.
    pub fn answer(&mut self, object: u64, challenge: &Challenge) -> io::Result<Option<Symbol>>
        ensures failed { OnErr result (self.new.last.of ≡ None) }
    {
        self.last.turn_to(object, challenge.size);
        match self.answer_so(object, challenge) {
            Ok(symbol) => Ok(symbol),
            error => self.last.forget(error),
        }
    }

    /// Removes an object, as [`Form::remove`] does.
    pub fn remove(&mut self, object: u64) -> io::Result<()>
        ensures forgets { self.new.last.of ≡ None }
    {
        self.last.forget(self.folder.remove(object))
    }

    /// Puts a symbol at a place of a block, and says whether it has the place.
    pub fn alter(
        &mut self,
        object: u64,
        stripe: u32,
        place: u32,
        symbol: Symbol,
    ) -> io::Result<bool>
        ensures forgets { self.new.last.of ≡ None }
    {
        self.last
            .forget(self.folder.alter(object, stripe, place, symbol))
    }

    /// Takes a block away, and says whether there was one.
    pub fn lose(&mut self, object: u64, stripe: u32) -> io::Result<bool>
        ensures forgets { self.new.last.of ≡ None }
    {
        self.last.forget(self.folder.lose(object, stripe))
    }
}
