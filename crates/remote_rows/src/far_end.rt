// A far end in the same program, whose answer to one store is another than yes.
ghost use Rattle.std.specs.Prelude.{None};

use crate::frames::found;
use provider_wire::Link;
use std::alloc::{AllocError, Global};
use std::cell::Cell;
use std::rc::Rc;
use stream_model::{Failed, Memory};

/// The bytes of a fetch.
const FETCH_BYTES: usize = 14;

/// Objects below this number may be there, each with so many stripes.
const OBJECTS: u64 = 3;

const STRIPES: u64 = 4096;

/// How a far end answers: in pieces of so many bytes, and to its store of this number, counted from 0, with these
/// bytes in place of its yes.
#[derive(Clone, Copy)]
pub struct Manner {
    pub piece: usize,
    pub late_at: u64,
    pub late: &'static [u8],
}

/// Says yes to each store, in pieces of any size.
pub const HONEST: Manner = Manner {
    piece: 4096,
    late_at: u64::MAX,
    late: &[],
};

/// What a far end has seen: how many stores and fetches came, and how many bytes of answers were due at most.
#[derive(Drop)]
pub struct Seen {
    pub stores: Cell<u64>,
    pub fetches: Cell<u64>,
    pub most_due: Cell<u64>,
}

/// A link to blocks of one symbol in memory. It answers what is sent at once, and keeps the answers until they are
/// read.
#[derive(Drop)]
pub struct FarEnd {
    blocks: Vec<Option<u64>>,
    manner: Manner,
    due: Vec<u8>,
    given: usize,
    seen: Rc<Seen>,
}

/// So many more.
fn raise(count: &Cell<u64>, more: u64) {
    count.set(count.get().saturating_add(more));
}

impl Seen {
    /// Nothing came.
    fn new(alloc: Global) -> Result<Rc<Seen>, Memory> {
        let seen = Seen {
            stores: Cell::new(0),
            fetches: Cell::new(0),
            most_due: Cell::new(0),
        };
        Ok(Rc::new(alloc, seen).map_err(AllocError::from)?)
    }
}

/// The number of these bytes, the lowest first.
fn number(bytes: &[u8]) -> u64 {
    let mut number = 0u64;
    for byte in bytes.iter().rev() {
        number = number.wrapping_mul(256).wrapping_add(u64::from(*byte));
    }
    number
}

/// The object of a request.
fn object(request: &[u8]) -> Option<u64> {
    Some(number(request.get(1..9)?))
}

/// Where the block of a request is, if it may be there.
fn place(request: &[u8]) -> Option<usize> {
    let object = object(request)?;
    let stripe = number(request.get(9..13)?);
    if object >= OBJECTS || stripe >= STRIPES {
        return None;
    }
    Some((object * STRIPES + stripe) as usize)
}

impl FarEnd {
    /// A far end that holds nothing, and what it sees. Want of memory is the one refusal.
    pub fn new(alloc: Global, manner: Manner) -> Result<(FarEnd, Rc<Seen>), Memory> {
        let seen = Seen::new(alloc)?;
        let mut blocks = Vec::new(alloc);
        blocks
            .resize((OBJECTS * STRIPES) as usize, None)
            .map_err(AllocError::from)?;
        let far_end = FarEnd {
            blocks,
            manner,
            due: Vec::new(alloc),
            given: 0,
            seen: seen.clone()?,
        };
        Ok((far_end, seen))
    }

    /// Gives an answer.
    fn give(&mut self, answer: &[u8]) {
        let _ = self.due.extend_from_slice(answer);
    }

    /// Stores a block.
    fn store(&mut self, request: &[u8]) -> Option<()> {
        let symbol = number(request.get(14..22)?);
        *self.blocks.get_mut(place(request)?)? = Some(symbol);
        Some(())
    }

    /// Answers a store.
    fn answer_store(&mut self, request: &[u8]) {
        let number = self.seen.stores.get();
        raise(&self.seen.stores, 1);
        let _ = self.store(request);
        let late = number == self.manner.late_at;
        self.give(if late { self.manner.late } else { &[1] });
    }

    /// Answers fetches.
    fn answer_fetches(&mut self, requests: &[u8]) {
        for request in requests.chunks(FETCH_BYTES) {
            raise(&self.seen.fetches, 1);
            match self.block(request) {
                Some(symbol) => self.give(&found(symbol)),
                None => self.give(&[0]),
            }
        }
    }

    /// Answers a question by the first block of its object.
    fn answer_question(&mut self, request: &[u8]) {
        match self.first_block(request) {
            Some(symbol) => self.give(&found(symbol)),
            None => self.give(&[0]),
        }
    }

    /// The first block of the object of a request.
    fn first_block(&self, request: &[u8]) -> Option<u64> {
        let object = object(request)?.min(OBJECTS);
        *self.blocks.get((object * STRIPES) as usize)?
    }

    /// The block of a request.
    fn block(&self, request: &[u8]) -> Option<u64> {
        *self.blocks.get(place(request)?)?
    }

    /// Removes the blocks of an object.
    fn remove(&mut self, request: &[u8]) {
        let Some(object) = object(request) else {
            return;
        };
        for (place, block) in self.blocks.iter_mut().enumerate() {
            if place as u64 / STRIPES == object {
                *block = None;
            }
        }
    }

    /// Answers requests.
    fn take(&mut self, requests: &[u8]) {
        match requests.first() {
            Some(1) => self.answer_store(requests),
            Some(2) => self.answer_fetches(requests),
            Some(4) => {
                self.remove(requests);
                self.give(&[1]);
            }
            _ => self.answer_question(requests),
        }
        let due = self.due.len().saturating_sub(self.given) as u64;
        self.seen.most_due.set(self.seen.most_due.get().max(due));
    }
}

impl Link for FarEnd {
    ghost behind = { λ _. None };

    ghost faults = { λ _. 0 };

    fn send(&mut self, bytes: &[u8]) -> Result<(), Failed> {
        self.take(bytes);
        Ok(())
    }

    fn receive(&mut self, out: &mut [u8]) -> Result<usize, Failed> {
        let Some(due) = self.due.get(self.given..) else {
            return Ok(0);
        };
        let count = out.len().min(self.manner.piece).min(due.len());
        out[..count].copy_from_slice(&due[..count]);
        self.given = self.given.saturating_add(count);
        Ok(count)
    }
}
