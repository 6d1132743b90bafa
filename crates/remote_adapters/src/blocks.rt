// Blocks of one object that are asked for ahead.
ghost use Rattle.std.specs.Prelude.{◌≡◌, ◌≤◌, ◌<◌, ◌+◌, ◌-◌, ◌*◌, ◌↔◌, ℕ, ◌∷◌, ◌++◌, [], length, IfOk, OnSome, IsTrue, IfSome, None};
ghost use Rattle.remote_adapters.specs.BlocksAhead.{BlocksAhead, no_blocks, due_of, ahead_left, IsAhead, IsAheadOf};

use crate::answer::Answer;
use crate::place::{FETCH_BYTES, Place, put_fetch};
use std::alloc::Global;
use std::collections::VecDeque;
use std::marker::Model;
use stream_model::Memory;

/// So many blocks are asked for at most.
const MOST: u64 = 64;

/// So many blocks of an object that is read from its start are asked for at first.
const FIRST: u64 = 8;

/// The bytes of so many fetches.
pub const FRAMES: usize = 896;

/// Stripes are below this number.
const STRIPES: u64 = 1 << 32;

/// The stripes of one object that were asked for, from the first that is still to be given: the answers that
/// came, in their order, and how far the asking went. No call but `new` takes memory.
#[derive(Drop)]
pub struct Blocks {
    object: u64,
    size: u8,
    first: u64,
    asked: u64,
    window: u64,
    answers: VecDeque<Answer>,
}

impl Model for Blocks {
    ghost use Rattle.std.specs.Prelude.{◌≤◌, ◌+◌, ◌^◌, length};
    ghost use Rattle.remote_adapters.specs.BlocksAhead.{BlocksAhead};

    ghost Value = { BlocksAhead };

    ghost view = { λ b. record {
      object = b.object;
      size = b.size;
      first = b.first;
      asked = b.asked;
      answers = b.answers.items;
    } };

    ghost invariant = { λ b. (b.first + length b.answers.items ≤ b.asked) × (b.asked ≤ b.first + 64)
        × (b.asked ≤ 2 ^ 32) × (b.size ≤ 128) × (1 ≤ b.window) × (b.window ≤ 64) };
}

impl Blocks {
    /// No block is asked for.
    pub fn new(alloc: Global) -> Result<Blocks, Memory>
        ensures { IfOk result (λ blocks. blocks ≡ no_blocks) }
    {
        Ok(Blocks {
            object: 0,
            size: 0,
            first: 0,
            asked: 0,
            window: FIRST,
            answers: VecDeque::with_capacity(alloc, MOST as usize)?,
        })
    }

    /// How many answers are due.
    pub fn due(&self) -> u64
        ensures { result ≡ due_of self.now }
    {
        self.asked - self.first - self.answers.len() as u64
    }

    /// Whether a block is asked for, and not yet given.
    pub fn has(&self, place: Place) -> bool
        ensures { IsTrue result ↔ IsAheadOf place.size place.object place.stripe self.now }
    {
        let stripe = u64::from(place.stripe);
        place.object == self.object
            && place.size == self.size
            && self.first <= stripe
            && stripe < self.asked
    }

    /// How many blocks are asked for from a block on: twice as many as before where the asking ended there, a
    /// few where an object is read from its start, and else this one.
    fn window_from(&self, place: Place) -> u64
        ensures some { 1 ≤ result }
        ensures few { result ≤ 64 }
    {
        let stripe = u64::from(place.stripe);
        if place.object == self.object && place.size == self.size && stripe == self.asked {
            (2 * self.window).min(MOST)
        } else if stripe == 0 {
            FIRST
        } else {
            1
        }
    }

    /// Goes on from a block.
    pub fn turn_to(&mut self, place: Place)
        requires none_due { due_of self.old ≡ 0 }
        requires size { place.size ≤ 128 }
        ensures object { self.new.object ≡ place.object }
        ensures size { self.new.size ≡ place.size }
        ensures first { self.new.first ≡ place.stripe }
        ensures asked { self.new.asked ≡ place.stripe }
        ensures none { self.new.answers ≡ [] }
    {
        self.window = self.window_from(place);
        self.object = place.object;
        self.size = place.size;
        self.first = place.stripe.into();
        self.asked = self.first;
        self.answers.clear();
    }

    /// Whether less than half as many blocks are asked for as may be.
    pub fn is_low(&self) -> bool {
        self.asked - self.first <= self.window / 2
    }

    /// How many blocks are to be asked for next: twice as many where some still are.
    fn next_window(&self) -> u64
        ensures some { 1 ≤ result }
        ensures few { result ≤ 64 }
    {
        if self.asked == self.first {
            self.window
        } else {
            (2 * self.window).min(MOST)
        }
    }

    /// Writes the fetches of the next blocks, and tells how many bytes they are.
    pub fn put_fetches(&mut self, out: &mut [u8; 896]) -> usize
        ensures few { result ≤ 896 }
        ensures first { self.new.first ≡ self.old.first }
        ensures on { self.old.asked ≤ self.new.asked }
        ensures same { self.new ≡ record self.old { asked = self.new.asked } }
        ensures as_many { result ≡ 14 * (self.new.asked - self.old.asked) }
    {
        self.window = self.next_window();
        let to = (self.first + self.window).min(STRIPES);
        let from = self.asked;
        let count = to.saturating_sub(from) as usize;
        for k in 0..count {
            let place = Place {
                object: self.object,
                stripe: (from + k as u64) as u32,
                size: self.size,
            };
            put_fetch(
                place,
                &mut out[FETCH_BYTES * k..FETCH_BYTES * k + FETCH_BYTES],
            );
        }
        self.asked = from.max(to);
        FETCH_BYTES * count
    }

    /// How many bytes of symbols stand in an answer that gives some.
    pub fn tail(&self) -> usize
        ensures { result ≤ 2048 }
    {
        16 * usize::from(self.size)
    }

    /// Takes the answer that was due first.
    pub fn take(&mut self, answer: Answer) -> Result<(), Memory>
        requires { 0 < due_of self.old }
        ensures ok { IfOk result (λ _. self.new ≡ record self.old { answers = self.old.answers ++ answer ∷ [] }) }
    {
        self.answers.push_back(answer)?;
        Ok(())
    }

    /// The stripe of the first block that is asked for, and its answer, where it came.
    pub fn give(&mut self) -> Option<(u64, Answer)>
        ensures some { IfSome result (λ given. (given.0 ≡ self.old.first)
            × (self.old.answers ≡ given.1 ∷ self.new.answers)
            × (self.new ≡ record self.old { first = self.old.first + 1; answers = self.new.answers })) }
        ensures none { result ≡ None → (self.old.answers ≡ []) × (self.new ≡ self.old) }
        ensures due { due_of self.new ≡ due_of self.old }
        ensures fewer { OnSome result (ahead_left self.new < ahead_left self.old) }
    {
        let answer = self.answers.pop_front()?;
        let stripe = self.first;
        self.first += 1;
        Some((stripe, answer))
    }

    /// Drops what is asked for of an object, all of whose answers came.
    pub fn forget(&mut self, object: u64)
        requires { due_of self.old ≡ 0 }
        ensures forgets { IsAhead object self.new → ⊥ }
        ensures none { due_of self.new ≡ 0 }
    {
        if object == self.object {
            self.first = self.asked;
            self.answers.clear();
        }
    }

    /// Drops what is asked for of an object, if a block is among it. All answers came.
    pub fn forget_block(&mut self, place: Place)
        requires { due_of self.old ≡ 0 }
        ensures forgets { (size : ℕ) → IsAheadOf size place.object place.stripe self.new → ⊥ }
        ensures none { due_of self.new ≡ 0 }
    {
        let stripe = u64::from(place.stripe);
        if place.object == self.object && self.first <= stripe && stripe < self.asked {
            self.first = self.asked;
            self.answers.clear();
        }
    }
}
