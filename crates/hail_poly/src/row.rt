ghost use Rattle.std.specs.Prelude.{◌≡◌};
ghost use Rattle.hail_poly.specs.GoesOn.{CanGoOn, IsFirst};

use crate::euclid::reduce;
use crate::load::interpolate_within;
use crate::read::used;
use crate::slices::{clear, put_front, put_reversed};
use hail_field::Symbol;
use std::alloc::{AllocError, Global};
use std::marker::Model;
use std::mem;

/// A remainder and its cofactor, in memory of one length.
#[derive(Drop)]
pub struct Row {
    rest: Vec<Symbol>,
    rest_len: usize,
    factor: Vec<Symbol>,
    factor_len: usize,
}

impl Model for Row {
    ghost use Rattle.std.specs.Prelude.{take, length};
    ghost use Rattle.hail_poly.specs.RowState.{RowState, IsDivisionRow};

    ghost Value = { RowState };

    ghost view = { λ w. record {
      room = length w.rest.items;
      rest = take w.rest_len w.rest.items;
      factor = take w.factor_len w.factor.items;
    } };

    ghost invariant = { λ w. IsDivisionRow w.rest.items w.rest_len w.factor.items w.factor_len };
}

impl Row {
    ghost use Rattle.std.specs.Prelude.{◌≡◌, ◌≢◌, ◌<◌, ◌≤◌, ◌+◌, ◌-◌, ◌∷◌, [], length, take, slice_index, reverse, IfOk};
    ghost use Rattle.algebra_laws.specs.Field.{Apart};
    ghost use Rattle.code_defs.specs.Polynomials.{vanish, interpolate, trim};
    ghost use Rattle.hail_poly.specs.Rows.{Reduces};
    ghost use Rattle.hail_poly.specs.RowState.{RowState};

    /// A row of zeros, with room for as many coefficients.
    pub fn new(alloc: Global, room: usize) -> Result<Row, AllocError>
        ensures { IfOk result (λ w. w ≡ record { room = room; rest = []; factor = [] }) }
    {
        let zero = Symbol::ZERO;
        let rest = vec![in alloc; zero; room]?;
        let factor = vec![in alloc; zero; room]?;
        Ok(Row {
            rest,
            rest_len: 0,
            factor,
            factor_len: 0,
        })
    }

    /// How many coefficients the remainder has.
    pub fn rest_len(&self) -> usize
        ensures { result ≡ length self.now.rest }
    {
        self.rest_len
    }

    /// The remainder.
    pub fn rest(&self) -> &[Symbol]
        ensures is { result.now ≡ self.now.rest }
        ensures fits { length result.now ≤ self.now.room }
        ensures trimmed { result.now ≡ trim result.now }
    {
        &self.rest[..self.rest_len]
    }

    /// The cofactor.
    pub fn factor(&self) -> &[Symbol]
        ensures is { result.now ≡ self.now.factor }
        ensures fits { length result.now ≤ self.now.room }
        ensures trimmed { result.now ≡ trim result.now }
    {
        &self.factor[..self.factor_len]
    }

    /// The remainder becomes this polynomial.
    pub fn set_rest(&mut self, coefficients: &[Symbol])
        requires { length coefficients.now ≤ self.old.room }
        ensures { self.new ≡ record { room = self.old.room; rest = trim coefficients.now; factor = self.old.factor } }
    {
        put_front(&mut self.rest, coefficients);
        self.rest_len = used(coefficients);
    }

    /// The remainder becomes the polynomial of these coefficients, highest first.
    pub fn set_reversed(&mut self, coefficients: &[Symbol])
        requires { length coefficients.now ≤ self.old.room }
        ensures { self.new ≡ record { room = self.old.room; rest = trim (reverse coefficients.now); factor = self.old.factor } }
    {
        put_reversed(&mut self.rest, coefficients);
        self.rest_len = used(&self.rest[..coefficients.len()]);
    }

    /// The cofactor becomes 0.
    pub fn clear_factor(&mut self)
        ensures { self.new ≡ record { room = self.old.room; rest = self.old.rest; factor = [] } }
    {
        clear(&mut self.factor);
        self.factor_len = 0;
    }

    /// The cofactor becomes 1.
    pub fn start_factor(&mut self)
        requires { 0 < self.old.room }
        ensures { self.new ≡ record { room = self.old.room; rest = self.old.rest; factor = 1 ∷ [] } }
    {
        clear(&mut self.factor);
        self.factor[0] = Symbol::ONE;
        self.factor_len = 1;
    }

    /// The remainder becomes the polynomial that takes the values at the points, and `whole` the product of
    /// all x + point.
    pub fn load(&mut self, points: &[Symbol], values: &[Symbol], whole: &mut [Symbol])
        requires apart { Apart points.now }
        requires even { length points.now ≡ length values.now }
        requires whole_room { length points.now < length whole.old }
        requires rest_room { length points.now ≤ self.old.room }
        ensures whole { take (length points.now + 1) whole.new ≡ vanish points.now }
        ensures row { self.new ≡ record {
          room = self.old.room;
          rest = trim (interpolate points.now values.now);
          factor = self.old.factor;
        } }
    {
        interpolate_within(points, values, whole, &mut self.rest);
        self.rest_len = used(&self.rest[..points.len()]);
    }

    /// Takes multiples of a polynomial away, so that the remainder is shorter, and as many times 1 from the
    /// cofactor.
    pub fn divide_by(&mut self, by: &[Symbol])
        requires some { 0 < length by.now }
        requires trimmed { by.now ≡ trim by.now }
        ensures less { length self.new.rest < length by.now }
        ensures same_room { self.new.room ≡ self.old.room }
        ensures rest_trimmed { self.new.rest ≡ trim self.new.rest }
        ensures factor_trimmed { self.new.factor ≡ trim self.new.factor }
        ensures rows { Reduces self.old.rest self.old.factor by.now (1 ∷ []) self.new.rest self.new.factor }
    {
        let one = [Symbol::ONE];
        self.rest_len = reduce(&mut self.rest, self.rest_len, &mut self.factor, by, &one);
        self.factor_len = used(&self.factor);
    }

    /// Takes a multiple of another row away, so that the remainder is shorter than the other's.
    pub fn advance(&mut self, by: &Row)
        requires some { 0 < length by.now.rest }
        requires room { length self.old.rest + length by.now.factor ≤ self.old.room + length by.now.rest }
        ensures less { length self.new.rest < length by.now.rest }
        ensures same_room { self.new.room ≡ self.old.room }
        ensures rest_trimmed { self.new.rest ≡ trim self.new.rest }
        ensures factor_trimmed { self.new.factor ≡ trim self.new.factor }
        ensures rows { Reduces self.old.rest self.old.factor by.now.rest by.now.factor self.new.rest
            self.new.factor }
    {
        self.rest_len = reduce(
            &mut self.rest,
            self.rest_len,
            &mut self.factor,
            &by.rest[..by.rest_len],
            &by.factor[..by.factor_len],
        );
        self.factor_len = used(&self.factor);
    }
}

/// Goes on to the first row whose remainder has at most `below` coefficients.
pub fn go_on(old: &mut Row, new: &mut Row, below: usize)
    requires rows { CanGoOn old.old new.old }
    ensures first { IsFirst below old.old new.old new.new }
    ensures spare { old.new.room ≡ old.old.room }
{
    while new.rest_len() > below {
        old.advance(new);
        mem::swap(old, new);
    }
}
