use crate::read::eval;
use crate::row::{Row, go_on};
use crate::slices::put_power;
use hail_field::{Memory, Symbol};
use std::alloc::Global;
use std::marker::Model;

/// The most points that a `Work` may have room for.
pub const MOST: usize = 128;

/// The registers of a decoder: three polynomials `whole`, `rest` and `factor`, in memory that `new` reserves.
/// No other call takes any. For Gao's decoder (A new algorithm for decoding Reed-Solomon codes, 2003), and
/// for the decoder by syndromes (Sugiyama and others, A method for solving key equation for decoding Goppa
/// codes, 1975).
#[derive(Drop)]
pub struct Work {
    size: usize,
    whole: Vec<Symbol>,
    whole_len: usize,
    row: Row,
    spare: Row,
}

impl Model for Work {
    ghost use Rattle.std.specs.Prelude.{take};
    ghost use Rattle.hail_poly.specs.Registers.{Registers, IsWork};

    ghost Value = { Registers };

    ghost view = { λ w. record {
      size = w.size;
      whole = take w.whole_len w.whole.items;
      rest = w.row.rest;
      factor = w.row.factor;
    } };

    ghost invariant = { λ w. IsWork w.size w.whole.items w.whole_len w.row w.spare };
}

impl Work {
    ghost use Rattle.std.specs.Prelude.{◌≡◌, ◌≢◌, ◌<◌, ◌≤◌, ◌+◌, ◌∷◌, [], length, IfOk};
    ghost use Rattle.std.specs.Bool.{OnTrue, OnFalse};
    ghost use Rattle.algebra_laws.specs.Field.{Apart};
    ghost use Rattle.algebra_laws.specs.Poly.{FirstRow};
    ghost use Rattle.hail_field.specs.Nim.{nim};
    ghost use Rattle.code_defs.specs.Polynomials.{value, vanish, interpolate, trim};
    ghost use Rattle.hail_poly.specs.Key.{power, key};
    ghost use Rattle.hail_poly.specs.Registers.{IsLoaded};
    ghost use Rattle.hail_poly.specs.Quotient.{IsQuotient, HasNoQuotient, IsCombination};

    /// Registers of zeros with room for `size` points, of which there may be 128.
    pub fn new(alloc: Global, size: usize) -> Result<Work, Memory>
        requires { size ≤ MOST }
        ensures { IfOk result (λ w. w ≡ record { size = size; whole = []; rest = []; factor = [] }) }
    {
        let zero = Symbol::ZERO;
        let whole = vec![in alloc; zero; size + 1]?;
        let row = Row::new(alloc, size + 1)?;
        let spare = Row::new(alloc, size + 1)?;
        Ok(Work {
            size,
            whole,
            whole_len: 0,
            row,
            spare,
        })
    }

    /// For how many points there is room.
    pub fn size(&self) -> usize
        ensures is { result ≡ self.now.size }
        ensures bound { result ≤ 128 }
    {
        self.size
    }

    /// `whole` becomes the product of all x + point, `rest` the polynomial of degree below the number of
    /// points that takes the values at the points, and `factor` 1.
    pub fn load(&mut self, points: &[Symbol], values: &[Symbol])
        requires apart { Apart points.now }
        requires even { length points.now ≡ length values.now }
        requires room { length points.now ≤ self.old.size }
        ensures { self.new ≡ record {
          size = self.old.size;
          whole = vanish points.now;
          rest = trim (interpolate points.now values.now);
          factor = 1 ∷ [];
        } }
    {
        self.row.load(points, values, &mut self.whole);
        self.row.start_factor();
        self.whole_len = points.len() + 1;
    }

    /// For m syndromes, `whole` becomes x^m, `rest` the sum of syndrome k times x^(m - 1 - k), and `factor`
    /// 1.
    pub fn load_key(&mut self, syndromes: &[Symbol])
        requires { length syndromes.now ≤ self.old.size }
        ensures { self.new ≡ record {
          size = self.old.size;
          whole = power (length syndromes.now);
          rest = key syndromes.now;
          factor = 1 ∷ [];
        } }
    {
        self.row.set_reversed(syndromes);
        self.row.start_factor();
        put_power(&mut self.whole, syndromes.len());
        self.whole_len = syndromes.len() + 1;
    }

    /// Runs Euclid's algorithm on `whole` and `rest`, which `load` or `load_key` has made: `rest` and
    /// `factor` become the remainder and its cofactor of the first row after `whole` itself whose remainder
    /// has degree below `below`.
    pub fn euclid(&mut self, below: usize)
        requires { IsLoaded self.old }
        ensures size { self.new.size ≡ self.old.size }
        ensures whole { self.new.whole ≡ self.old.whole }
        ensures below { length self.new.rest ≤ below }
        ensures combination { IsCombination self.new.rest self.new.factor self.old.rest self.old.whole }
        ensures row { FirstRow nim below self.old.whole [] self.old.rest (1 ∷ []) self.new.rest
            self.new.factor }
    {
        self.spare.set_rest(&self.whole[..self.whole_len]);
        self.spare.clear_factor();
        go_on(&mut self.spare, &mut self.row, below);
    }

    /// Whether `factor` divides `rest`. Then `rest` becomes the quotient and `factor` 1; else nothing
    /// changes.
    pub fn divide(&mut self) -> bool
        requires { self.old.factor ≢ [] }
        ensures size { self.new.size ≡ self.old.size }
        ensures whole { self.new.whole ≡ self.old.whole }
        ensures quotient { OnTrue result (IsQuotient self.old.rest self.old.factor self.new.rest) }
        ensures one { OnTrue result (self.new.factor ≡ 1 ∷ []) }
        ensures none { OnFalse result (HasNoQuotient self.old.rest self.old.factor) }
        ensures unchanged { OnFalse result (self.new ≡ self.old) }
    {
        self.spare.set_rest(self.row.rest());
        self.spare.clear_factor();
        self.spare.divide_by(self.row.factor());
        if self.spare.rest_len() > 0 {
            return false;
        }
        self.row.set_rest(self.spare.factor());
        self.row.start_factor();
        true
    }

    /// `rest` becomes the polynomial of these coefficients, lowest first.
    pub fn set_rest(&mut self, coefficients: &[Symbol])
        requires { length coefficients.now ≤ self.old.size }
        ensures { self.new ≡ record {
          size = self.old.size;
          whole = self.old.whole;
          rest = trim coefficients.now;
          factor = self.old.factor;
        } }
    {
        self.row.set_rest(coefficients);
    }

    /// The coefficients of `rest`, lowest first and without a zero at the end.
    pub fn rest(&self) -> &[Symbol]
        ensures is { result.now ≡ self.now.rest }
        ensures trimmed { result.now ≡ trim result.now }
    {
        self.row.rest()
    }

    /// The value of `rest` at x.
    pub fn value(&self, x: Symbol) -> Symbol
        ensures { result ≡ value self.now.rest x }
    {
        eval(self.row.rest(), x)
    }

    /// The value of `factor` at x.
    pub fn factor_at(&self, x: Symbol) -> Symbol
        ensures { result ≡ value self.now.factor x }
    {
        eval(self.row.factor(), x)
    }
}
