ghost use Rattle.std.specs.Prelude.{◌≡◌, ◌≤◌, length};
ghost use Rattle.dispersal_code.specs.Present.{Chosen, present_points, present_symbols};

use hail_field::Symbol;
use std::marker::Model;

/// Symbols of a row, at most 16, with their points.
#[derive(Drop)]
pub struct Present {
    points: [Symbol; 16],
    symbols: [Symbol; 16],
    count: usize,
}

impl Model for Present {
    ghost use Rattle.std.specs.Prelude.{take};
    ghost use Rattle.dispersal_code.specs.Present.{Chosen, HoldsPresent};

    ghost Value = { Chosen };

    ghost view = { λ w. record { points = take w.count w.points; symbols = take w.count w.symbols } };

    ghost invariant = { λ w. HoldsPresent w.points w.symbols w.count };
}

impl Present {
    ghost use Rattle.std.specs.Prelude.{◌≡◌, ◌<◌, ◌≤◌, ◌++◌, ◌∷◌, [], length};
    ghost use Rattle.dispersal_code.specs.Present.{Chosen};

    /// No symbol.
    pub fn new() -> Present
        ensures { result ≡ record { points = []; symbols = [] } }
    {
        Present {
            points: [Symbol::ZERO; 16],
            symbols: [Symbol::ZERO; 16],
            count: 0,
        }
    }

    /// How many symbols there are.
    pub fn len(&self) -> usize
        ensures points { result ≡ length self.now.points }
        ensures symbols { result ≡ length self.now.symbols }
        ensures few { result ≤ 16 }
    {
        self.count
    }

    /// The points.
    pub fn points(&self) -> &[Symbol]
        ensures { result.now ≡ self.now.points }
    {
        &self.points[..self.count]
    }

    /// The symbols.
    pub fn symbols(&self) -> &[Symbol]
        ensures { result.now ≡ self.now.symbols }
    {
        &self.symbols[..self.count]
    }

    /// Adds a symbol at the end.
    pub fn push(&mut self, point: Symbol, symbol: Symbol)
        requires { length self.old.points < 16 }
        ensures { self.new ≡ record {
          points = self.old.points ++ point ∷ [];
          symbols = self.old.symbols ++ symbol ∷ [];
        } }
    {
        self.points[self.count] = point;
        self.symbols[self.count] = symbol;
        self.count += 1;
    }
}

/// The symbols of a row that are present.
pub fn present_of(points: &[Symbol], seen: &[Option<Symbol>]) -> Present
    requires even { length points.now ≡ length seen.now }
    requires few { length points.now ≤ 16 }
    ensures { result ≡ record {
      points = present_points points.now seen.now;
      symbols = present_symbols seen.now;
    } }
{
    let mut present = Present::new();
    for k in 0..points.len() {
        if let Some(symbol) = seen[k] {
            present.push(points[k], symbol);
        }
    }
    present
}
