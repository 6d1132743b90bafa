ghost use Rattle.std.specs.Prelude.{◌≡◌, ◌<◌, ℕ, List, Option};
ghost use Rattle.column_defs.specs.Challenges.{symbol_at};

use hail_field::Symbol;

/// The blocks that a provider holds of one object.
pub trait Blocks {
    /// The blocks held, by stripe.
    ghost held: { Self → ℕ → Option (List ℕ) };

    /// The symbol at a place of a stripe's block; none where that block is absent or not `size` symbols long.
    fn at(&self, stripe: u32, place: u32, size: u32) -> Option<Symbol>
        requires { place < size }
        ensures { result ≡ symbol_at size place (held self.now stripe) };
}
