ghost use Rattle.std.specs.Prelude.{◌≡◌};
ghost use Rattle.column_defs.specs.Challenges as spec;
ghost use Rattle.challenge.specs.Rows.{AreRows, AreBelow};

use crate::question::Challenge;
use hail_field::Symbol;

/// A challenge with its weight and with the rows of its picks, the first `picks` of `rows`, read off one
/// generator.
#[derive(Clone, Copy, Debug, PartialEq, Eq)]
pub struct Drawn {
    pub challenge: Challenge,
    pub weight: Symbol,
    pub rows: [u64; 64],
    pub ghost weight_is: { weight ≡ spec.alpha challenge.seed },
    pub ghost rows_are: { AreRows challenge.seed challenge.rows challenge.picks rows },
    pub ghost rows_within: { AreBelow challenge.rows challenge.picks rows },
}
