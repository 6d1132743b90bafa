//! Providers that do not give their blocks as they were made.
ghost use Rattle.std.specs.Prelude.{◌≡◌, ◌<◌};

use crate::blocks::fill;
use crate::decode;
use crate::failure::Failure;
use column_codec::Bench;
use hail_field::{Shape, Symbol};

/// How the first providers spoil their blocks: so many give others than their own, and after these so many in
/// all give their own with as many wrong symbols as are corrected.
#[derive(Clone, Copy)]
pub struct Spoilt {
    /// Whether the others are far from each codeword. Else they are codewords of other symbols, with the
    /// masks.
    pub garbage: bool,
    pub liars: u8,
    pub erring: u8,
}

/// What the symbols of a provider that lies in a stripe begin with.
fn lie(stripe: u32, provider: u32) -> u32 {
    stripe.wrapping_mul(16).wrapping_add(provider)
}

impl Spoilt {
    /// No provider.
    pub const NONE: Spoilt = Spoilt {
        garbage: false,
        liars: 0,
        erring: 0,
    };

    /// The way and the count of providers that two words name; `Usage` where they name none.
    pub(crate) fn from_words(way: &str, count: &str) -> Result<Spoilt, Failure> {
        let count = count.parse::<u8>()?;
        let (garbage, liars, erring) = match way {
            "codewords" => (false, count, 0),
            "garbage" => (true, count, 0),
            "errors" => (false, 0, count),
            _ => return Err(Failure::Usage),
        };
        Ok(Spoilt {
            garbage,
            liars,
            erring,
        })
    }

    /// Whether the file is still opened: at most `b` providers give other blocks than their own.
    pub(crate) fn fits(self, shape: Shape) -> bool {
        self.liars <= shape.b
    }

    /// Spoils the block of a provider, which is at hand on a bench.
    pub(crate) fn spoil(self, bench: &mut Bench, stripe: u32, provider: u32)
        requires { provider < bench.old.keys.file.shape.n }
        ensures { bench.new.keys ≡ bench.old.keys }
    {
        if provider < u32::from(self.liars) {
            if self.garbage {
                fill(lie(stripe, provider), &mut bench.column);
            } else {
                fill(lie(stripe, provider), &mut bench.rows);
                bench.make_column(stripe, provider);
            }
        } else if provider < u32::from(self.erring) {
            let error = Symbol(u128::from(stripe) + 1);
            decode::spoil(bench.keys.file.profile.fix, error, &mut bench.column);
        }
    }
}
