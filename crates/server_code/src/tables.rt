ghost use Rattle.std.specs.Prelude.{◌≡◌, ◌≤◌};
ghost use Rattle.code_defs.specs.Points.{upto};
ghost use Rattle.code_points.specs.Profile.{plain_profile};
ghost use Rattle.server_code.specs.Generator.{IsGenerator};
ghost use Rattle.server_code.specs.Products.{AreProducts};

use crate::make;
use crate::products::{Multiples, products};
use crate::quarters::{self, find_quarters};
use crate::rows::{extend, is_extended};
use code_points::Profile;
use hail_field::{Memory, Symbol};
use std::alloc::Global;

/// What the code of a profile works with: its points, the products of bytes, and at the profiles 0 and 1 its
/// coefficients row by row. The other profiles work by the additive transform.
#[derive(Drop)]
pub struct Tables {
    pub profile: Profile,
    pub points: Vec<Symbol>,
    pub rows: Vec<u8>,
    pub products: Vec<Multiples>,
    pub ghost points_are: { points.items ≡ upto profile.size },
    pub ghost rows_are: { profile.number ≤ 1 → IsGenerator (plain_profile profile) rows.items },
    pub ghost products_are: { AreProducts products.items },
}

impl Tables {
    ghost use Rattle.std.specs.Prelude.{◌-◌, ◌↔◌, IfOk, IsTrue, length};
    ghost use Rattle.std.specs.Bool.{OnTrue};
    ghost use Rattle.std.specs.List.{range_with_len};
    ghost use Rattle.code_defs.specs.ServerCode.{codeword, IsCodeword, Opens};

    /// The tables of a profile.
    pub fn new(alloc: Global, profile: Profile) -> Result<Tables, Memory>
        ensures { IfOk result (λ tables. tables.profile ≡ profile) }
    {
        let points = make::points(alloc, profile.size)?;
        let rows = make::first_rows(alloc, profile)?;
        let products = products(alloc)?;
        Ok(Tables {
            profile,
            points,
            rows,
            products,
        })
    }

    /// The points behind the kept ones.
    pub fn points_behind(&self) -> &[Symbol]
        ensures { result.now ≡ range_with_len self.now.profile.keep
            (self.now.profile.size - self.now.profile.keep) }
    {
        &self.points[self.profile.keep as usize..]
    }

    /// Fills `out` with the codeword of the kept symbols.
    pub fn encode(&self, kept: &[Symbol], out: &mut [Symbol])
        requires kept { length kept.now ≡ self.now.profile.keep }
        requires out { length out.old ≡ self.now.profile.size }
        ensures { out.new ≡ codeword (plain_profile self.now.profile) kept.now }
    {
        let number = self.profile.number;
        if number <= 1 {
            extend(&self.products, &self.rows, kept, out);
        } else {
            quarters::extend(&self.products, find_quarters(number), kept, out);
        }
    }

    /// Whether a block is a codeword.
    pub fn is_codeword(&self, block: &[Symbol]) -> bool
        requires { length block.now ≡ self.now.profile.size }
        ensures { IsTrue result ↔ IsCodeword (plain_profile self.now.profile) block.now }
    {
        let number = self.profile.number;
        let keep = self.profile.keep as usize;
        if number <= 1 {
            is_extended(&self.products, &self.rows, keep, block)
        } else {
            quarters::is_extended(&self.products, find_quarters(number), block)
        }
    }

    /// Whether a block is a codeword, and so opens to itself.
    pub fn is_clean(&self, block: &[Symbol]) -> bool
        requires { length block.now ≡ self.now.profile.size }
        ensures { OnTrue result (Opens (plain_profile self.now.profile) block.now block.now) }
    {
        self.is_codeword(block)
    }
}
