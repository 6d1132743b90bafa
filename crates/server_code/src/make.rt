ghost use Rattle.std.specs.Prelude.{◌≡◌, ◌≤◌, ◌<◌, ◌++◌, IfOk, OnOk, EachIndex, length, slice_index};
ghost use Rattle.code_defs.specs.Points.{upto};
ghost use Rattle.code_points.specs.Profile.{plain_profile, AreKeptMultipliers};
ghost use Rattle.server_code.specs.Generator.{IsGenerator};

use code_points::{Profile, kept_multipliers, parity_row};
use hail_field::Symbol;
use std::alloc::{AllocError, Global};

/// The points 0 to count - 1.
#[tactic(auto, using(code_defs::proofs::Points::upto_more))]
pub fn points(alloc: Global, count: u32) -> Result<Vec<Symbol>, AllocError>
    ensures { IfOk result (λ points. points.items ≡ upto count) }
{
    let mut points = Vec::new(alloc);
    for place in 0..count {
        points.push(Symbol(u128::from(place)))?;
    }
    Ok(points)
}

/// Adds a row of coefficients, which are bytes.
fn push_bytes(row: &[Symbol], rows: &mut Vec<u8>) -> Result<(), AllocError>
    requires { EachIndex row.now (λ k. slice_index row.now k < 256) }
    ensures { OnOk result (rows.new.items ≡ rows.old.items ++ row.now) }
{
    for k in 0..row.len() {
        let coefficient = row[k];
        rows.push(coefficient.0 as u8)?;
    }
    Ok(())
}

/// The coefficients of all places behind the kept ones, row by row; each row is made in `row` first.
fn rows_by(
    alloc: Global,
    profile: Profile,
    multipliers: &[u8],
    row: &mut [Symbol],
) -> Result<Vec<u8>, AllocError>
    requires multipliers { AreKeptMultipliers profile.keep multipliers.now }
    requires row { length row.old ≡ profile.keep }
    ensures { IfOk result (λ rows. IsGenerator (plain_profile profile) rows.items) }
{
    let mut rows = Vec::new(alloc);
    for place in profile.keep..profile.size {
        parity_row(profile, multipliers, place, row);
        push_bytes(row, &mut rows)?;
    }
    Ok(rows)
}

/// The coefficients of all places behind the kept ones, row by row.
pub fn rows(alloc: Global, profile: Profile) -> Result<Vec<u8>, AllocError>
    ensures { IfOk result (λ rows. IsGenerator (plain_profile profile) rows.items) }
{
    let zero = Symbol::ZERO;
    let mut multipliers = vec![in alloc; 0u8; profile.keep as usize]?;
    let mut row = vec![in alloc; zero; profile.keep as usize]?;
    kept_multipliers(profile, &mut multipliers);
    rows_by(alloc, profile, &multipliers, &mut row)
}

/// The same at the profiles 0 and 1, which work by them; no rows at another profile.
pub fn first_rows(alloc: Global, profile: Profile) -> Result<Vec<u8>, AllocError>
    ensures { IfOk result (λ rows. profile.number ≤ 1 → IsGenerator (plain_profile profile) rows.items) }
{
    if profile.number <= 1 {
        rows(alloc, profile)
    } else {
        Ok(Vec::new(alloc))
    }
}
