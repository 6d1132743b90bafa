ghost use Rattle.std.specs.Prelude.{◌≡◌, ◌≤◌, ◌<◌, ◌+◌, ◌-◌, ◌*◌, ℕ, [], IfOk, length, map, slice_index};
ghost use Rattle.code_defs.specs.Points.{upto};
ghost use Rattle.column_codec.specs.ObjectKeys.{weight_at, AreTabled};

use crate::table::ConstantTable;
use hail_field::{Memory, Shape, Symbol};
use std::alloc::{AllocError, Global};
use std::marker::Model;

/// The tables of the weights of an object that are not 1 less than the others: of each secondary provider
/// those of the primary ones but the first. Contracts see them as the list of these weights.
#[derive(Drop)]
pub(crate) struct WeightTables {
    items: Vec<ConstantTable>,
}

impl Model for WeightTables {
    ghost use Rattle.std.specs.Prelude.{ℕ, List};

    ghost Value = { List ℕ };

    ghost view = { λ tables. tables.items.items };
}

/// The weight whose table stands at a place.
fn weight_of(shape: Shape, weights: &[[Symbol; 16]; 16], place: usize) -> Symbol
    requires place { place < (shape.n - shape.l) * (shape.l - 1) }
    ensures { result ≡ weight_at shape.l weights.now place }
{
    let others = usize::from(shape.l) - 1;
    weights[usize::from(shape.l) + place / others][1 + place % others]
}

/// How many tables there are.
fn count(shape: Shape) -> usize
    ensures { result ≡ (shape.n - shape.l) * (shape.l - 1) }
{
    usize::from(shape.n - shape.l) * usize::from(shape.l - 1)
}

/// The tables of these weights, one after the other.
fn tables(
    alloc: Global,
    shape: Shape,
    weights: &[[Symbol; 16]; 16],
) -> Result<Vec<ConstantTable>, AllocError>
    ensures { IfOk result (λ tables. AreTabled shape.n shape.l weights.now tables.items) }
{
    let count = count(shape);
    let mut tables = Vec::with_capacity(alloc, count)?;
    for place in 0..count {
        tables.push(ConstantTable::new(weight_of(shape, weights, place)))?;
    }
    Ok(tables)
}

impl WeightTables {
    /// The tables of these weights.
    pub(crate) fn new(
        alloc: Global,
        shape: Shape,
        weights: &[[Symbol; 16]; 16],
    ) -> Result<WeightTables, Memory>
        ensures { IfOk result (λ tables. AreTabled shape.n shape.l weights.now tables) }
    {
        let items = tables(alloc, shape, weights)?;
        Ok(WeightTables { items })
    }

    /// Makes the tables of other weights in the same room.
    pub(crate) fn turn_to(&mut self, shape: Shape, weights: &[[Symbol; 16]; 16])
        requires { length self.old ≡ (shape.n - shape.l) * (shape.l - 1) }
        ensures { AreTabled shape.n shape.l weights.now self.new }
    {
        for place in 0..count(shape) {
            self.items[place] = ConstantTable::new(weight_of(shape, weights, place));
        }
    }

    /// The table of the weight of a primary provider at the point of a secondary one.
    pub(crate) fn of(&self, shape: Shape, provider: usize, primary: usize) -> &ConstantTable
        requires all { length self.now ≡ (shape.n - shape.l) * (shape.l - 1) }
        requires secondary { shape.l ≤ provider }
        requires provider { provider < shape.n }
        requires other { 1 ≤ primary }
        requires primary { primary < shape.l }
        ensures { result.now ≡ slice_index self.now ((provider - shape.l) * (shape.l - 1) + (primary - 1)) }
    {
        let others = usize::from(shape.l) - 1;
        &self.items[(provider - usize::from(shape.l)) * others + (primary - 1)]
    }
}
