// The command `row`.
ghost use Rattle.std.specs.Prelude.{◌≡◌, ◌≤◌, ◌↔◌, length, IsSome, IfSome, IfOk, MatchOption};
ghost use Rattle.hail_field.specs.Shape.{IsShape};
ghost use Rattle.code_defs.specs.Points.{upto, values_at};
ghost use Rattle.code_defs.specs.DispersalCode.{AcceptsNone};
ghost use Rattle.command_defs.specs.Row.{AnswersRow, OpensRow};
ghost use Rattle.command_defs.specs.Line.{values_line};
ghost use Rattle.command_defs.specs.Sinking.{WritesLine};

use command_lines::{tell_no_row, values_line, write_text};
use command_words::Row;
use dispersal_code::laws::accepted_polynomial_is_unique;
use dispersal_code::open_row;
use exit_statuses::{BAD_SETUP, NO_MEMORY};
use hail_field::{Memory, Shape, Symbol};
use hail_poly::Work;
use std::alloc::{AllocError, Global};
use stream_model::Sink;

/// The most providers of a shape.
const MOST: usize = 16;

/// The shape with these numbers, where there is one.
fn row_shape(n: u128, l: u128, b: u128) -> Option<Shape>
    ensures fits { IsSome result ↔ IsShape n l b }
    ensures value { IfSome result (λ shape. (shape.n ≡ n) × (shape.l ≡ l) × (shape.b ≡ b)) }
{
    if n.max(l).max(b) > MOST as u128 {
        return None;
    }
    Shape::new(n as u8, l as u8, b as u8)
}

/// The points 0 to count - 1.
fn points(alloc: Global, count: u8) -> Result<Vec<Symbol>, AllocError>
    ensures { IfOk result (λ points. points.items ≡ upto count) }
{
    let mut points = Vec::new(alloc);
    for place in 0..count {
        points.push(Symbol(u128::from(place)))?;
    }
    Ok(points)
}

/// The values of the rest at the points.
fn values(alloc: Global, points: &[Symbol], work: &Work) -> Result<Vec<Symbol>, AllocError>
    ensures { IfOk result (λ values. values.items ≡ values_at points.now work.now.rest) }
{
    let mut values = Vec::new(alloc);
    for point in points {
        values.push(work.value(*point))?;
    }
    Ok(values)
}

/// The values of the rest at so many points, from 0 on.
fn first_values(alloc: Global, count: u8, work: &Work) -> Result<Vec<Symbol>, AllocError>
    ensures { IfOk result (λ values. values.items ≡ values_at (upto count) work.now.rest) }
{
    let first = points(alloc, count)?;
    values(alloc, &first, work)
}

/// The values at the first `l` points of the polynomial that is accepted at the points 0 to n - 1.
fn open(alloc: Global, seen: &[Option<Symbol>], shape: Shape) -> Result<Option<Vec<Symbol>>, Memory>
    requires { length seen.now ≡ shape.n }
    ensures { IfOk result (λ opened. MatchOption opened
        (AcceptsNone (upto shape.n) seen.now shape.l shape.b)
        (λ values. OpensRow shape.n shape.l shape.b seen.now values.items)) }
{
    let all = points(alloc, shape.n)?;
    let mut work = Work::new(alloc, MOST)?;
    if open_row(&all, seen, shape, &mut work).is_none() {
        return Ok(None);
    }
    Ok(Some(first_values(alloc, shape.l, &work)?))
}

/// Writes the line of some values.
fn write_values<K: Sink>(alloc: Global, values: &[Symbol], sink: &mut K) -> u8
    ensures writes { WritesLine (values_line values.now) result
        (record {
          old = K.written sink.old;
          new = K.written sink.new;
          before = K.faults sink.old;
          now = K.faults sink.new;
        }) }
    ensures count { K.faults sink.old ≤ K.faults sink.new }
{
    match values_line(alloc, values) {
        Ok(line) => write_text(line.as_slice(), sink),
        Err(_) => NO_MEMORY,
    }
}

/// Writes the values of the row, or that it is lost.
pub fn answer_row<K: Sink>(alloc: Global, row: &Row, sink: &mut K) -> u8
    requires { length row.now.seen.items ≡ row.now.n }
    ensures answers { AnswersRow row.now.n row.now.l row.now.b row.now.seen.items result
        (record {
          old = K.written sink.old;
          new = K.written sink.new;
          before = K.faults sink.old;
          now = K.faults sink.new;
        }) }
    ensures count { K.faults sink.old ≤ K.faults sink.new }
{
    accepted_polynomial_is_unique();
    let Some(shape) = row_shape(row.n, row.l, row.b) else {
        return BAD_SETUP;
    };
    match open(alloc, &row.seen, shape) {
        Ok(Some(values)) => write_values(alloc, &values, sink),
        Ok(None) => tell_no_row(sink),
        Err(Memory) => NO_MEMORY,
    }
}
