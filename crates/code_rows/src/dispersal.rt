ghost use Rattle.std.specs.Prelude.{◌≡◌, ◌≤◌, length};
ghost use Rattle.algebra_laws.specs.Field.{Apart};

use crate::given::*;
use dispersal_code::{encode_row, open_row};
use hail_field::{Shape, Symbol};
use hail_poly::Work;

/// The numbers of the values at the first three points of the polynomial that a row opens to.
fn opened(
    points: &[Symbol],
    seen: &[Option<Symbol>],
    shape: Shape,
    work: &mut Work,
) -> Option<[u128; 3]>
    requires apart { Apart points.now }
    requires even { length points.now ≡ length seen.now }
    requires whole { length seen.now ≡ shape.n }
    requires room { 16 ≤ work.old.size }
    ensures room { work.new.size ≡ work.old.size }
{
    if open_row(points, seen, shape, work).is_none() {
        return None;
    }
    let first = work.value(points[0]);
    let second = work.value(points[1]);
    let third = work.value(points[2]);
    Some([first.0, second.0, third.0])
}

/// A shape, the numbers of the symbols seen at the points 0, 1 and so on, and those of the first three
/// symbols of the opened row.
type Row = ([u8; 3], &'static [Option<u128>], Option<[u128; 3]>);

static ROWS: [Row; 8] = [
    (
        [4, 1, 1],
        &[Some(7), Some(7), Some(7), Some(9)],
        Some([7, 7, 7]),
    ),
    (
        [4, 1, 1],
        &[Some(7), Some(7), Some(7), None],
        Some([7, 7, 7]),
    ),
    ([4, 1, 1], &[Some(7), Some(7), Some(9), Some(9)], None),
    (
        [5, 2, 1],
        &[Some(0), Some(5), Some(10), Some(0), Some(2)],
        Some([0, 5, 10]),
    ),
    (
        [5, 2, 1],
        &[Some(9), Some(5), Some(10), Some(15), Some(2)],
        Some([0, 5, 10]),
    ),
    (
        [5, 2, 1],
        &[Some(0), Some(5), Some(10), Some(0), Some(0)],
        None,
    ),
    (
        [7, 3, 1],
        &[
            Some(1),
            Some(1),
            Some(1),
            Some(1),
            Some(1),
            Some(1),
            Some(2),
        ],
        Some([1, 1, 1]),
    ),
    (
        [7, 3, 1],
        &[Some(1), Some(1), Some(1), Some(1), Some(1), None, Some(2)],
        None,
    ),
];

/// The points 0 to 6.
fn points() -> [Symbol; 7]
    ensures apart { Apart result }
    ensures length { length result ≡ 7 }
{
    [
        Symbol(0),
        Symbol(1),
        Symbol(2),
        Symbol(3),
        Symbol(4),
        Symbol(5),
        Symbol(6),
    ]
}

/// The symbol of a number.
fn symbol(number: Option<u128>) -> Option<Symbol> {
    match number {
        Some(number) => Some(Symbol(number)),
        None => None,
    }
}

/// Puts the symbols of these numbers to the front.
fn put_symbols(numbers: &[Option<u128>], out: &mut [Option<Symbol>])
    requires { length numbers.now ≤ length out.old }
    ensures { length out.new ≡ length out.old }
{
    for place in 0..numbers.len() {
        out[place] = symbol(numbers[place]);
    }
}

/// What the symbols of these numbers open to.
fn opened_numbers(shape: Shape, numbers: &[Option<u128>], work: &mut Work) -> Option<[u128; 3]>
    requires { 16 ≤ work.old.size }
{
    let n = numbers.len();
    let mut seen = [None; 7];
    if n != usize::from(shape.n) || n > 7 {
        return None;
    }
    put_symbols(numbers, &mut seen);
    opened(&points()[..n], &seen[..n], shape, work)
}

/// Whether the row opens as it says.
fn opens_so((shape, numbers, wanted): &Row, work: &mut Work) -> bool {
    let [n, l, b] = *shape;
    match Shape::new(n, l, b) {
        Some(shape) if work.size() >= 16 => opened_numbers(shape, numbers, work) == *wanted,
        _ => false,
    }
}

/// The place of the first row that opens otherwise.
fn first_other(work: &mut Work) -> Option<usize> {
    for (place, row) in ROWS.iter().enumerate() {
        if !opens_so(row, work) {
            return Some(place);
        }
    }
    None
}

#[test]
fn rows_open_where_all_symbols_but_few_lie_on_one_polynomial(rt: HostRuntime) {
    let mut work = work(&rt, rt.alloc(), 16);
    no_other(&rt, first_other(&mut work));
}

/// Whether the row of the values of 5 x is made of the first two.
fn encodes_a_line(work: &mut Work) -> bool
    requires { 16 ≤ work.old.size }
{
    let mut row = [Symbol(99); 7];
    encode_row(&points(), &[Symbol(0), Symbol(5)], &mut row, work);
    are_numbers(&row, &[0, 5, 10, 15, 2, 7, 8])
}

#[test]
fn rows_are_the_values_of_the_polynomial_through_their_primary_symbols(rt: HostRuntime) {
    let mut work = work(&rt, rt.alloc(), 16);
    assert!(rt; encodes_a_line(&mut work));
}
