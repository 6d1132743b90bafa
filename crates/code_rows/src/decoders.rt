ghost use Rattle.std.specs.Prelude.{◌≡◌, ◌≤◌, ◌+◌, ◌*◌, length};
ghost use Rattle.algebra_laws.specs.Field.{Apart};

use crate::given::*;
use hail_field::Symbol;
use hail_gao::decode_gao;
use hail_poly::Work;
use hail_syndrome::decode_syndromes;

/// The numbers of at most six symbols, and zeros behind them.
fn numbers(symbols: &[Symbol]) -> [u128; 6] {
    let mut numbers = [0; 6];
    for place in 0..symbols.len().min(6) {
        let symbol = symbols[place];
        numbers[place] = symbol.0;
    }
    numbers
}

/// The polynomial that Gao's decoder finds among the values, of which `fix` may be wrong.
fn by_quotient(
    points: &[Symbol],
    values: &[Symbol],
    keep: usize,
    fix: usize,
    work: &mut Work,
) -> Option<[u128; 6]>
    requires apart { Apart points.now }
    requires even { length points.now ≡ length values.now }
    requires keep { 1 ≤ keep }
    requires enough { keep + 2 * fix ≤ length values.now }
    requires room { length points.now ≤ work.old.size }
    ensures { work.new.size ≡ work.old.size }
{
    match decode_gao(points, values, keep, fix, work) {
        Some(_) => Some(numbers(work.rest())),
        None => None,
    }
}

/// That which the decoder by syndromes finds.
fn by_syndromes(
    points: &[Symbol],
    values: &[Symbol],
    keep: usize,
    fix: usize,
    work: &mut Work,
) -> Option<[u128; 6]>
    requires apart { Apart points.now }
    requires even { length points.now ≡ length values.now }
    requires keep { 1 ≤ keep }
    requires enough { keep + 2 * fix ≤ length values.now }
    requires room { length points.now ≤ work.old.size }
    ensures { work.new.size ≡ work.old.size }
{
    match decode_syndromes(points, values, keep, fix, work) {
        Some(_) => Some(numbers(work.rest())),
        None => None,
    }
}

/// The points 0 to 5.
fn places() -> [Symbol; 6]
    ensures apart { Apart result }
    ensures length { length result ≡ 6 }
{
    [
        Symbol(0),
        Symbol(1),
        Symbol(2),
        Symbol(3),
        Symbol(4),
        Symbol(5),
    ]
}

/// Six others.
fn others() -> [Symbol; 6]
    ensures apart { Apart result }
    ensures length { length result ≡ 6 }
{
    [
        Symbol(7),
        Symbol(0),
        Symbol(300),
        Symbol(1),
        Symbol(1 << 100),
        Symbol(255),
    ]
}

static WORDS: [[u128; 6]; 14] = [
    [0, 0, 0, 0, 0, 0],
    [0, 5, 10, 15, 2, 7],
    [0, 5, 10, 15, 0, 0],
    [0, 5, 10, 15, 2, 0],
    [9, 5, 10, 15, 2, 7],
    [9, 5, 10, 15, 2, 8],
    [9, 6, 10, 15, 2, 8],
    [0, 5, 10, 0, 0, 1],
    [1, 2, 3, 4, 5, 6],
    [1, 1, 1, 1, 2, 2],
    [3, 3, 0, 3, 0, 3],
    [7, 7, 7, 8, 8, 8],
    [1 << 120, 1 << 120, 1 << 120, 1, 1 << 120, 0],
    [12, 34, 56, 78, 90, 123],
];

/// Whether the decoders answer alike at these points, and with one polynomial.
fn agree_at(points: &[Symbol], values: &[Symbol], fix: usize, work: &mut Work) -> bool
    requires apart { Apart points.now }
    requires points { length points.now ≡ 6 }
    requires values { length values.now ≡ 6 }
    requires fix { fix ≤ 2 }
    requires room { 6 ≤ work.old.size }
    ensures { work.new.size ≡ work.old.size }
{
    by_quotient(points, values, 2, fix, work) == by_syndromes(points, values, 2, fix, work)
}

/// Whether they do at both choices of points.
fn agree(values: &[Symbol], fix: usize, work: &mut Work) -> bool
    requires values { length values.now ≡ 6 }
    requires fix { fix ≤ 2 }
    requires room { 6 ≤ work.old.size }
    ensures { work.new.size ≡ work.old.size }
{
    agree_at(&places(), values, fix, work) && agree_at(&others(), values, fix, work)
}

/// Whether they do on a word with none, one and two values that may be wrong.
fn agree_on(word: &[u128; 6], work: &mut Work) -> bool
    requires { 6 ≤ work.old.size }
{
    let values = six(*word);
    agree(&values, 0, work) && agree(&values, 1, work) && agree(&values, 2, work)
}

/// The place of the first word on which they do not.
fn first_other_word(work: &mut Work) -> Option<usize> {
    for (place, word) in WORDS.iter().enumerate() {
        if work.size() < 6 || !agree_on(word, work) {
            return Some(place);
        }
    }
    None
}

#[test]
fn decoders_agree_on_a_table_of_words(rt: HostRuntime) {
    let mut work = work(&rt, rt.alloc(), 6);
    no_other(&rt, first_other_word(&mut work));
}

/// Whether both decoders find this polynomial, or none.
fn both_find(
    points: &[Symbol],
    values: &[Symbol],
    keep: usize,
    fix: usize,
    wanted: Option<[u128; 6]>,
    work: &mut Work,
) -> bool
    requires apart { Apart points.now }
    requires even { length points.now ≡ length values.now }
    requires keep { 1 ≤ keep }
    requires enough { keep + 2 * fix ≤ length values.now }
    requires room { length points.now ≤ work.old.size }
    ensures { work.new.size ≡ work.old.size }
{
    by_quotient(points, values, keep, fix, work) == wanted
        && by_syndromes(points, values, keep, fix, work) == wanted
}

/// Six values at the points 0 to 5, how many of them may be wrong, and the polynomial that is found.
type Row = ([u128; 6], usize, Option<[u128; 6]>);

static ROWS: [Row; 7] = [
    ([0, 5, 10, 15, 2, 7], 0, Some([0, 5, 0, 0, 0, 0])),
    ([0, 5, 10, 15, 0, 0], 2, Some([0, 5, 0, 0, 0, 0])),
    ([0, 5, 10, 15, 0, 0], 1, None),
    ([0, 5, 10, 99, 2, 7], 1, Some([0, 5, 0, 0, 0, 0])),
    ([0, 5, 10, 0, 0, 1], 2, None),
    ([1, 5, 10, 15, 2, 8], 2, Some([0, 5, 0, 0, 0, 0])),
    ([9, 5, 10, 15, 2, 7], 1, Some([0, 5, 0, 0, 0, 0])),
];

/// The place of the first row that goes otherwise.
fn first_other_row(work: &mut Work) -> Option<usize> {
    for (place, (values, fix, wanted)) in ROWS.iter().enumerate() {
        if *fix > 2
            || work.size() < 6
            || !both_find(&places(), &six(*values), 2, *fix, *wanted, work)
        {
            return Some(place);
        }
    }
    None
}

#[test]
fn few_wrong_values_are_found(rt: HostRuntime) {
    let mut work = work(&rt, rt.alloc(), 6);
    no_other(&rt, first_other_row(&mut work));
}

/// Whether both find x among six values at the other points, of which two are wrong.
fn find_x(work: &mut Work) -> bool
    requires { 6 ≤ work.old.size }
    ensures { work.new.size ≡ work.old.size }
{
    let values = six([7, 0, 9, 1, 1 << 100, 9]);
    both_find(&others(), &values, 2, 2, Some([0, 1, 0, 0, 0, 0]), work)
}

/// Whether both find 0 where one of three values may be wrong, and take the values as they are where none
/// may.
fn find_zero(work: &mut Work) -> bool
    requires { 3 ≤ work.old.size }
{
    let points = [Symbol(7), Symbol(1), Symbol(9)];
    let values = [Symbol(0), Symbol(3), Symbol(0)];
    both_find(&points, &values, 1, 1, Some([0; 6]), work)
        && by_quotient(&points, &values, 3, 0, work) == by_syndromes(&points, &values, 3, 0, work)
        && work.value(Symbol(1)).0 == 3
}

#[test]
fn any_points_will_do(rt: HostRuntime) {
    let mut work = work(&rt, rt.alloc(), 6);
    assert!(rt; find_x(&mut work) && find_zero(&mut work));
}
