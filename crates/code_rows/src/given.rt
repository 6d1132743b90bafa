ghost use Rattle.std.specs.Prelude.{◌≡◌, ◌≤◌, length};

use hail_field::Symbol;
use hail_poly::Work;
use std::alloc::Global;
use std::process::Abort;

/// The symbols of six numbers.
pub fn six(numbers: [u128; 6]) -> [Symbol; 6]
    ensures { length result ≡ 6 }
{
    [
        Symbol(numbers[0]),
        Symbol(numbers[1]),
        Symbol(numbers[2]),
        Symbol(numbers[3]),
        Symbol(numbers[4]),
        Symbol(numbers[5]),
    ]
}

/// Whether symbols have these numbers.
pub fn are_numbers(symbols: &[Symbol], numbers: &[u128]) -> bool {
    for k in 0..symbols.len() {
        let symbol = symbols[k];
        if k >= numbers.len() || symbol.0 != numbers[k] {
            return false;
        }
    }
    symbols.len() == numbers.len()
}

/// Registers for so many points.
pub fn work(rt: &impl Abort, alloc: Global, size: usize) -> Work
    requires { size ≤ 128 }
    ensures { result.size ≡ size }
{
    Work::new(alloc, size).expect(rt, "memory")
}

/// Passes where no row goes otherwise. Else the test ends with the place of the first that does.
pub fn no_other(rt: &impl Abort, place: Option<usize>) {
    assert_eq!(rt; place, None);
}
