ghost use Rattle.std.specs.Prelude.{◌≤◌};
ghost use Rattle.record_defs.specs.Records.{largest_file};

use code_points::find_profile;
use file_layout::*;
use hail_field::Shape;
use record_defs::LARGEST_FILE;

/// A file of this many bytes in stripes of 32.
fn file(length: u32) -> FileShape
    requires { length ≤ largest_file }
{
    FileShape {
        id: 1,
        length,
        shape: Shape::new(4, 1, 1).unwrap(),
        profile: find_profile(0).unwrap(),
    }
}

#[test]
fn files_have_stripes_and_rows(rt: HostRuntime) {
    let stripes = [
        file(0).stripes(),
        file(1).stripes(),
        file(32).stripes(),
        file(33).stripes(),
        file(LARGEST_FILE).stripes(),
    ];
    assert!(rt; stripes == [0, 1, 1, 2, 131_072] && file(33).rows() == 12);
}

/// Places of symbols in a file of 33 ones, and their numbers.
static SYMBOLS: [(u64, u128); 5] = [
    (0, 0x0101_0101_0101_0101_0101_0101_0101_0101),
    (1, 0x0101_0101_0101_0101_0101_0101_0101_0101),
    (2, 1),
    (3, 0),
    (u64::MAX, 0),
];

/// The place of the first of them that is another one.
fn first_other_symbol(file: &FileShape) -> Option<usize> {
    for (place, (number, wanted)) in SYMBOLS.iter().enumerate() {
        if file.symbol_at(&[1; 33], *number).0 != *wanted {
            return Some(place);
        }
    }
    None
}

#[test]
fn symbols_of_a_small_file(rt: HostRuntime) {
    assert_eq!(rt; first_other_symbol(&file(33)), None);
}
