ghost use Rattle.std.specs.Prelude.{◌≡◌, ◌<◌, ◌≤◌, ◌+◌, All, length, replicate};

use crate::given::numbered_key;
use code_points::find_profile;
use column_codec::*;
use file_layout::FileShape;
use hail_field::{Shape, Symbol};
use std::alloc::Global;
use std::process::Abort;

/// A block of zeros.
fn zeros(rt: &impl Abort, alloc: Global, size: u32) -> Block
    ensures { result ≡ replicate size 0 }
{
    Block::zeros(alloc, size as usize).expect(rt, "memory")
}

/// A block that ones were written to.
fn ones(rt: &impl Abort, alloc: Global) -> Block {
    let mut ones = zeros(rt, alloc, 2);
    ones.symbols_mut().fill(Symbol::ONE);
    ones
}

#[test]
fn blocks_hold_what_is_written(rt: HostRuntime) {
    let zeros = zeros(&rt, rt.alloc(), 6);
    let ones = ones(&rt, rt.alloc());
    assert!(rt;
        zeros.symbols() == [Symbol::ZERO; 6].as_slice()
            && ones.symbols() == [Symbol::ONE; 2].as_slice()
    );
}

/// A bench for a file of profile 0 over four providers, of which one keeps symbols.
#[derive(Drop)]
struct Small {
    bench: Bench,
    ghost n: { bench.keys.file.shape.n ≡ 4 },
    ghost l: { bench.keys.file.shape.l ≡ 1 },
    ghost size: { bench.keys.file.profile.size ≡ 6 },
    ghost keep: { bench.keys.file.profile.keep ≡ 2 },
}

/// One for such a file of this many bytes.
fn small_file(rt: &impl Abort, alloc: Global, length: u32) -> Small
    requires { length ≤ 64 }
{
    let profile = find_profile(0).expect(rt, "a profile");
    let file = FileShape {
        id: 1,
        length,
        shape: Shape::new(4, 1, 1).expect(rt, "a shape"),
        profile,
    };
    let bench = Bench::made(alloc, &numbered_key(), &file).expect(rt, "memory");
    Small { bench }
}

/// Four blocks of zeros.
fn four(rt: &impl Abort, alloc: Global, size: u32) -> [Block; 4]
    ensures { All (λ block. length block ≡ size) result }
{
    [
        zeros(rt, alloc, size),
        zeros(rt, alloc, size),
        zeros(rt, alloc, size),
        zeros(rt, alloc, size),
    ]
}

/// The blocks of a stripe of these bytes.
fn stripe(
    rt: &impl Abort,
    alloc: Global,
    small: &mut Small,
    number: u32,
    bytes: &[u8],
) -> [Block; 4] {
    let mut out = four(rt, alloc, small.bench.keys.file.profile.size);
    small.bench.encode(number, bytes, &mut out);
    out
}

/// The block of the first provider of the file of the bytes `new`.
const FIRST: [Symbol; 6] = [
    Symbol(7_824_750),
    Symbol(0),
    Symbol(15_654_873),
    Symbol(10_074_807),
    Symbol(14_518_155),
    Symbol(11_199_205),
];

/// That of the last one.
const LAST: [Symbol; 6] = [
    Symbol(282_905_808_488_562_616_506_113_456_627_209_237_923),
    Symbol(323_934_546_121_161_916_499_072_006_326_475_908_507),
    Symbol(151_322_141_131_856_566_946_823_700_598_199_692_651),
    Symbol(202_290_741_015_850_316_008_317_975_201_110_089_391),
    Symbol(183_027_609_732_547_300_064_243_595_800_746_461_548),
    Symbol(132_404_573_127_933_671_675_181_182_103_186_996_486),
];

/// Whether these are the first and the last block.
fn are_known(blocks: &[Block; 4]) -> bool {
    blocks[0].symbols() == FIRST.as_slice() && blocks[3].symbols() == LAST.as_slice()
}

/// The block at hand.
fn column(bench: &Bench) -> [Symbol; 6]
    requires { bench.now.keys.file.profile.size ≡ 6 }
{
    let mut block = [Symbol::ZERO; 6];
    block.copy_from_slice(&bench.column);
    block
}

/// The block of the last provider of the bytes `new`, made alone.
fn last(small: &mut Small) -> [Symbol; 6] {
    let bench = &mut small.bench;
    bench.take_symbols(&[Symbol(7_824_750), Symbol::ZERO]);
    bench.make_column(0, 3);
    column(bench)
}

// Keys, codewords and nim products written in Python from their definitions gave these values.
#[test]
fn columns_are_as_computed_elsewhere(rt: HostRuntime) {
    let mut new = small_file(&rt, rt.alloc(), 3);
    let blocks = stripe(&rt, rt.alloc(), &mut new, 0, b"new");
    assert!(rt; are_known(&blocks) && last(&mut new) == LAST);
}

/// What a stripe opens to: the answer, and its symbols.
type Found = (Result<(), RowLost>, [Symbol; 2]);

/// What the second stripe of a file opens to.
fn opened(
    rt: &impl Abort,
    alloc: Global,
    small: &mut Small,
    seen: &[Symbol; 24],
    present: &[bool; 4],
) -> Found {
    let mut codec = Codec::new(alloc).expect(rt, "memory");
    let bench = &mut small.bench;
    bench.take_symbols(&[Symbol::ONE; 2]);
    let answer = bench.open(&mut codec, 1, seen, present);
    let mut rows = [Symbol::ONE; 2];
    rows.copy_from_slice(&bench.rows);
    (answer, rows)
}

/// Lays the symbols of a block from a place on.
fn lay(block: &[Symbol], place: usize, seen: &mut [Symbol])
    requires block { length block.now ≡ 6 }
    requires place { place + 6 ≤ length seen.old }
{
    seen[place..place + 6].copy_from_slice(block);
}

/// Four blocks one after the other, without the first.
fn without_first(blocks: &[Block; 4]) -> [Symbol; 24] {
    let mut seen = [Symbol::ZERO; 24];
    for j in 1..4 {
        let block = blocks[j].symbols();
        if block.len() == 6 {
            lay(block, 6 * j, &mut seen);
        }
    }
    seen
}

/// Makes the block of a provider in the second stripe of ones.
fn make(small: &mut Small, provider: u32)
    requires { provider < 4 }
{
    let bench = &mut small.bench;
    bench.take_stripe(&[1; 33], 1);
    bench.make_column(1, provider);
}

/// The blocks of the second stripe of ones, made one by one, without the first.
fn one_list(small: &mut Small) -> [Symbol; 24] {
    let mut seen = [Symbol::ZERO; 24];
    for j in 1..4 {
        make(small, j as u32);
        lay(&small.bench.column, 6 * j, &mut seen);
    }
    seen
}

/// What the second stripe of 33 ones opens to: without the first block, without it where the blocks were made
/// one by one, and without any.
fn openings(rt: &impl Abort, alloc: Global) -> [Found; 3] {
    let mut ones = small_file(rt, alloc, 33);
    let blocks = stripe(rt, alloc, &mut ones, 1, &[1; 33]);
    let seen = without_first(&blocks);
    let listed = one_list(&mut ones);
    let present = [false, true, true, true];
    [
        opened(rt, alloc, &mut ones, &seen, &present),
        opened(rt, alloc, &mut ones, &listed, &present),
        opened(rt, alloc, &mut ones, &seen, &[false; 4]),
    ]
}

#[test]
fn stripes_open_with_one_block_absent_and_lose_a_row_without_any(rt: HostRuntime) {
    let wanted = [
        (Ok(()), [Symbol::ONE, Symbol::ZERO]),
        (Ok(()), [Symbol::ONE, Symbol::ZERO]),
        (Err(RowLost { row: 6 }), [Symbol::ZERO; 2]),
    ];
    assert!(rt; openings(&rt, rt.alloc()) == wanted);
}

/// A bench for a file of profile 0 over sixteen providers, of which two keep symbols.
#[derive(Drop)]
struct Wide {
    bench: Bench,
    ghost n: { bench.keys.file.shape.n ≡ 16 },
    ghost l: { bench.keys.file.shape.l ≡ 2 },
    ghost size: { bench.keys.file.profile.size ≡ 6 },
    ghost keep: { bench.keys.file.profile.keep ≡ 2 },
}

/// Keys with tables.
fn tabled(rt: &impl Abort, alloc: Global) -> ObjectKeys {
    let file = FileShape {
        id: 1,
        length: 64,
        shape: Shape::new(16, 2, 2).expect(rt, "a shape"),
        profile: find_profile(0).expect(rt, "a profile"),
    };
    ObjectKeys::with_tables(alloc, &numbered_key(), &file).expect(rt, "memory")
}

/// One for the file of 64 ones, turned to it from another one.
fn wide_file(rt: &impl Abort, alloc: Global) -> Wide {
    let mut bench = Bench::new(alloc, tabled(rt, alloc)).expect(rt, "memory");
    bench.turn_to(2);
    let (shape, profile) = (bench.keys.file.shape, bench.keys.file.profile);
    assert!(rt; shape.n == 16 && shape.l == 2 && profile.size == 6 && profile.keep == 2);
    Wide { bench }
}

/// Makes the codeword of a provider: of a stripe of ones, or of other symbols where it lies.
fn give(wide: &mut Wide, provider: u32, lies: bool)
    requires { provider < 16 }
{
    let bench = &mut wide.bench;
    if lies {
        bench.take_symbols(&[Symbol(u128::from(provider) + 2); 4]);
    } else {
        bench.take_stripe(&[1; 64], 0);
    }
    bench.make_column(0, provider);
}

/// The codewords of all sixteen, one after the other, with one wrong symbol in each if all err.
fn all_given(wide: &mut Wide, liars: &[u32], err: bool) -> [Symbol; 96] {
    let mut seen = [Symbol::ZERO; 96];
    for j in 0..16 {
        give(wide, j as u32, liars.contains(&(j as u32)));
        lay(&wide.bench.column, 6 * j, &mut seen);
        if err {
            seen[6 * j] = seen[6 * j].add(Symbol::ONE);
        }
    }
    seen
}

/// Whether what was seen opens to a stripe of ones.
fn opens(wide: &mut Wide, codec: &mut Codec, seen: &[Symbol; 96]) -> bool {
    let bench = &mut wide.bench;
    let answer = bench.open(codec, 0, seen, &[true; 16]);
    answer == Ok(())
        && bench.rows.as_slice()
            == [Symbol(0x0101_0101_0101_0101_0101_0101_0101_0101); 4].as_slice()
}

/// Whether stripes open so one after the other, in each of which these providers lie, the first with each
/// provider trusted; and how many blocks and rows were decoded.
fn open_in_turn(
    rt: &impl Abort,
    alloc: Global,
    wide: &mut Wide,
    stripes: &[&[u32]],
    err: bool,
) -> (bool, u32, u32) {
    let mut codec = Codec::new(alloc).expect(rt, "memory");
    wide.bench.at_hand = AtHand::new();
    let mut open = true;
    for liars in stripes {
        let seen = all_given(wide, *liars, err);
        open = opens(wide, &mut codec, &seen) && open;
    }
    let decoded = wide.bench.at_hand.trust.decoded();
    (open, decoded.blocks, decoded.rows)
}

/// Which of sixteen providers give codewords of other symbols in each of some stripes, whether one symbol of
/// each block is wrong, and whether all open, with how many blocks and rows decoded. A clean one takes none,
/// nor does a liar that no guess rests on. Others cost one row the first time, and none the second. Where
/// symbols are wrong the blocks are decoded each time; a row then finds the liars each time. Three liars are
/// too many: two guesses and a row itself find no polynomial. Two that lied before are trusted again when a
/// third lies, so that one of them costs a row again.
type Beside = (&'static [&'static [u32]], bool, (bool, u32, u32));

static BESIDE: [Beside; 9] = [
    (&[&[], &[]], false, (true, 0, 0)),
    (&[&[0, 1], &[0, 1]], false, (true, 0, 1)),
    (&[&[1, 6], &[1, 6]], false, (true, 0, 1)),
    (&[&[15], &[15], &[15]], false, (true, 0, 0)),
    (&[&[0, 15], &[0, 15], &[0, 15]], false, (true, 0, 1)),
    (&[&[0, 15], &[1], &[0]], false, (true, 0, 3)),
    (&[&[1, 15], &[1, 15]], true, (true, 32, 2)),
    (&[&[], &[]], true, (true, 32, 0)),
    (&[&[0, 1, 2], &[]], false, (false, 16, 3)),
];

/// The place of the first row that goes otherwise.
fn first_other(rt: &impl Abort, alloc: Global, wide: &mut Wide) -> Option<usize> {
    for (place, (stripes, err, wanted)) in BESIDE.iter().enumerate() {
        if open_in_turn(rt, alloc, wide, *stripes, *err) != *wanted {
            return Some(place);
        }
    }
    None
}

#[test]
fn stripes_open_beside_liars(rt: HostRuntime) {
    let mut wide = wide_file(&rt, rt.alloc());
    assert_eq!(rt; first_other(&rt, rt.alloc(), &mut wide), None);
}
