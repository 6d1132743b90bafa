ghost use Rattle.std.specs.Prelude.{◌≡◌, ◌≤◌, length};
ghost use Rattle.server_code.specs.Any.{code_profile};

use crate::given::*;
use code_points::find_profile;
use hail_field::Symbol;
use hail_poly::Work;
use server_code::AnyCode;
use std::alloc::Global;
use std::process::Abort;

/// The code of a profile.
fn code_of(rt: &impl Abort, alloc: Global, number: u8) -> AnyCode {
    let profile = find_profile(number).expect(rt, "a known number");
    AnyCode::new(alloc, profile).expect(rt, "memory")
}

/// Whether a block of profile 0 is the codeword of its first two symbols.
fn is_encoded(code: &AnyCode, numbers: &[u128; 6]) -> bool {
    let profile = code.profile();
    let mut block = [Symbol::ZERO; 6];
    if profile.keep != 2 || profile.size != 6 {
        return false;
    }
    code.encode_into(&[Symbol(numbers[0]), Symbol(numbers[1])], &mut block);
    are_numbers(&block, numbers)
}

/// A block of profile 0, how many symbols of it are corrected, if it decodes, and the block then.
type Block = ([u128; 6], Option<u32>, [u128; 6]);

const BLOCKS: [Block; 4] = [
    ([0, 5, 10, 15, 2, 7], Some(0), [0, 5, 10, 15, 2, 7]),
    ([0, 5, 10, 15, 0, 0], Some(2), [0, 5, 10, 15, 2, 7]),
    ([0, 5, 10, 0, 0, 0], Some(2), [0, 0, 0, 0, 0, 0]),
    ([0, 5, 10, 0, 0, 1], None, [0, 5, 10, 0, 0, 1]),
];

/// Whether a block decodes as the row says, and what it decodes to is encoded.
fn decodes_so(code: &AnyCode, (block, count, left): &Block, work: &mut Work) -> bool {
    let mut block = six(*block);
    code.profile().size == 6
        && work.size() >= 6
        && code.decode_in(&mut block, work) == *count
        && are_numbers(&block, left)
        && (count.is_none() || is_encoded(code, left))
}

/// Whether all of these blocks do.
fn decodes_all(code: &AnyCode, rows: &[Block], work: &mut Work) -> bool {
    for row in rows.iter() {
        if !decodes_so(code, row, work) {
            return false;
        }
    }
    true
}

/// Makes the codeword of a 1 behind zeros.
fn encode_one(code: &AnyCode, block: &mut [Symbol])
    requires { length block.old ≡ (code_profile code.now).size }
    ensures { length block.new ≡ length block.old }
{
    let mut kept = [Symbol::ZERO; 96];
    let keep = code.profile().keep as usize;
    if 1 <= keep && keep <= 96 {
        kept[keep - 1] = Symbol::ONE;
        code.encode_into(&kept[..keep], block);
    }
}

/// Changes a block at every third place, at so many in all.
fn spoil(block: &mut [Symbol], errors: u32)
    requires some { 1 ≤ length block.old }
    requires few { errors ≤ 128 }
    ensures { length block.new ≡ length block.old }
{
    for k in 0..errors {
        let place = 3 * k as usize % block.len();
        block[place] = block[place].add(Symbol(2 + 256 * k as u128));
    }
}

/// How many symbols are corrected of the codeword of a 1 behind zeros, spoiled at so many places, and whether
/// it is given back.
fn corrected(code: &AnyCode, errors: u32, work: &mut Work) -> (Option<u32>, bool)
    requires size { 1 ≤ (code_profile code.now).size }
    requires most { (code_profile code.now).size ≤ 128 }
    requires room { (code_profile code.now).size ≤ work.old.size }
    requires few { errors ≤ 128 }
{
    let size = code.profile().size as usize;
    let mut codeword = [Symbol::ZERO; 128];
    encode_one(code, &mut codeword[..size]);
    let mut block = codeword;
    spoil(&mut block[..size], errors);
    let count = code.decode_in(&mut block[..size], work);
    (count, block == codeword)
}

/// The same by the guess alone.
fn guessed(code: &AnyCode, errors: u32) -> (Option<u32>, bool)
    requires size { 1 ≤ (code_profile code.now).size }
    requires most { (code_profile code.now).size ≤ 128 }
    requires few { errors ≤ 128 }
{
    let size = code.profile().size as usize;
    let mut codeword = [Symbol::ZERO; 128];
    encode_one(code, &mut codeword[..size]);
    let mut block = codeword;
    spoil(&mut block[..size], errors);
    let count = code.guess_in(&mut block[..size]);
    (count, block == codeword)
}

/// How many symbols are spoiled, and whether the codeword is given back.
type Spoiled = (u32, bool);

/// Whether the codeword is given back as the row says, also by the guess alone.
fn corrects_so(code: &AnyCode, (errors, is_found): &Spoiled, work: &mut Work) -> bool {
    let size = code.profile().size;
    if size == 0 || size > 128 || work.size() != 128 || *errors > 128 {
        return false;
    }
    let count = if *is_found { Some(*errors) } else { None };
    corrected(code, *errors, work) == (count, *is_found)
        && guessed(code, *errors) == (count, *is_found)
}

/// Whether it is in all of these rows.
fn corrects_all(code: &AnyCode, rows: &[Spoiled], work: &mut Work) -> bool {
    for row in rows.iter() {
        if !corrects_so(code, row, work) {
            return false;
        }
    }
    true
}

/// The number of a profile, and rows of both kinds for its code.
type Profile = (u8, &'static [Spoiled], &'static [Block]);

static PROFILES: [Profile; 5] = [
    (0, &[(1, true), (2, true)], &BLOCKS),
    (1, &[(4, true)], &[]),
    (2, &[(4, true)], &[]),
    (3, &[(8, true)], &[]),
    (4, &[(1, true), (7, true), (16, true), (17, false)], &[]),
];

/// Whether the code of a profile goes as its rows say.
fn goes_so(rt: &impl Abort, alloc: Global, rows: &Profile, work: &mut Work) -> bool {
    let (number, spoiled, blocks) = *rows;
    let code = code_of(rt, alloc, number);
    corrects_all(&code, spoiled, work) && decodes_all(&code, blocks, work)
}

/// The place of the first profile whose code does not.
fn first_other(rt: &impl Abort, alloc: Global, work: &mut Work) -> Option<usize> {
    for (place, rows) in PROFILES.iter().enumerate() {
        if !goes_so(rt, alloc, rows, work) {
            return Some(place);
        }
    }
    None
}

#[test]
fn blocks_decode_as_worked_out_and_all_that_can_be_corrected_is_found(rt: HostRuntime) {
    let mut work = work(&rt, rt.alloc(), 128);
    no_other(&rt, first_other(&rt, rt.alloc(), &mut work));
}
