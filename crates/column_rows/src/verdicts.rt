ghost use Rattle.std.specs.Prelude.{◌≡◌, ◌≤◌};

use crate::given::numbered_key;
use audit_verdict::*;
use code_points::find_profile;
use file_layout::FileShape;
use hail_field::{Shape, Symbol};
use hail_poly::Work;
use std::alloc::Global;
use std::process::Abort;

/// What the answers to a round come to, from counts of zero: the file of 33 bytes 1 over five providers, audit
/// 7, round 2.
fn judged(rt: &impl Abort, heard: &[Option<Symbol>], work: &mut Work) -> (Counts, u32)
    requires { 16 ≤ work.old.size }
    ensures { work.new.size ≡ work.old.size }
{
    let file = FileShape {
        id: 1,
        length: 33,
        shape: Shape::new(5, 2, 1).expect(rt, "a shape"),
        profile: find_profile(0).expect(rt, "a profile"),
    };
    assert!(rt; file.rows() >= 1 && heard.len() == 5);
    let mut counts = Counts { n: 5, by: [0; 16] };
    let mut undecided = 0;
    judge_round(
        &numbered_key(),
        &file,
        7,
        2,
        8,
        heard,
        &mut counts,
        &mut undecided,
        work,
    );
    (counts, undecided)
}

/// The answers of five providers, by the numbers of the symbols; 0 for an absent one.
fn answers(numbers: [u128; 5]) -> [Option<Symbol>; 5] {
    let mut answers = [None; 5];
    for j in 0..5 {
        if numbers[j] != 0 {
            answers[j] = Some(Symbol(numbers[j]));
        }
    }
    answers
}

/// What five providers answer, by the numbers of the symbols, how often each is counted, and how many rounds
/// are undecided.
type Row = ([u128; 5], [u32; 5], u32);

const A: u128 = 3_798_479_041_831_725_742_194_336_603_609_066_196;

const B: u128 = 16_888_512_359_423_466_102_465_962_004_913_467_825;

const C: u128 = 212_051_451_177_618_713_292_143_870_860_195_895_326;

const D: u128 = 310_356_382_528_342_129_239_408_973_463_502_462_012;

const E: u128 = 12_333_472_161_604_303_142_027_783_375_052_072_204;

static ROWS: [Row; 6] = [
    ([A, B, C, D, E], [0, 0, 0, 0, 0], 0),
    ([A, B, C, D, 0], [0, 0, 0, 0, 1], 0),
    ([B, B, C, D, E], [1, 0, 0, 0, 0], 0),
    ([A, B, D, D, E], [0, 0, 1, 0, 0], 0),
    ([B, B, C, D, 0], [0, 0, 0, 0, 0], 1),
    ([0, 0, 0, 0, 0], [0, 0, 0, 0, 0], 1),
];

/// Whether the answers of a row come to its counts and undecided rounds.
fn goes_so(rt: &impl Abort, alloc: Global, (numbers, counts, undecided): &Row) -> bool {
    let mut work = Work::new(alloc, 16).expect(rt, "memory");
    let (found, count) = judged(rt, &answers(*numbers), &mut work);
    found.n == 5 && found.by[..5] == counts[..] && count == *undecided
}

/// The place of the first row that goes otherwise.
fn first_other(rt: &impl Abort, alloc: Global) -> Option<usize> {
    for (place, row) in ROWS.iter().enumerate() {
        if !goes_so(rt, alloc, row) {
            return Some(place);
        }
    }
    None
}

// Keys, picks, columns and nim products written in Python from their definitions gave the right answers.
#[test]
fn wrong_and_absent_answers_count_where_few(rt: HostRuntime) {
    laws::right_answers_are_a_row();
    laws::rounds_with_few_wrong_answers_are_decided();
    laws::right_answers_are_not_counted();
    laws::wrong_answers_are_counted();
    assert_eq!(rt; first_other(&rt, rt.alloc()), None);
}
