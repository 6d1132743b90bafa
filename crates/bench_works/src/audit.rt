//! Rounds of an audit of a file, in memory.
ghost use Rattle.std.specs.Prelude.{◌≡◌, ◌≤◌, ◌<◌, ◌*◌, slice_get};
ghost use Rattle.column_defs.specs.Objects.{stripes};
ghost use Rattle.column_defs.specs.Challenges.{symbol_at as symbol_at_of};
ghost use Rattle.file_layout.specs.Files.{shaped_object};
ghost use Rattle.bench_works.specs.declared.stripes.TheConstants.{MASTER};

use crate::blocks::mix;
use crate::failure::Failure;
use crate::numbers::number_named;
use crate::outcome::{NOTHING, Outcome};
use crate::stripes::{MASTER, file_over, make};
use aggregate::{Blocks, answer};
use audit_verdict::{Counts, judge_round, round_challenge};
use code_points::find_profile;
use column_codec::{Bench, Block, ObjectKeys};
use file_layout::FileShape;
use hail_field::Symbol;
use hail_poly::Work;
use std::alloc::Global;

/// How many bytes the audited file has.
const BYTES: u32 = 65_536;

/// The number of the audit.
const AUDIT: u64 = 1;

/// The blocks that one provider holds of the file, by stripe.
#[derive(Drop)]
struct Held {
    blocks: Vec<Block>,
}

/// The symbol at a place of a block, none where the block is not of the size.
fn symbol_at(block: &[Symbol], place: u32, size: u32) -> Option<Symbol>
    requires { place < size }
    ensures { result ≡ symbol_at_of size place (Some block.now) }
{
    if block.len() == size as usize {
        Some(block[place as usize])
    } else {
        None
    }
}

impl Blocks for Held {
    ghost held = { λ held stripe. slice_get held.blocks.items stripe };

    fn at(&self, stripe: u32, place: u32, size: u32) -> Option<Symbol> {
        match self.blocks.get(stripe as usize) {
            Some(block) => symbol_at(block.symbols(), place, size),
            None => None,
        }
    }
}

/// Rounds of an audit of a file of 65,536 bytes at profile 4, of which all providers hold what they are to
/// hold.
#[derive(Drop)]
pub struct AuditWork {
    file: FileShape,
    providers: Vec<Held>,
    rounds: u32,
    picks: u32,
    ghost some_rows: { 1 ≤ stripes (shaped_object MASTER.0 file) file.length * file.profile.size },
    ghost few_rounds: { rounds ≤ 64 },
    ghost some_picks: { 1 ≤ picks },
    ghost few_picks: { picks ≤ 64 },
}

/// What a provider is to hold of a file of these bytes.
fn held_by(alloc: Global, bench: &mut Bench, bytes: &[u8], provider: u32) -> Result<Held, Failure>
    requires { provider < bench.old.keys.file.shape.n }
    ensures { bench.new.keys ≡ bench.old.keys }
{
    let mut blocks = Vec::new(alloc);
    for stripe in 0..bench.keys.file.stripes() {
        make(bench, bytes, stripe, provider);
        let mut block = Block::zeros(alloc, bench.column.len())?;
        block.symbols_mut().copy_from_slice(&bench.column);
        blocks.push(block)?;
    }
    Ok(Held { blocks })
}

/// The bytes of the audited file: 7 first, then each 5 times the one before, and 1. An audit takes as long
/// whatever they are.
fn audited_bytes(alloc: Global, length: u32) -> Result<Vec<u8>, Failure> {
    let mut bytes = vec![in alloc; 0_u8; length as usize]?;
    let mut next: u8 = 7;
    for place in 0..bytes.len() {
        bytes[place] = next;
        next = next.wrapping_mul(5).wrapping_add(1);
    }
    Ok(bytes)
}

/// What all providers are to hold of the audited file.
fn all_held(alloc: Global, file: &FileShape) -> Result<Vec<Held>, Failure> {
    let bytes = audited_bytes(alloc, file.length)?;
    let mut bench = Bench::new(alloc, ObjectKeys::new(&MASTER, file))?;
    let mut providers = Vec::new(alloc);
    for provider in 0..file.shape.n {
        let next = held_by(alloc, &mut bench, &bytes, u32::from(provider))?;
        providers.push(next)?;
    }
    Ok(providers)
}

/// A checksum, after these answers, 0 for each that is absent.
fn mix_answers(start: u128, heard: &[Option<Symbol>]) -> u128 {
    let mut sum = start;
    for j in 0..heard.len() {
        sum = mix(sum, heard[j].unwrap_or(Symbol::ZERO));
    }
    sum
}

/// A checksum, after the count of each provider, and of how many rounds were undecided.
fn mix_counts(start: u128, counts: &Counts, undecided: u32) -> u128 {
    let mut sum = start;
    for count in counts.by {
        sum = mix(sum, Symbol(u128::from(count)));
    }
    mix(sum, Symbol(u128::from(undecided)))
}

/// The file that is audited, over as many providers as three words write.
fn audited_file(n: &str, l: &str, b: &str) -> Result<FileShape, Failure> {
    file_over(n, l, b, find_profile(4).ok_or(Failure::Usage)?, BYTES)
}

impl AuditWork {
    /// The work that these words name: a shape, a count of rounds and one of picks, each at most 64. Makes
    /// the blocks.
    pub(crate) fn from_words(alloc: Global, words: &[String]) -> Result<AuditWork, Failure> {
        let [n, l, b, rounds, picks] = words else {
            return Err(Failure::Usage);
        };
        let file = audited_file(n, l, b)?;
        let rounds = number_named(rounds)?;
        let picks = number_named(picks)?;
        if rounds > 64 || picks > 64 || picks < 1 || file.rows() < 1 {
            return Err(Failure::Usage);
        }
        let providers = all_held(alloc, &file)?;
        Ok(AuditWork {
            file,
            providers,
            rounds,
            picks,
        })
    }

    /// What all providers answer in a round.
    fn answers(&self, round: u32) -> [Option<Symbol>; 16] {
        let challenge = round_challenge(&MASTER, &self.file, AUDIT, round, self.picks);
        let mut answers = [None; 16];
        for (heard, provider) in answers.iter_mut().zip(self.providers.iter()) {
            *heard = answer(&challenge, provider);
        }
        answers
    }

    /// Asks all providers in each round, and judges what they answer. The checksum is of each answer, then of
    /// each provider's count, and of how many rounds were undecided.
    pub(crate) fn run(&self, alloc: Global) -> Result<Outcome, Failure> {
        let mut work = Work::new(alloc, 16)?;
        let n = self.file.shape.n;
        let mut counts = Counts { n, by: [0; 16] };
        let mut undecided = 0;
        let mut sum = 0;
        for round in 0..self.rounds {
            let answers = self.answers(round);
            let heard = &answers[..usize::from(n)];
            judge_round(
                &MASTER,
                &self.file,
                AUDIT,
                round,
                self.picks,
                heard,
                &mut counts,
                &mut undecided,
                &mut work,
            );
            sum = mix_answers(sum, heard);
        }
        Ok(Outcome {
            count: self.rounds,
            checksum: mix_counts(sum, &counts, undecided),
            decoded: NOTHING,
        })
    }
}
