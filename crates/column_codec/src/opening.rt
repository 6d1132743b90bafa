ghost use Rattle.std.specs.Prelude.{◌≡◌, ◌≤◌, ◌<◌, ◌*◌, ◌%◌, ◌≢◌, ◌+◌, ℕ, Some, None, length, map, slice_index, slice_index_or, [], replicate, OnOk, OnErr, IfErr, if◌then◌else◌};
ghost use Rattle.std.specs.Bool.{OnTrue, OnFalse};
ghost use Rattle.code_defs.specs.Polynomials.{value};
ghost use Rattle.code_defs.specs.Points.{upto};
ghost use Rattle.column_defs.specs.Opened.{AcceptsRow, AcceptsNoRow, symbol_in};
ghost use Rattle.file_layout.specs.Files.{shaped_object};
ghost use Rattle.column_codec.specs.OpenedBlocks.{opened_at, opened_of, HasRow, LosesPlace};
ghost use Rattle.column_codec.specs.Views.{opened_object, opened_blocks};

use crate::block::Block;
use crate::keys::ObjectKeys;
use crate::opened::Opened;
use crate::trust::{Trust, without};
use dispersal_code::open_row;
use hail_field::Symbol;
use hail_poly::Work;

// The symbol at a place of a block, none where the block did not open.
fn marked_symbol(mark: bool, block: &Block, place: usize) -> Option<Symbol>
    requires { place < length block.now }
    ensures { result ≡ symbol_in place (if mark then Some block.now else None) }
{
    if mark {
        Some(block.symbols()[place])
    } else {
        None
    }
}

// The opened symbols of a row.
#[tactic(auto, using(crate::proofs::Places::filled_more))]
fn seen_row(marks: &[bool; 16], blocks: &[Block], place: usize, out: &mut [Option<Symbol>])
    requires few { length blocks.now ≤ 16 }
    requires fits { length out.old ≡ length blocks.now }
    requires place { (j : ℕ) → j < length blocks.now → place < length (slice_index_or blocks.now j []) }
    ensures { out.new ≡ map (λ j. symbol_in place (opened_at marks.now blocks.now j))
        (upto (length out.old)) }
{
    for j in 0..out.len() {
        out[j] = marked_symbol(marks[j], &blocks[j], place);
    }
}

// Makes all symbols zero.
fn clear(out: &mut [Symbol])
    ensures { out.new ≡ replicate (length out.old) 0 }
{
    for symbol in out.iter_mut() {
        *symbol = Symbol::ZERO;
    }
}

// Puts the values of a polynomial at the points 0 to l - 1 to a place of each of l blocks of keep symbols.
#[tactic(auto, using(crate::proofs::Places::index_within))]
fn put_row(work: &Work, keep: usize, place: usize, l: usize, out: &mut [Symbol])
    requires place { place < keep }
    requires fits { length out.old ≡ l * keep }
    ensures here { (j : ℕ) → j < l → slice_index out.new (j * keep + place) ≡ value work.now.rest j }
    ensures others { (i : ℕ) → i % keep ≢ place → slice_index out.new i ≡ slice_index out.old i }
{
    for j in 0..l {
        out[j * keep + place] = work.value(Symbol(j as u128));
    }
}

/// The row of this number is not accepted: no polynomial of degree below `l` agrees with enough providers'
/// blocks.
#[derive(Clone, Copy, Debug, PartialEq, Eq)]
pub struct RowLost {
    pub row: u64,
}

impl ObjectKeys {
    /// Looks for the polynomial that a row is accepted with, which is then the rest of `work`.
    fn open_place(
        &self,
        marks: &[bool; 16],
        blocks: &[Block],
        place: usize,
        work: &mut Work,
    ) -> bool
        requires blocks { length blocks.now ≡ self.now.file.shape.n }
        requires place { (j : ℕ) → j < length blocks.now → place < length (slice_index_or blocks.now j []) }
        requires room { 16 ≤ work.old.size }
        ensures yes { OnTrue result (AcceptsRow (shaped_object self.now.master.0 self.now.file)
            (opened_of marks.now blocks.now self.now.file.shape.n) place work.new.rest) }
        ensures no { OnFalse result (AcceptsNoRow (shaped_object self.now.master.0 self.now.file)
            (opened_of marks.now blocks.now self.now.file.shape.n) place) }
        ensures room { work.new.size ≡ work.old.size }
    {
        let n = blocks.len();
        let mut buffer = [None; 16];
        let row = &mut buffer[..n];
        seen_row(marks, blocks, place, row);
        match open_row(&self.points[..n], row, self.file.shape, work) {
            Some(_) => true,
            None => false,
        }
    }

    /// Marks as a liar each provider that does not agree with the polynomial that a row is accepted with.
    /// False where there is none.
    fn learn(
        &self,
        marks: &[bool; 16],
        blocks: &[Block],
        place: usize,
        liars: &mut [bool; 16],
        work: &mut Work,
    ) -> bool
        requires blocks { length blocks.now ≡ self.now.file.shape.n }
        requires place { (j : ℕ) → j < length blocks.now → place < length (slice_index_or blocks.now j []) }
        requires room { 16 ≤ work.old.size }
        ensures room { work.new.size ≡ work.old.size }
    {
        if !self.open_place(marks, blocks, place, work) {
            return false;
        }
        for j in 0..blocks.len() {
            if marks[j] && work.value(self.points[j]) != blocks[j].symbols()[place] {
                liars[j] = true;
            }
        }
        true
    }
}

impl<'a> Opened<'a> {
    /// Looks whether all rows at kept places are accepted, and fills `rows` with their values: guesses them
    /// by the providers that opened, and again, at most so many times more, without those that do not agree
    /// with a row that a guess missed, which are then no longer trusted. Where it is false, nothing is said.
    pub(crate) fn carry(
        &self,
        more: u8,
        trust: &mut Trust,
        rows: &mut [Symbol],
        work: &mut Work,
    ) -> bool
        requires rows { length rows.old
            ≡ self.now.keys.now.file.shape.l * self.now.keys.now.file.profile.keep }
        requires room { 16 ≤ work.old.size }
        ensures carried { OnTrue result ((place : ℕ) → place < self.now.keys.now.file.profile.keep →
            HasRow (opened_object self.now) (opened_blocks self.now) place rows.new) }
        ensures room { work.new.size ≡ work.old.size }
    {
        let mut liars = [false; 16];
        for left in (0..=more).rev() {
            if !self.guess(&without(self.marks, &liars), rows) {
                return false;
            }
            match self.uncarried(rows) {
                None => {
                    trust.lose(&liars, self.keys.file.shape.b);
                    return true;
                }
                Some(place) => {
                    if left == 0 {
                        return false;
                    }
                    trust.count_rows(1);
                    if !self
                        .keys
                        .learn(self.marks, self.blocks, place, &mut liars, work)
                    {
                        return false;
                    }
                }
            }
        }
        false
    }

    /// Fills `rows` with the values of the accepted rows at the kept places, one row after another.
    fn open_each_row(
        &self,
        stripe: u32,
        trust: &mut Trust,
        rows: &mut [Symbol],
        work: &mut Work,
    ) -> Result<(), RowLost>
        requires rows { length rows.old
            ≡ self.now.keys.now.file.shape.l * self.now.keys.now.file.profile.keep }
        requires room { 16 ≤ work.old.size }
        ensures ok { OnOk result ((place : ℕ) → place < self.now.keys.now.file.profile.keep →
            HasRow (opened_object self.now) (opened_blocks self.now) place rows.new) }
        ensures err { IfErr result (λ lost. LosesPlace (opened_object self.now) (opened_blocks self.now)
            stripe lost.row) }
        ensures zeros { OnErr result (rows.new ≡ replicate (length rows.old) 0) }
        ensures room { work.new.size ≡ work.old.size }
    {
        let keep = self.keys.file.profile.keep as usize;
        let l = usize::from(self.keys.file.shape.l);
        for place in 0..keep {
            trust.count_rows(1);
            if !self.keys.open_place(self.marks, self.blocks, place, work) {
                clear(rows);
                let row = u64::from(stripe) * u64::from(self.keys.file.profile.size) + place as u64;
                return Err(RowLost { row });
            }
            put_row(work, keep, place, l, rows);
        }
        Ok(())
    }

    /// Fills `rows` with the values of the accepted rows at the kept places, in layout order.
    pub(crate) fn open_rows(
        &self,
        stripe: u32,
        trust: &mut Trust,
        rows: &mut [Symbol],
        work: &mut Work,
    ) -> Result<(), RowLost>
        requires rows { length rows.old
            ≡ self.now.keys.now.file.shape.l * self.now.keys.now.file.profile.keep }
        requires room { 16 ≤ work.old.size }
        ensures ok { OnOk result ((place : ℕ) → place < self.now.keys.now.file.profile.keep →
            HasRow (opened_object self.now) (opened_blocks self.now) place rows.new) }
        ensures err { IfErr result (λ lost. LosesPlace (opened_object self.now) (opened_blocks self.now)
            stripe lost.row) }
        ensures zeros { OnErr result (rows.new ≡ replicate (length rows.old) 0) }
        ensures room { work.new.size ≡ work.old.size }
    {
        if self.carry(self.keys.file.shape.b, trust, rows, work) {
            Ok(())
        } else {
            self.open_each_row(stripe, trust, rows, work)
        }
    }
}
