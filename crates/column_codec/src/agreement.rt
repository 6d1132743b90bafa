ghost use Rattle.std.specs.Prelude.{◌≡◌, ◌≤◌, ◌<◌, ◌+◌, ◌==◌, ℕ, IfNone, IfSome, length, slice_index, if◌then◌else◌};

use crate::keys::ObjectKeys;
use crate::opened::Opened;
use hail_field::Symbol;

/// 1 where two symbols are one, else 0.
fn sameness(a: Symbol, b: Symbol) -> u8
    ensures { result ≡ (if a == b then 1 else 0) }
{
    if a == b { 1 } else { 0 }
}

/// Counts one more at each place where the symbol seen is the value.
fn count_same(values: &[Symbol], seen: &[Symbol], counts: &mut [u8])
    requires values { length values.now ≡ length counts.old }
    requires seen { length counts.old ≤ length seen.now }
    requires few { (i : ℕ) → slice_index counts.old i ≤ 16 }
    ensures { (i : ℕ) → i < length counts.old → slice_index counts.new i
        ≡ slice_index counts.old i + (if slice_index seen.now i == slice_index values.now i then 1 else 0) }
{
    for i in 0..counts.len() {
        counts[i] += sameness(seen[i], values[i]);
    }
}

/// The first place at which there are too few.
fn first_below(counts: &[u8], need: u8) -> Option<usize>
    ensures none { IfNone result ((i : ℕ) → i < length counts.now → need ≤ slice_index counts.now i) }
    ensures some { IfSome result (λ place. place < length counts.now) }
{
    for i in 0..counts.len() {
        if counts[i] < need {
            return Some(i);
        }
    }
    None
}

impl ObjectKeys {
    ghost use Rattle.std.specs.Prelude.{◌≡◌, ◌≤◌, ◌<◌, ◌*◌, ℕ, Some, None, length, slice_index, if◌then◌else◌};
    ghost use Rattle.file_layout.specs.Files.{shaped_object};
    ghost use Rattle.column_codec.specs.Agreement.{agreeing_at};

    /// Counts a provider where its opened symbols are the values of the rows with these primary symbols.
    fn count_provider(
        &self,
        rows: &[Symbol],
        provider: usize,
        mark: bool,
        block: &[Symbol],
        counts: &mut [u8],
    )
        requires provider { provider < self.now.file.shape.n }
        requires rows { length rows.now ≡ self.now.file.shape.l * self.now.file.profile.keep }
        requires block { length block.now ≡ self.now.file.profile.size }
        requires counts { length counts.old ≡ self.now.file.profile.keep }
        requires few { (place : ℕ) → slice_index counts.old place ≤ provider }
        ensures counts { (place : ℕ) → place < self.now.file.profile.keep → slice_index counts.new place
            ≡ slice_index counts.old place
            + agreeing_at (shaped_object self.now.master.0 self.now.file) rows.now place provider
            (if mark then Some block.now else None) }
        ensures few { (place : ℕ) → slice_index counts.new place ≤ provider + 1 }
    {
        if mark {
            let keep = counts.len();
            let mut buffer = [Symbol::ZERO; 96];
            let values = &mut buffer[..keep];
            self.row_values_into(rows, provider, values);
            count_same(values, block, counts);
        }
    }
}

impl<'a> Opened<'a> {
    ghost use Rattle.std.specs.Prelude.{◌≡◌, ◌<◌, ◌*◌, ℕ, IfNone, IfSome, length, slice_index};
    ghost use Rattle.column_defs.specs.Columns.{row_polynomial};
    ghost use Rattle.column_defs.specs.Opened.{AcceptsRow};
    ghost use Rattle.column_codec.specs.Agreement.{agreed};
    ghost use Rattle.column_codec.specs.Views.{opened_object, opened_blocks};

    /// Counts, from zeros on, how many providers agree with each kept row of these primary symbols.
    fn count_all(&self, rows: &[Symbol], counts: &mut [u8])
        requires rows { length rows.now
            ≡ self.now.keys.now.file.shape.l * self.now.keys.now.file.profile.keep }
        requires counts { length counts.old ≡ self.now.keys.now.file.profile.keep }
        requires zeros { (place : ℕ) → slice_index counts.old place ≡ 0 }
        ensures size { length counts.new ≡ self.now.keys.now.file.profile.keep }
        ensures counts { (place : ℕ) → place < self.now.keys.now.file.profile.keep
            → slice_index counts.new place
            ≡ agreed (opened_object self.now) rows.now self.now.marks.now self.now.blocks.now place
            self.now.keys.now.file.shape.n }
    {
        let (keys, marks, blocks) = (self.keys, self.marks, self.blocks);
        for j in 0..blocks.len() {
            keys.count_provider(rows, j, marks[j], blocks[j].symbols(), counts);
        }
    }

    /// The first kept place whose row, by these primary symbols, too few providers agree with; none where all
    /// are accepted.
    pub(crate) fn uncarried(&self, rows: &[Symbol]) -> Option<usize>
        requires rows { length rows.now
            ≡ self.now.keys.now.file.shape.l * self.now.keys.now.file.profile.keep }
        ensures none { IfNone result ((place : ℕ) → place < self.now.keys.now.file.profile.keep →
            AcceptsRow (opened_object self.now) (opened_blocks self.now) place
            (row_polynomial (opened_object self.now) rows.now place)) }
        ensures some { IfSome result (λ place. place < self.now.keys.now.file.profile.keep) }
    {
        let file = &self.keys.file;
        let mut buffer = [0; 96];
        let counts = &mut buffer[..file.profile.keep as usize];
        self.count_all(rows, counts);
        first_below(counts, file.shape.n - file.shape.b)
    }
}
