ghost use Rattle.std.specs.Prelude.{◌≡◌, ◌<◌, ℕ, length, slice_index};
ghost use Rattle.hail_field.specs.Nim.{nim_add, nim_mul};

use crate::keys::ObjectKeys;
use crate::table::ConstantTable;
use hail_field::Symbol;

/// Adds to each symbol a weight times the difference of the two at its place.
fn add_differences(weight: Symbol, from: &[Symbol], first: &[Symbol], out: &mut [Symbol])
    requires from { length from.now ≡ length out.old }
    requires first { length first.now ≡ length out.old }
    ensures { (i : ℕ) → i < length out.old → slice_index out.new i
        ≡ nim_add (slice_index out.old i)
        (nim_mul weight (nim_add (slice_index from.now i) (slice_index first.now i))) }
{
    for i in 0..out.len() {
        out[i] = out[i].add(weight.mul(from[i].add(first[i])));
    }
}

/// The same by the table of the weight.
fn add_differences_by(table: &ConstantTable, from: &[Symbol], first: &[Symbol], out: &mut [Symbol])
    requires from { length from.now ≡ length out.old }
    requires first { length first.now ≡ length out.old }
    ensures { (i : ℕ) → i < length out.old → slice_index out.new i
        ≡ nim_add (slice_index out.old i)
        (nim_mul table.now (nim_add (slice_index from.now i) (slice_index first.now i))) }
{
    for i in 0..out.len() {
        out[i] = out[i].add(table.times(from[i].add(first[i])));
    }
}

impl ObjectKeys {
    ghost use Rattle.std.specs.Prelude.{◌≡◌, ◌≤◌, ◌<◌, ◌*◌, [], length, map, slice_index_or};
    ghost use Rattle.code_defs.specs.Points.{upto};
    ghost use Rattle.file_layout.specs.Files.{shaped_object};
    ghost use Rattle.column_codec.specs.Rows.{row_value};

    /// Adds to each symbol the weight of a primary provider at a secondary one's point times the difference
    /// of the two at its place.
    fn add_weighted(
        &self,
        provider: usize,
        primary: usize,
        from: &[Symbol],
        first: &[Symbol],
        out: &mut [Symbol],
    )
        requires secondary { self.now.file.shape.l ≤ provider }
        requires provider { provider < self.now.file.shape.n }
        requires other { 1 ≤ primary }
        requires primary { primary < self.now.file.shape.l }
        requires from { length from.now ≡ length out.old }
        requires first { length first.now ≡ length out.old }
        ensures { (i : ℕ) → i < length out.old → slice_index out.new i
            ≡ nim_add (slice_index out.old i)
            (nim_mul (slice_index (slice_index_or self.now.weights provider []) primary)
            (nim_add (slice_index from.now i) (slice_index first.now i))) }
    {
        match &self.tables {
            Some(tables) => {
                let table = tables.of(self.file.shape, provider, primary);
                add_differences_by(table, from, first, out);
            }
            None => add_differences(self.weights[provider][primary], from, first, out),
        }
    }

    /// The values of a stripe's kept rows at a secondary provider's point: the first symbol of each row, and
    /// each other one's difference from it times its weight.
    pub(crate) fn kept_into(&self, symbols: &[Symbol], provider: usize, kept: &mut [Symbol])
        requires secondary { self.now.file.shape.l ≤ provider }
        requires provider { provider < self.now.file.shape.n }
        requires symbols { length symbols.now ≡ self.now.file.shape.l * self.now.file.profile.keep }
        requires kept { length kept.old ≡ self.now.file.profile.keep }
        ensures { kept.new ≡ map (row_value (shaped_object self.now.master.0 self.now.file) symbols.now
            provider)
            (upto self.now.file.profile.keep) }
    {
        let keep = kept.len();
        let first = &symbols[..keep];
        kept.copy_from_slice(first);
        for j in 1..usize::from(self.file.shape.l) {
            let start = j * keep;
            self.add_weighted(provider, j, &symbols[start..start + keep], first, kept);
        }
    }

    /// The values of a stripe's kept rows at any provider's point.
    pub(crate) fn row_values_into(&self, symbols: &[Symbol], provider: usize, out: &mut [Symbol])
        requires provider { provider < self.now.file.shape.n }
        requires symbols { length symbols.now ≡ self.now.file.shape.l * self.now.file.profile.keep }
        requires out { length out.old ≡ self.now.file.profile.keep }
        ensures { out.new ≡ map (row_value (shaped_object self.now.master.0 self.now.file) symbols.now
            provider)
            (upto self.now.file.profile.keep) }
    {
        if provider < usize::from(self.file.shape.l) {
            let start = provider * out.len();
            out.copy_from_slice(&symbols[start..start + out.len()]);
        } else {
            self.kept_into(symbols, provider, out);
        }
    }
}
