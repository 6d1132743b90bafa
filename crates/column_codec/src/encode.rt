ghost use Rattle.std.specs.Prelude.{◌≡◌, ◌<◌, ◌*◌, All, length, map};
ghost use Rattle.code_defs.specs.Points.{upto};
ghost use Rattle.column_defs.specs.Objects.{symbols_in};
ghost use Rattle.column_defs.specs.Columns.{columns, column_of_symbols};
ghost use Rattle.file_layout.specs.Files.{shaped_object};
ghost use Rattle.column_codec.specs.Views.{coder_object};

use crate::block::Block;
use crate::coder::StripeCoder;
use crate::gather::stripe_symbols_into;
use crate::keys::ObjectKeys;
use crate::masks::MasksAtHand;
use hail_field::Symbol;

impl ObjectKeys {
    /// Fills `rows` with the symbols of a stripe of a file of these bytes, in layout order. Those past the
    /// end are zero.
    #[tactic(auto, using(crate::proofs::Places::stripe_small, crate::proofs::RowLemmas::profile_small))]
    pub(crate) fn symbols_into(&self, stripe: u32, bytes: &[u8], rows: &mut [Symbol])
        requires { length rows.old ≡ self.now.file.shape.l * self.now.file.profile.keep }
        ensures { rows.new ≡ symbols_in (shaped_object self.now.master.0 self.now.file) bytes.now stripe }
    {
        stripe_symbols_into(&self.file, stripe, bytes, rows);
    }
}

impl<'a> StripeCoder<'a> {
    /// Fills each provider's block of a stripe with these symbols.
    fn columns_into(&self, symbols: &[Symbol], masks: &mut MasksAtHand, out: &mut [Block])
        requires symbols { length symbols.now
            ≡ self.now.keys.now.file.shape.l * self.now.keys.now.file.profile.keep }
        requires out { length out.old ≡ self.now.keys.now.file.shape.n }
        requires blocks { All (λ block. length block ≡ self.now.keys.now.file.profile.size) out.old }
        ensures { out.new ≡ map (λ j. column_of_symbols (coder_object self.now)
            symbols.now j self.now.stripe)
            (upto self.now.keys.now.file.shape.n) }
    {
        for j in 0..out.len() {
            let block = &mut out[j];
            self.column_into(symbols, j, masks, &mut block.symbols);
        }
    }

    /// Fills the providers' blocks of a stripe of a file of these bytes, whose symbols are made in `symbols`.
    #[tactic(auto, using(crate::proofs::Places::stripe_small, crate::proofs::RowLemmas::profile_small))]
    pub(crate) fn encode(
        &self,
        bytes: &[u8],
        symbols: &mut [Symbol],
        masks: &mut MasksAtHand,
        out: &mut [Block],
    )
        requires symbols { length symbols.old
            ≡ self.now.keys.now.file.shape.l * self.now.keys.now.file.profile.keep }
        requires out { length out.old ≡ self.now.keys.now.file.shape.n }
        requires blocks { All (λ block. length block ≡ self.now.keys.now.file.profile.size) out.old }
        ensures blocks { out.new ≡ map (λ j. columns (coder_object self.now)
            bytes.now j self.now.stripe)
            (upto self.now.keys.now.file.shape.n) }
        ensures symbols { symbols.new ≡ symbols_in (coder_object self.now) bytes.now self.now.stripe }
        ensures sizes { All (λ block. length block ≡ self.now.keys.now.file.profile.size) out.new }
    {
        self.keys.symbols_into(self.stripe, bytes, symbols);
        self.columns_into(symbols, masks, out);
    }
}
