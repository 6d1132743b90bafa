use crate::coder::StripeCoder;
use crate::gather::add_each;
use crate::keys::ObjectKeys;
use crate::masks::{MasksAtHand, ROWS};
use hail_field::Symbol;
use mask_tag::mask_block;

impl ObjectKeys {
    ghost use Rattle.std.specs.Prelude.{◌≡◌, ◌≤◌, ◌<◌, ◌*◌, length};
    ghost use Rattle.column_defs.specs.Opened.{masked};
    ghost use Rattle.file_layout.specs.Files.{shaped_object};

    /// Adds a provider's masks to a block of at most sixteen symbols, from those at hand.
    fn add_short(&self, stripe: u32, provider: usize, masks: &mut MasksAtHand, block: &mut [Symbol])
        requires provider { provider < self.now.file.shape.n }
        requires block { length block.old ≤ 16 }
        ensures { block.new ≡ masked (shaped_object self.now.master.0 self.now.file) provider
            (stripe * length block.old) block.old }
    {
        let mut buffer = [Symbol::ZERO; 16];
        let size = block.len();
        masks.fill(
            provider,
            &self.mask_keys[provider],
            stripe,
            &mut buffer[..size],
        );
        add_each(block, &buffer[..size]);
    }

    /// Adds a provider's masks to a block of whatever size, from a generator of its own.
    fn add_long(&self, stripe: u32, provider: usize, block: &mut [Symbol])
        requires provider { provider < self.now.file.shape.n }
        requires block { length block.old ≤ 128 }
        ensures { block.new ≡ masked (shaped_object self.now.master.0 self.now.file) provider
            (stripe * length block.old) block.old }
    {
        let mut buffer = [Symbol::ZERO; 128];
        let size = block.len();
        mask_block(&self.mask_keys[provider], stripe, &mut buffer[..size]);
        add_each(block, &buffer[..size]);
    }

    /// Adds a provider's masks to a block of a stripe, at most 128 symbols, which also takes them off.
    pub(crate) fn add_masks(
        &self,
        stripe: u32,
        provider: usize,
        masks: &mut MasksAtHand,
        block: &mut [Symbol],
    )
        requires provider { provider < self.now.file.shape.n }
        requires block { length block.old ≤ 128 }
        ensures { block.new ≡ masked (shaped_object self.now.master.0 self.now.file) provider
            (stripe * length block.old) block.old }
    {
        if block.len() < ROWS {
            self.add_short(stripe, provider, masks, block);
        } else {
            self.add_long(stripe, provider, block);
        }
    }
}

impl<'a> StripeCoder<'a> {
    ghost use Rattle.std.specs.Prelude.{◌≡◌, ◌≤◌, ◌<◌, ◌*◌, length};
    ghost use Rattle.column_defs.specs.Columns.{column_of_symbols};
    ghost use Rattle.column_codec.specs.Views.{coder_object};

    /// The block of a primary provider: the codeword of the symbols that it keeps.
    fn primary_column(&self, symbols: &[Symbol], provider: usize, out: &mut [Symbol])
        requires provider { provider < self.now.keys.now.file.shape.l }
        requires symbols { length symbols.now
            ≡ self.now.keys.now.file.shape.l * self.now.keys.now.file.profile.keep }
        requires out { length out.old ≡ self.now.keys.now.file.profile.size }
        ensures { out.new ≡ column_of_symbols (coder_object self.now) symbols.now
            provider self.now.stripe }
    {
        let keep = self.keys.file.profile.keep as usize;
        let start = provider * keep;
        self.code.encode_into(&symbols[start..start + keep], out);
    }

    /// The block of a secondary provider: the codeword of its kept rows, with its masks.
    fn secondary_column(
        &self,
        symbols: &[Symbol],
        provider: usize,
        masks: &mut MasksAtHand,
        out: &mut [Symbol],
    )
        requires secondary { self.now.keys.now.file.shape.l ≤ provider }
        requires provider { provider < self.now.keys.now.file.shape.n }
        requires symbols { length symbols.now
            ≡ self.now.keys.now.file.shape.l * self.now.keys.now.file.profile.keep }
        requires out { length out.old ≡ self.now.keys.now.file.profile.size }
        ensures { out.new ≡ column_of_symbols (coder_object self.now) symbols.now
            provider self.now.stripe }
    {
        let keep = self.keys.file.profile.keep as usize;
        let mut buffer = [Symbol::ZERO; 96];
        let kept = &mut buffer[..keep];
        self.keys.kept_into(symbols, provider, kept);
        self.code.encode_into(kept, out);
        self.keys.add_masks(self.stripe, provider, masks, out);
    }

    /// Fills `out` with one provider's block of a stripe with these symbols, which lie in layout order.
    pub(crate) fn column_into(
        &self,
        symbols: &[Symbol],
        provider: usize,
        masks: &mut MasksAtHand,
        out: &mut [Symbol],
    )
        requires provider { provider < self.now.keys.now.file.shape.n }
        requires symbols { length symbols.now
            ≡ self.now.keys.now.file.shape.l * self.now.keys.now.file.profile.keep }
        requires out { length out.old ≡ self.now.keys.now.file.profile.size }
        ensures { out.new ≡ column_of_symbols (coder_object self.now) symbols.now
            provider self.now.stripe }
    {
        if provider < usize::from(self.keys.file.shape.l) {
            self.primary_column(symbols, provider, out);
        } else {
            self.secondary_column(symbols, provider, masks, out);
        }
    }
}
