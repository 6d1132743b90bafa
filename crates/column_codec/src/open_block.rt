use crate::coder::StripeCoder;
use crate::keys::ObjectKeys;
use crate::masks::MasksAtHand;
use hail_field::Symbol;
use hail_poly::Work;

impl ObjectKeys {
    ghost use Rattle.std.specs.Prelude.{◌≡◌, ◌<◌, length};
    ghost use Rattle.column_defs.specs.Opened.{bare};
    ghost use Rattle.file_layout.specs.Files.{shaped_object};

    /// Takes a provider's masks off a block of a stripe, which a primary one has none of.
    pub(crate) fn take_masks_off(
        &self,
        stripe: u32,
        provider: usize,
        masks: &mut MasksAtHand,
        block: &mut [Symbol],
    )
        requires provider { provider < self.now.file.shape.n }
        requires block { length block.old ≡ self.now.file.profile.size }
        ensures { block.new ≡ bare (shaped_object self.now.master.0 self.now.file) provider stripe block.old }
    {
        if provider >= usize::from(self.file.shape.l) {
            self.add_masks(stripe, provider, masks, block);
        }
    }
}

impl<'a> StripeCoder<'a> {
    ghost use Rattle.std.specs.Prelude.{◌≡◌, ◌≤◌, ◌<◌, Some, None, length};
    ghost use Rattle.std.specs.Bool.{OnTrue, OnFalse};
    ghost use Rattle.column_defs.specs.Opened.{OpensTo};
    ghost use Rattle.column_codec.specs.Views.{coder_object};

    /// Opens a block of the right size into `out`, and answers whether it opened to a codeword.
    pub(crate) fn open_whole(
        &self,
        provider: usize,
        seen: &[Symbol],
        masks: &mut MasksAtHand,
        out: &mut [Symbol],
        work: &mut Work,
    ) -> bool
        requires provider { provider < self.now.keys.now.file.shape.n }
        requires seen { length seen.now ≡ self.now.keys.now.file.profile.size }
        requires out { length out.old ≡ self.now.keys.now.file.profile.size }
        requires room { 128 ≤ work.old.size }
        ensures yes { OnTrue result (OpensTo (coder_object self.now) provider self.now.stripe
            (Some seen.now) (Some out.new)) }
        ensures no { OnFalse result (OpensTo (coder_object self.now) provider self.now.stripe
            (Some seen.now) None) }
        ensures room { work.new.size ≡ work.old.size }
    {
        out.copy_from_slice(seen);
        self.keys.take_masks_off(self.stripe, provider, masks, out);
        match self.code.decode_in(out, work) {
            Some(_) => true,
            None => false,
        }
    }
}
