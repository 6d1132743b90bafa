use crate::at_hand::AtHand;
use crate::block::Block;
use crate::masks::MasksAtHand;
use crate::opened::Opened;
use crate::opening::RowLost;
use crate::seen::SeenStripe;
use hail_field::Symbol;
use hail_poly::Work;

impl<'a, 'b> SeenStripe<'a, 'b> {
    ghost use Rattle.std.specs.Prelude.{◌≡◌, ◌≤◌, ◌<◌, ◌*◌, ℕ, [], None, Some, length, All, replicate, slice_index_or, OnOk, OnErr, IfErr};
    ghost use Rattle.std.specs.Bool.{OnTrue, OnFalse};
    ghost use Rattle.column_defs.specs.Opened.{AllOpen, OpensTo, GivesSymbols, LosesRow};
    ghost use Rattle.column_codec.specs.OpenedBlocks.{opened_of};
    ghost use Rattle.column_codec.specs.Views.{coder_object, blocks_of};

    /// Opens the block of one provider into `out`, if it is present.
    fn open_present_block(
        &self,
        provider: usize,
        masks: &mut MasksAtHand,
        out: &mut [Symbol],
        work: &mut Work,
    ) -> bool
        requires provider { provider < self.now.coder.keys.now.file.shape.n }
        requires out { length out.old ≡ self.now.coder.keys.now.file.profile.size }
        requires room { 128 ≤ work.old.size }
        ensures yes { OnTrue result (OpensTo (coder_object self.now.coder) provider self.now.coder.stripe
            (slice_index_or (blocks_of self.now) provider None) (Some out.new)) }
        ensures no { OnFalse result (OpensTo (coder_object self.now.coder) provider self.now.coder.stripe
            (slice_index_or (blocks_of self.now) provider None) None) }
        ensures room { work.new.size ≡ work.old.size }
    {
        let (seen, present) = (self.symbols, self.present);
        if !present[provider] {
            return false;
        }
        let size = out.len();
        let start = provider * size;
        self.coder
            .open_whole(provider, &seen[start..start + size], masks, out, work)
    }

    /// Opens those blocks that are present into `out`, and marks those that opened to a codeword.
    fn open_present_blocks(
        &self,
        masks: &mut MasksAtHand,
        out: &mut [Block],
        work: &mut Work,
    ) -> [bool; 16]
        requires out { length out.old ≡ self.now.coder.keys.now.file.shape.n }
        requires blocks { All (λ block. length block ≡ self.now.coder.keys.now.file.profile.size) out.old }
        requires room { 128 ≤ work.old.size }
        ensures opens { AllOpen (coder_object self.now.coder) self.now.coder.stripe 0 (blocks_of self.now)
            (opened_of result out.new self.now.coder.keys.now.file.shape.n) }
        ensures sizes { (j : ℕ) → j < length out.new
            → length (slice_index_or out.new j []) ≡ self.now.coder.keys.now.file.profile.size }
        ensures room { work.new.size ≡ work.old.size }
    {
        let mut marks = [false; 16];
        for j in 0..out.len() {
            let block = &mut out[j];
            marks[j] = self.open_present_block(j, masks, &mut block.symbols, work);
        }
        marks
    }

    /// Opens the stripe, begun by the providers that the stripes before left trusted: fills `rows` with its
    /// symbols in layout order. What it opens to is the same for each trust.
    pub(crate) fn open(
        &self,
        at_hand: &mut AtHand,
        rows: &mut [Symbol],
        scratch: &mut [Block],
        work: &mut Work,
    ) -> Result<(), RowLost>
        requires rows { length rows.old
            ≡ self.now.coder.keys.now.file.shape.l * self.now.coder.keys.now.file.profile.keep }
        requires scratch { length scratch.old ≡ self.now.coder.keys.now.file.shape.n }
        requires blocks { All (λ block. length block ≡ self.now.coder.keys.now.file.profile.size)
            scratch.old }
        requires room { 128 ≤ work.old.size }
        ensures ok { OnOk result (GivesSymbols (coder_object self.now.coder) self.now.coder.stripe
            (blocks_of self.now) rows.new) }
        ensures lost { IfErr result (λ lost. LosesRow (coder_object self.now.coder) self.now.coder.stripe
            (blocks_of self.now) lost.row) }
        ensures zeros { OnErr result (rows.new ≡ replicate (length rows.old) 0) }
        ensures blocks { All (λ block. length block ≡ self.now.coder.keys.now.file.profile.size) scratch.new }
        ensures room { work.new.size ≡ work.old.size }
    {
        if self.carry_clean(at_hand, rows, scratch, work) {
            return Ok(());
        }
        let keys = self.coder.keys;
        at_hand.trust.count_blocks(u32::from(keys.file.shape.n));
        let marks = self.open_present_blocks(&mut at_hand.masks, scratch, work);
        let opened = Opened {
            keys,
            marks: &marks,
            blocks: scratch,
        };
        opened.open_rows(self.coder.stripe, &mut at_hand.trust, rows, work)
    }
}
