use crate::at_hand::AtHand;
use crate::block::Block;
use crate::coder::StripeCoder;
use crate::guess::lacking;
use crate::masks::MasksAtHand;
use crate::opened::Opened;
use crate::seen::SeenStripe;
use hail_field::Symbol;
use hail_poly::Work;

/// The providers whose blocks were not looked at, where those of `first` were until `enough` were marked:
/// where these are too few, each of them was.
fn not_looked_at(first: &[bool; 16], marks: &[bool; 16], enough: u8) -> [bool; 16] {
    let mut left = [true; 16];
    if lacking(marks, 16) > 16usize.saturating_sub(usize::from(enough)) {
        for j in 0..16 {
            left[j] = !first[j];
        }
    }
    left
}

/// A look at the blocks of some providers, until there are `most` that are codewords: those are marked. How
/// many guesses follow the first, if it fails.
#[derive(Drop)]
struct Look {
    marks: [bool; 16],
    wanted: [bool; 16],
    most: u8,
    more: u8,
}

impl<'a> StripeCoder<'a> {
    ghost use Rattle.std.specs.Prelude.{◌≡◌, ◌<◌, Some, length};
    ghost use Rattle.std.specs.Bool.{OnTrue};
    ghost use Rattle.column_defs.specs.Opened.{OpensTo};
    ghost use Rattle.column_codec.specs.Views.{coder_object};

    /// Looks whether a block of the right size is a codeword without its masks; then `out` is that codeword.
    fn look_whole(
        &self,
        provider: usize,
        seen: &[Symbol],
        masks: &mut MasksAtHand,
        out: &mut [Symbol],
    ) -> bool
        requires provider { provider < self.now.keys.now.file.shape.n }
        requires seen { length seen.now ≡ self.now.keys.now.file.profile.size }
        requires out { length out.old ≡ self.now.keys.now.file.profile.size }
        ensures { OnTrue result (OpensTo (coder_object self.now) provider self.now.stripe
            (Some seen.now) (Some out.new)) }
    {
        out.copy_from_slice(seen);
        self.keys.take_masks_off(self.stripe, provider, masks, out);
        self.code.is_codeword(out)
    }
}

impl<'a, 'b> SeenStripe<'a, 'b> {
    ghost use Rattle.std.specs.Prelude.{◌≡◌, ◌≤◌, ◌<◌, ◌*◌, ℕ, Some, None, [], length, slice_index_or};
    ghost use Rattle.std.specs.Bool.{OnTrue};
    ghost use Rattle.column_defs.specs.Opened.{OpensTo, GivesSymbols};
    ghost use Rattle.column_codec.specs.OpenedBlocks.{AreOpened};
    ghost use Rattle.column_codec.specs.Views.{coder_object, blocks_of};

    /// The mark of a provider after a look at its block, if one is wanted: whether it is a codeword as it was
    /// seen.
    fn look_present(
        &self,
        provider: usize,
        mark: bool,
        wanted: bool,
        masks: &mut MasksAtHand,
        out: &mut [Symbol],
    ) -> bool
        requires provider { provider < self.now.coder.keys.now.file.shape.n }
        requires out { length out.old ≡ self.now.coder.keys.now.file.profile.size }
        requires mark { OnTrue mark (OpensTo (coder_object self.now.coder) provider self.now.coder.stripe
            (slice_index_or (blocks_of self.now) provider None) (Some out.old)) }
        ensures { OnTrue result (OpensTo (coder_object self.now.coder) provider self.now.coder.stripe
            (slice_index_or (blocks_of self.now) provider None) (Some out.new)) }
    {
        if mark {
            return true;
        }
        let (seen, present) = (self.symbols, self.present);
        if !wanted || !present[provider] {
            return false;
        }
        let size = out.len();
        let start = provider * size;
        self.coder
            .look_whole(provider, &seen[start..start + size], masks, out)
    }

    /// Marks blocks of some providers that are codewords as they were seen, until there are `most` of them,
    /// and tells how many are marked.
    fn mark_clean(
        &self,
        wanted: &[bool; 16],
        most: u8,
        marks: &mut [bool; 16],
        masks: &mut MasksAtHand,
        out: &mut [Block],
    ) -> u8
        requires out { length out.old ≡ self.now.coder.keys.now.file.shape.n }
        requires sizes { (j : ℕ) → j < length out.old
            → length (slice_index_or out.old j []) ≡ self.now.coder.keys.now.file.profile.size }
        requires opened { AreOpened (coder_object self.now.coder) self.now.coder.stripe (blocks_of self.now)
            marks.old out.old }
        ensures sizes { (j : ℕ) → j < length out.new
            → length (slice_index_or out.new j []) ≡ self.now.coder.keys.now.file.profile.size }
        ensures opened { AreOpened (coder_object self.now.coder) self.now.coder.stripe (blocks_of self.now)
            marks.new out.new }
    {
        let mut count = 0;
        for j in 0..out.len() {
            let block = &mut out[j];
            marks[j] = self.look_present(
                j,
                marks[j],
                wanted[j] && count < most,
                masks,
                &mut block.symbols,
            );
            count += u8::from(marks[j]);
        }
        count
    }

    /// Marks further blocks, and fills `rows` with the symbols of the stripe where enough are marked and
    /// agree on them. Where it is false, nothing is said.
    fn carry_marked(
        &self,
        look: &mut Look,
        at_hand: &mut AtHand,
        rows: &mut [Symbol],
        scratch: &mut [Block],
        work: &mut Work,
    ) -> bool
        requires rows { length rows.old
            ≡ self.now.coder.keys.now.file.shape.l * self.now.coder.keys.now.file.profile.keep }
        requires scratch { length scratch.old ≡ self.now.coder.keys.now.file.shape.n }
        requires sizes { (j : ℕ) → j < length scratch.old
            → length (slice_index_or scratch.old j []) ≡ self.now.coder.keys.now.file.profile.size }
        requires opened { AreOpened (coder_object self.now.coder) self.now.coder.stripe (blocks_of self.now)
            look.old.marks scratch.old }
        requires room { 16 ≤ work.old.size }
        ensures given { OnTrue result (GivesSymbols (coder_object self.now.coder) self.now.coder.stripe
            (blocks_of self.now) rows.new) }
        ensures sizes { (j : ℕ) → j < length scratch.new
            → length (slice_index_or scratch.new j []) ≡ self.now.coder.keys.now.file.profile.size }
        ensures opened { AreOpened (coder_object self.now.coder) self.now.coder.stripe (blocks_of self.now)
            look.new.marks scratch.new }
        ensures room { work.new.size ≡ work.old.size }
    {
        let keys = self.coder.keys;
        let count = self.mark_clean(
            &look.wanted,
            look.most,
            &mut look.marks,
            &mut at_hand.masks,
            scratch,
        );
        if count < keys.file.shape.n - keys.file.shape.b {
            return false;
        }
        let opened = Opened {
            keys,
            marks: &look.marks,
            blocks: scratch,
        };
        opened.carry(look.more, &mut at_hand.trust, rows, work)
    }

    /// Fills `rows` with the symbols of a stripe where enough blocks are codewords as they were seen and
    /// agree on them; where it is false, nothing is said. Those of trusted providers are looked at first, the
    /// others only where these are too few or don't agree.
    pub(crate) fn carry_clean(
        &self,
        at_hand: &mut AtHand,
        rows: &mut [Symbol],
        scratch: &mut [Block],
        work: &mut Work,
    ) -> bool
        requires rows { length rows.old
            ≡ self.now.coder.keys.now.file.shape.l * self.now.coder.keys.now.file.profile.keep }
        requires scratch { length scratch.old ≡ self.now.coder.keys.now.file.shape.n }
        requires sizes { (j : ℕ) → j < length scratch.old
            → length (slice_index_or scratch.old j []) ≡ self.now.coder.keys.now.file.profile.size }
        requires room { 16 ≤ work.old.size }
        ensures given { OnTrue result (GivesSymbols (coder_object self.now.coder) self.now.coder.stripe
            (blocks_of self.now) rows.new) }
        ensures sizes { (j : ℕ) → j < length scratch.new
            → length (slice_index_or scratch.new j []) ≡ self.now.coder.keys.now.file.profile.size }
        ensures room { work.new.size ≡ work.old.size }
    {
        let shape = self.coder.keys.file.shape;
        let (enough, first) = (shape.n - shape.b, *at_hand.trust.trusted());
        let mut look = Look {
            marks: [false; 16],
            wanted: first,
            most: enough,
            more: 0,
        };
        if self.carry_marked(&mut look, at_hand, rows, scratch, work) {
            return true;
        }
        let mut look = Look {
            marks: look.marks,
            wanted: not_looked_at(&first, &look.marks, enough),
            most: shape.n,
            more: shape.b,
        };
        self.carry_marked(&mut look, at_hand, rows, scratch, work)
    }
}
