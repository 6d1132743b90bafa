//! Masks that are kept from stripe to stripe.
ghost use Rattle.std.specs.Prelude.{◌≡◌, ◌≤◌, ◌<◌, ◌+◌, ◌*◌, ◌/◌, ◌^◌, length};
ghost use Rattle.column_defs.specs.Keys.{mask_of, masks_from};

use hail_field::Symbol;
use mask_tag::mask_block;

/// How many masks the generator makes at a time: it has 64 words, of which each takes four.
pub(crate) const ROWS: usize = 16;

/// The masks of sixteen rows under a key, of those from sixteen times `number` on.
#[derive(Clone, Copy)]
struct MaskWindow {
    key: [u8; 32],
    number: u32,
    masks: [Symbol; 16],
    ghost are: { masks ≡ masks_from key (number * 16) 16 },
}

impl MaskWindow {
    /// The sixteen masks of this number.
    fn new(key: &[u8; 32], number: u32) -> MaskWindow
        ensures key { result.key ≡ key.now }
        ensures number { result.number ≡ number }
    {
        let mut masks = [Symbol::ZERO; 16];
        mask_block(key, number, &mut masks);
        MaskWindow {
            key: *key,
            number,
            masks,
        }
    }

    /// Makes the sixteen masks of a number, where they are not those at hand.
    fn move_to(&mut self, number: u32)
        ensures key { self.new.key ≡ self.old.key }
        ensures number { self.new.number ≡ number }
    {
        if self.number != number {
            *self = MaskWindow::new(&self.key, number);
        }
    }

    /// The mask of a row.
    #[tactic(auto, using(crate::proofs::Windows::mask_in))]
    fn mask(&mut self, row: u64) -> Symbol
        requires { row < 2 ^ 36 }
        ensures mask { result ≡ mask_of self.old.key row }
        ensures key { self.new.key ≡ self.old.key }
    {
        self.move_to((row / 16) as u32);
        self.masks[(row % 16) as usize]
    }

    /// Fills `out`, at most 16 symbols, with the masks of a stripe's rows.
    fn fill(&mut self, stripe: u32, out: &mut [Symbol])
        requires { length out.old ≤ 16 }
        ensures { out.new ≡ masks_from self.old.key (stripe * length out.old) (length out.old) }
    {
        let first = u64::from(stripe) * out.len() as u64;
        for i in 0..out.len() {
            out[i] = self.mask(first + i as u64);
        }
    }

    /// Turns to a key.
    fn turn_to(&mut self, key: &[u8; 32])
        ensures { self.new.key ≡ key.now }
    {
        if self.key != *key {
            *self = MaskWindow::new(key, 0);
        }
    }
}

/// The masks of sixteen rows of each provider, which are made at once: in blocks of less than sixteen symbols
/// the stripes that come in sequence share them. Keep one for as long as stripes of an object are made or
/// opened. It decides only what is made anew, and never what a mask is.
#[derive(Clone, Copy)]
pub struct MasksAtHand {
    windows: [MaskWindow; 16],
}

impl MasksAtHand {
    /// Masks of no object yet: a provider's are made when its first block is.
    pub fn new() -> MasksAtHand {
        MasksAtHand {
            windows: [MaskWindow::new(&[0; 32], 0); 16],
        }
    }

    /// Fills `out`, at most 16 symbols, with the masks of a stripe's rows under a provider's key, as
    /// `mask_block` does.
    pub(crate) fn fill(&mut self, provider: usize, key: &[u8; 32], stripe: u32, out: &mut [Symbol])
        requires provider { provider < 16 }
        requires few { length out.old ≤ 16 }
        ensures { out.new ≡ masks_from key.now (stripe * length out.old) (length out.old) }
    {
        let window = &mut self.windows[provider];
        window.turn_to(key);
        window.fill(stripe, out);
    }
}
