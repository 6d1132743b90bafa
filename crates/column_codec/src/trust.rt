use crate::guess::lacking;

/// How many blocks and rows were decoded since guesses at them failed. Each count stands still at its type's
/// end. It is told, and decides nothing.
#[derive(Clone, Copy, Debug, PartialEq, Eq)]
pub struct Decoded {
    pub blocks: u32,
    pub rows: u32,
}

/// The providers that the stripes before were opened without, since they gave codewords of other symbols.
/// Keep one for as long as stripes of an object are opened: the next stripe is tried first without their
/// blocks, so that it takes them for liars once and not in each stripe. It decides only what is looked at
/// first, and never what a stripe opens to. It counts what is decoded.
#[derive(Clone, Copy)]
pub struct Trust {
    trusted: [bool; 16],
    decoded: Decoded,
}

/// Those that are trusted, but for those that are lost.
pub(crate) fn without(trusted: &[bool; 16], lost: &[bool; 16]) -> [bool; 16] {
    let mut kept = *trusted;
    for j in 0..16 {
        if lost[j] {
            kept[j] = false;
        }
    }
    kept
}

impl Trust {
    /// Each provider is trusted, and nothing was decoded.
    pub fn new() -> Trust {
        Trust {
            trusted: [true; 16],
            decoded: Decoded { blocks: 0, rows: 0 },
        }
    }

    /// How much was decoded so far.
    pub fn decoded(&self) -> Decoded {
        self.decoded
    }

    /// Counts blocks that are decoded.
    pub(crate) fn count_blocks(&mut self, count: u32) {
        self.decoded.blocks = self.decoded.blocks.saturating_add(count);
    }

    /// Counts rows that are decoded.
    pub(crate) fn count_rows(&mut self, count: u32) {
        self.decoded.rows = self.decoded.rows.saturating_add(count);
    }

    /// The providers whose blocks are looked at first.
    pub(crate) fn trusted(&self) -> &[bool; 16] {
        &self.trusted
    }

    /// Loses trust in some providers; and in those that were doubted before no longer, if they would be more
    /// than `most` in all.
    pub(crate) fn lose(&mut self, lost: &[bool; 16], most: u8) {
        let kept = without(&self.trusted, lost);
        self.trusted = if lacking(&kept, 16) <= usize::from(most) {
            kept
        } else {
            without(&[true; 16], lost)
        };
    }
}
