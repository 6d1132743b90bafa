use crate::masks::MasksAtHand;
use crate::trust::Trust;

/// What the stripes before left at hand, which decides nothing: who is trusted at the next one, and masks of
/// those that come. Keep it for as long as stripes of an object are made or opened.
#[derive(Clone, Copy)]
pub struct AtHand {
    pub trust: Trust,
    pub masks: MasksAtHand,
}

impl AtHand {
    /// What there is before the first stripe.
    pub fn new() -> AtHand {
        AtHand {
            trust: Trust::new(),
            masks: MasksAtHand::new(),
        }
    }
}
