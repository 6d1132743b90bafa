ghost use Rattle.std.specs.Prelude.{◌≡◌, length, slice_get};
ghost use Rattle.std.specs.Option.{option_map};
ghost use Rattle.vault.specs.Heard.{entries_fetched, answered_entries, entry_heard};

use crate::heard::{Answers, Fetches, Heard, HeardList, Parts};

/// The item at a place.
fn item_at<T: Copy>(items: &[T], place: usize) -> Option<T>
    ensures { result ≡ slice_get items.now place }
{
    items.get(place).copied()
}

impl Fetches {
    /// How many fetches were made.
    fn count(&self) -> usize
        ensures { result ≡ length (entries_fetched self.now) }
    {
        self.blocks.present.len()
    }

    /// What the fetch at a place gave.
    fn at(&self, place: usize) -> Option<Heard<'_>>
        ensures { option_map entry_heard result ≡ slice_get (entries_fetched self.now) place }
    {
        let block = self.blocks.at(place)?;
        let n = usize::from(self.n);
        Some(Heard::Fetched {
            job: self.job,
            provider: (place % n) as u32,
            object: self.object,
            stripe: (place / n) as u32,
            block,
        })
    }
}

impl Answers {
    /// How many asks were made.
    fn count(&self) -> usize
        ensures { result ≡ length (answered_entries self.now.job self.now.asks.items self.now.symbols.items) }
    {
        self.asks.len().min(self.symbols.len())
    }

    /// What the ask at a place gave.
    fn at(&self, place: usize) -> Option<Heard<'_>>
        ensures { option_map entry_heard result
            ≡ slice_get (answered_entries self.now.job self.now.asks.items self.now.symbols.items) place }
    {
        let ask = item_at(&self.asks, place)?;
        let symbol = item_at(&self.symbols, place)?;
        Some(Heard::Answered {
            job: self.job,
            provider: ask.provider,
            object: ask.object,
            round: ask.round,
            symbol,
        })
    }
}

impl HeardList {
    /// How many fetches or asks were heard.
    pub fn len(&self) -> usize
        ensures { result ≡ length self.now }
    {
        match &self.parts {
            Parts::Nothing => 0,
            Parts::Fetched(fetches) => fetches.count(),
            Parts::Answered(answers) => answers.count(),
        }
    }

    /// What was heard at a place, the first at 0; None from `len` on. It takes no memory.
    pub fn at(&self, place: usize) -> Option<Heard<'_>>
        ensures { option_map entry_heard result ≡ slice_get self.now place }
    {
        match &self.parts {
            Parts::Nothing => None,
            Parts::Fetched(fetches) => fetches.at(place),
            Parts::Answered(answers) => answers.at(place),
        }
    }
}
