//! The steps of a scrub: each is its next action.
ghost use Rattle.std.specs.Prelude.{◌≡◌, ◌<◌, ◌≤◌, ◌+◌, ◌^◌, ◌==◌, ℕ, All, [], List, Some, length, map, slice_index, if◌then◌else◌};
ghost use Rattle.record_defs.specs.Records.{most_files};
ghost use Rattle.device_defs.specs.Providers.{Provider as ProviderSeen};
ghost use Rattle.provider_model.specs.Seen.{provider_seen};
ghost use Rattle.hail_scrub.specs.declared.cursor.Cursor.TheVariants as cursor;
ghost use Rattle.hail_scrub.specs.declared.turn.ScrubTurn.TheVariants as turn;
ghost use Rattle.hail_scrub.specs.Views.{scrub_left, next_to_do, called_by};
ghost use Rattle.stripe_bench.specs.Calls.{CallsOnly};
ghost use Rattle.hail_scrub.specs.Progress.{scrub_view, CanRun, IsSpot, HasAdded, TakesOpening, IsProgress};
ghost use Rattle.hail_scrub.specs.Steps.{MakesNext};

use crate::compare::{count_off, survey};
use crate::cursor::{Cursor, Spot};
use crate::moves::{fetch_after, stores_after};
use crate::progress::{Found, Progress};
use crate::turn::{ScrubAnswer, ScrubTurn};
use column_codec::RowLost;
use provider_model::{Provider, StoreFault};
use stripe_bench::store_stripe;

/// Adds to each number the one at its place, at most 128.
fn add_each(sums: &mut [u64; 16], more: &[u64; 16])
    requires room { (j : ℕ) → slice_index sums.old j ≤ 2 ^ 50 }
    requires few { (j : ℕ) → slice_index more.now j ≤ 128 }
    ensures sums { (j : ℕ) → slice_index sums.new j ≡ slice_index sums.old j + slice_index more.now j }
    ensures long { length sums.new ≡ length sums.old }
{
    for j in 0..16 {
        sums[j] += more[j];
    }
}

/// Adds one at each place where the other number is not 0.
fn count_each(counts: &mut [u64; 16], more: &[u64; 16])
    requires room { (j : ℕ) → slice_index counts.old j ≤ 2 ^ 50 }
    ensures counts { (j : ℕ) → slice_index counts.new j
        ≡ slice_index counts.old j + (if slice_index more.now j == 0 then 0 else 1) }
    ensures long { length counts.new ≡ length counts.old }
{
    for j in 0..16 {
        if more[j] != 0 {
            counts[j] += 1;
        }
    }
}

impl Found {
    /// Adds a stripe, of which the blocks are off by so many symbols.
    fn add(&mut self, off: &[u64; 16])
        requires stripes { self.old.stripes ≤ 2 ^ 50 }
        requires symbols { (j : ℕ) → slice_index self.old.symbols j ≤ 2 ^ 50 }
        requires blocks { (j : ℕ) → slice_index self.old.blocks j ≤ 2 ^ 50 }
        requires few { (j : ℕ) → slice_index off.now j ≤ 128 }
        ensures { HasAdded self.old off.now self.new }
    {
        self.stripes += 1;
        add_each(&mut self.symbols, off);
        count_each(&mut self.blocks, off);
    }
}

impl Progress {
    /// Ends with an answer.
    fn stop(&mut self, answer: ScrubAnswer) -> ScrubTurn
        requires { IsProgress self.old }
        ensures whole { IsProgress self.new }
        ensures answer { result ≡ turn.Done answer }
        ensures over { (scrub_view self.new).todo ≡ [] }
        ensures providers { self.new.providers ≡ self.old.providers }
    {
        self.blocks.clear();
        self.cursor = Cursor::Over;
        self.left = 0;
        ScrubTurn::Done(answer)
    }

    /// Fetches a block. A provider that fails gives none.
    fn fetch<P: Provider>(&mut self, spot: Spot, provider: u32, providers: &mut [P]) -> ScrubTurn
        requires whole { IsProgress self.old }
        requires here { self.old.cursor ≡ cursor.Fetching spot provider }
        requires there { self.old.providers ≤ length providers.old }
        ensures whole { IsProgress self.new }
        ensures step { MakesNext (scrub_view self.old) (map (provider_seen P.Provider) providers.old) result
            (scrub_view self.new) (map (provider_seen P.Provider) providers.new) }
        ensures left { scrub_left (scrub_view self.new) < scrub_left (scrub_view self.old) }
        ensures providers { self.new.providers ≡ self.old.providers }
        ensures calls { CallsOnly P.calls (Some provider) providers.old providers.new }
    {
        let index = provider as usize;
        self.blocks.turn_to(spot.item.file.profile.size as usize);
        self.blocks
            .fetch(&mut providers[index], spot.item.file.id, spot.stripe);
        self.cursor = fetch_after(self.providers, spot, provider);
        self.left -= 1;
        ScrubTurn::More
    }

    /// Takes in what an opening found.
    fn take(&mut self, spot: Spot, off: [u64; 16])
        requires few { self.old.providers ≤ 16 }
        requires few_items { length self.old.items.items ≤ most_files }
        requires items { All (CanRun self.old.providers) self.old.items.items }
        requires spot { IsSpot self.old.items.items spot }
        requires small { (j : ℕ) → slice_index off j ≤ 128 }
        requires stripes { self.old.found.stripes ≤ 2 ^ 50 }
        requires symbols { (j : ℕ) → slice_index self.old.found.symbols j ≤ 2 ^ 50 }
        requires blocks { (j : ℕ) → slice_index self.old.found.blocks j ≤ 2 ^ 50 }
        requires left { self.old.providers + 1 ≤ self.old.left }
        requires most { self.old.left ≤ 2 ^ 50 }
        ensures { TakesOpening self.old spot off self.new }
    {
        self.blocks.clear();
        self.off = off;
        self.found.add(&off);
        self.left -= u64::from(self.providers) + 1;
        self.left += count_off(&off, self.providers);
        self.cursor = stores_after(&self.items, self.providers, &off, spot, 0);
    }

    /// Opens the stripe whose blocks are fetched, and compares them with what it gives. A row that is not
    /// accepted ends the scrub.
    fn open(&mut self, spot: Spot) -> ScrubTurn
        requires whole { IsProgress self.old }
        requires here { self.old.cursor ≡ cursor.Opening spot }
        ensures whole { IsProgress self.new }
        ensures step { (ps : List ProviderSeen) → MakesNext (scrub_view self.old) ps result (scrub_view self.new) ps }
        ensures left { scrub_left (scrub_view self.new) < scrub_left (scrub_view self.old) }
        ensures providers { self.new.providers ≡ self.old.providers }
    {
        self.blocks.turn_to(spot.item.file.profile.size as usize);
        let bench = &mut self.benches[spot.item.bench];
        match survey(
            bench,
            &mut self.codec,
            &self.blocks,
            spot.item.file.id,
            spot.stripe,
        ) {
            Ok(off) => {
                self.take(spot, off);
                ScrubTurn::More
            }
            Err(RowLost { row }) => self.stop(ScrubAnswer::Lost {
                stripe: spot.stripe,
                row,
            }),
        }
    }

    /// Stores a block that differs. A store that fails ends the scrub.
    fn store<P: Provider>(&mut self, spot: Spot, provider: u32, providers: &mut [P]) -> ScrubTurn
        requires whole { IsProgress self.old }
        requires here { self.old.cursor ≡ cursor.Storing spot provider }
        requires there { self.old.providers ≤ length providers.old }
        ensures whole { IsProgress self.new }
        ensures step { MakesNext (scrub_view self.old) (map (provider_seen P.Provider) providers.old) result
            (scrub_view self.new) (map (provider_seen P.Provider) providers.new) }
        ensures left { scrub_left (scrub_view self.new) < scrub_left (scrub_view self.old) }
        ensures providers { self.new.providers ≡ self.old.providers }
        ensures calls { CallsOnly P.calls (Some provider) providers.old providers.new }
    {
        let index = provider as usize;
        let bench = &mut self.benches[spot.item.bench];
        match store_stripe(
            bench,
            &mut providers[index],
            provider,
            spot.item.file.id,
            spot.stripe,
        ) {
            Ok(()) => {
                self.cursor = stores_after(
                    &self.items,
                    self.providers,
                    &self.off,
                    spot,
                    provider + 1,
                );
                self.left -= 1;
                ScrubTurn::More
            }
            Err(StoreFault::Failed) => self.stop(ScrubAnswer::ProviderFault { provider }),
            Err(StoreFault::Memory) => self.stop(ScrubAnswer::Memory),
        }
    }

    /// Ends with what was found.
    fn end(&mut self) -> ScrubTurn
        requires whole { IsProgress self.old }
        requires here { self.old.cursor ≡ cursor.Ending }
        ensures whole { IsProgress self.new }
        ensures step { (ps : List ProviderSeen) → MakesNext (scrub_view self.old) ps result (scrub_view self.new) ps }
        ensures left { scrub_left (scrub_view self.new) < scrub_left (scrub_view self.old) }
        ensures providers { self.new.providers ≡ self.old.providers }
    {
        let stripes = self.found.stripes;
        let symbols = self.found.symbols;
        let blocks = self.found.blocks;
        self.stop(ScrubAnswer::Scrubbed {
            stripes,
            symbols,
            blocks,
        })
    }

    /// Makes the next action.
    pub fn step<P: Provider>(&mut self, providers: &mut [P]) -> ScrubTurn
        requires whole { IsProgress self.old }
        requires going { 0 < scrub_left (scrub_view self.old) }
        requires there { self.old.providers ≤ length providers.old }
        ensures whole { IsProgress self.new }
        ensures step { MakesNext (scrub_view self.old) (map (provider_seen P.Provider) providers.old) result
            (scrub_view self.new) (map (provider_seen P.Provider) providers.new) }
        ensures left { scrub_left (scrub_view self.new) < scrub_left (scrub_view self.old) }
        ensures providers { self.new.providers ≡ self.old.providers }
        ensures calls { CallsOnly P.calls (called_by (next_to_do (scrub_view self.old))) providers.old
            providers.new }
    {
        match self.cursor {
            Cursor::Fetching { spot, provider } => self.fetch(spot, provider, providers),
            Cursor::Opening { spot } => self.open(spot),
            Cursor::Storing { spot, provider } => self.store(spot, provider, providers),
            Cursor::Ending => self.end(),
            Cursor::Over => unreachable!(),
        }
    }
}
