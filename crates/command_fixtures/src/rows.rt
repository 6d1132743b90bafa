use crate::case::Case;
use crate::deed::Deed;
use crate::holder::Holder;
use crate::image::Stop;
use crate::schedule::Schedules;
use crate::store::Store;
use provider_model::{Liar, MemProvider, Untold};
use std::alloc::Global;

/// Rows over devices of their own: an empty disk and sixteen providers, which do not fail but where it is
/// told.
pub enum Rows {
    /// Deeds one after another.
    Deeds(&'static [Deed]),
    /// Deeds one after another, where the provider at 2 fails at this of its calls.
    Failing(u64, &'static [Deed]),
    /// Deeds one after another, where there are four providers that add these symbols.
    Lied([u128; 4], &'static [Deed]),
    /// Deeds one after another, where the providers do not tell what they hold.
    Untold(&'static [Deed]),
    /// Deeds one after another, where the devices are made again if they find no memory.
    Again(&'static [Deed]),
    /// A command whose disk fails at each of its calls in turn.
    Cut(Case),
    /// A set-up over a disk that reads these bytes, makes so many calls of it, fails at each of them in turn,
    /// and is then stopped by these picks: the disk reads what it did, nine bytes at most, no record, or this
    /// setup alone.
    Stopped(&'static [u8], u64, &'static [u8]),
    /// Schedules.
    Replayed(Schedules),
}

/// The providers do not fail.
pub const SURE: [u64; 16] = [u64::MAX; 16];

/// What is told where there was no memory for the devices.
const NO_STORE: usize = usize::MAX;

/// The providers of which the one at 2 fails at a call.
fn failing(call: u64) -> [u64; 16] {
    let mut kinds = SURE;
    kinds[2] = call;
    kinds
}

impl Store<MemProvider> {
    /// The place of the first row that goes otherwise.
    fn first_wrong_row(&mut self, rows: &Rows) -> Option<usize> {
        match rows {
            Rows::Deeds(deeds) | Rows::Failing(_, deeds) | Rows::Again(deeds) => self.first_wrong(
                deeds,
            ),
            Rows::Cut(case) => self.first_wrong_call(case),
            Rows::Stopped(before, calls, picks) => self.first_wrong_image(&Stop {
                before,
                calls: *calls,
                picks,
            }),
            Rows::Replayed(schedules) => self.first_wrong_schedule(schedules),
            Rows::Lied(..) | Rows::Untold(..) => Some(NO_STORE),
        }
    }
}

/// The place of the first row that goes otherwise, over providers that fail at these of their calls.
fn first_wrong_over(alloc: Global, calls: &[u64; 16], rows: &Rows) -> Option<usize> {
    match Store::new(alloc, calls) {
        Some(mut store) => store.first_wrong_row(rows),
        None => Some(NO_STORE),
    }
}

/// The same where the devices are made again if they find no memory.
fn first_wrong_again(alloc: Global, rows: &Rows) -> Option<usize> {
    match first_wrong_over(alloc, &SURE, rows) {
        Some(NO_STORE) => first_wrong_over(alloc, &SURE, rows),
        wrong => wrong,
    }
}

/// The place of the first deed that comes to something else, over providers of these kinds.
fn first_wrong_of<P: Holder + Drop>(
    alloc: Global,
    kinds: &[P::Kind],
    deeds: &[Deed],
) -> Option<usize> {
    match Store::<P>::new(alloc, kinds) {
        Some(mut store) => store.first_wrong(deeds),
        None => Some(NO_STORE),
    }
}

/// The place of the first row that goes otherwise: of the deed, of the call that fails, or of the schedule.
fn first_wrong_in(alloc: Global, rows: &Rows) -> Option<usize> {
    match rows {
        Rows::Failing(call, _) => first_wrong_over(alloc, &failing(*call), rows),
        Rows::Lied(symbols, deeds) => first_wrong_of::<Liar>(alloc, symbols, deeds),
        Rows::Untold(deeds) => first_wrong_of::<Untold<MemProvider>>(alloc, &SURE, deeds),
        Rows::Again(_) => first_wrong_again(alloc, rows),
        _ => first_wrong_over(alloc, &SURE, rows),
    }
}

/// The place of the first of several rows that goes otherwise, and the place in it.
pub fn first_wrong(alloc: Global, all: &[Rows]) -> Option<(usize, usize)> {
    for place in 0..all.len() {
        if let Some(within) = first_wrong_in(alloc, &all[place]) {
            return Some((place, within));
        }
    }
    None
}
