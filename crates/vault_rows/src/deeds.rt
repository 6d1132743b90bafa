use crate::job::Job;
use crate::packing::SeenPack;
use crate::store::{Seen, Store};
use record_codec::Setup;
use std::alloc::Global;
use vault::BeginFault;

/// Six providers, three of them primary, in the first profile but one; four rounds of eight picks.
pub const SIX: Setup = Setup {
    n: 6,
    l: 3,
    b: 1,
    profile: 1,
    rounds: 4,
    picks: 8,
    tolerance: 0,
};

/// Four providers, one of them primary, in the first profile; one round of one pick.
pub const FOUR: Setup = Setup {
    n: 4,
    l: 1,
    b: 1,
    profile: 0,
    rounds: 1,
    picks: 1,
    tolerance: 0,
};

/// Something that is done to a store or seen of it, and what is to come of it.
#[derive(Clone, Copy)]
pub enum Deed {
    /// A job is begun: its number, or why it is refused.
    Begins(Job, Result<u32, BeginFault>),
    /// A job makes so many steps, and the last one comes to this.
    Steps(u32, u32, Seen),
    /// A job makes so many steps, each of which asks one provider, in turn, and is not its last.
    Asks(u32, u32),
    /// A job is run in so many steps, and the last one comes to this.
    Runs(u32, u32, Seen),
    /// A job is run, and its last step comes to this.
    Ends(u32, Seen),
    /// The disk is stopped by these picks, and the vault opened anew.
    Reopens(&'static [u8]),
    /// The next object has this number.
    Next(u64),
    /// So many providers hold a block of the first stripe of an object.
    Held(u64, usize),
    /// The first provider's block of the first stripe of an object has so many symbols.
    Sized(u64, usize),
    /// The disk has so many bytes.
    DiskHas(usize),
    /// The providers were asked so often, and called otherwise so often.
    Called(u32, u32),
    /// The first blocks of the first object, which each of six providers holds, are kept in mind.
    Keeps,
    /// The first provider loses its block.
    Loses,
    /// The blocks are again those that were kept in mind.
    Mended,
    /// The vault is held: the number under which it is, or why it is refused.
    Holds(Result<u32, BeginFault>),
    /// The vault is released.
    Releases,
    /// A scrub of all files may come to so many steps.
    ScrubHas(u64),
    /// The journal's text has this length.
    Texts(u64),
    /// A pack begins and makes at most so many steps, and the last one comes to this.
    Packs(u32, SeenPack),
    /// Over a disk of the same bytes that fails at a call a pack comes to this, and another behind it to that.
    PacksOver(u64, SeenPack, SeenPack),
    /// A hold is refused where a disk call of a put failed.
    Bars(BeginFault),
    /// A stream of a file named `a` is begun: its number, or why it is refused.
    Streams(Result<u32, BeginFault>),
    /// A stripe of a file has so many bytes.
    StripeHas(usize),
    /// Whether a stream may be given so many bytes, as a stripe or as its last ones.
    May(u32, usize, bool, bool),
    /// A stream is given these bytes, as a stripe or as its last ones.
    Gives(u32, &'static [u8], bool),
    /// A stream that waits for a stripe is given up.
    Abandons(u32),
}

impl Store {
    /// Whether a step of a job that is not its last asks one provider, the next in turn of six, and calls
    /// none otherwise.
    fn asks_next(&mut self, job: u32) -> bool {
        let before = self.asks();
        let more = self.step(job) == Seen::More;
        let place = before as usize % 6;
        more && self.asks() == before.saturating_add(1) && self.asks_of(place) == before / 6 + 1
    }

    /// Whether so many steps of a job do so.
    fn ask_in_turn(&mut self, job: u32, count: u32) -> bool {
        for _ in 0..count {
            if !self.asks_next(job) {
                return false;
            }
        }
        true
    }

    /// Whether a deed comes to what it is to.
    fn goes(&mut self, deed: Deed) -> bool {
        match deed {
            Deed::Begins(job, wanted) => self.begin(job) == wanted,
            Deed::Steps(job, count, wanted) => self.steps(job, count) == wanted,
            Deed::Asks(job, count) => self.ask_in_turn(job, count),
            Deed::Runs(job, steps, wanted) => self.run(job) == (steps, wanted),
            Deed::Ends(job, wanted) => self.run(job).1 == wanted,
            Deed::Reopens(picks) => self.reopen(picks),
            Deed::Next(number) => self.next_id() == Some(number),
            Deed::Held(object, count) => self.holders(object) == count,
            Deed::Sized(object, size) => self.block_size(object) == Some(size),
            Deed::DiskHas(count) => self.disk_len() == count,
            Deed::Called(asks, others) => (self.asks(), self.other_calls()) == (asks, others),
            Deed::Keeps => self.keeps_blocks(),
            Deed::Loses => self.loses_first(),
            Deed::Mended => self.has_kept_blocks(),
            Deed::Holds(wanted) => self.hold() == wanted,
            Deed::Releases => self.release(),
            Deed::ScrubHas(left) => self.scrub_left() == Some(left),
            Deed::Texts(length) => self.text_length() == Some(length),
            Deed::Packs(steps, wanted) => self.pack(steps) == wanted,
            Deed::PacksOver(call, first, second) => self.packs_over(call) == Some((first, second)),
            Deed::Bars(fault) => self.hold_after_fault() == Some(Err(fault)),
            Deed::Streams(wanted) => self.begin_stream(b"a") == wanted,
            Deed::StripeHas(size) => self.stripe_size() == Some(size),
            Deed::May(job, count, last, wanted) => self.may_give(job, count, last) == wanted,
            Deed::Gives(job, piece, last) => self.give(job, piece, last),
            Deed::Abandons(job) => self.abandon(job),
        }
    }

    /// The place of the first deed that comes to something else.
    fn first_wrong(&mut self, deeds: &[Deed]) -> Option<usize> {
        for place in 0..deeds.len() {
            if !self.goes(deeds[place]) {
                return Some(place);
            }
        }
        None
    }
}

/// The place of the first of these deeds, over a store that is set up and open, that comes to something else.
pub fn first_wrong(alloc: Global, setup: &Setup, deeds: &[Deed]) -> Option<usize> {
    match Store::set_up(alloc, setup) {
        Some(mut store) => store.first_wrong(deeds),
        None => Some(usize::MAX),
    }
}
