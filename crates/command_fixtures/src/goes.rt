use crate::areas::{long_journal, second_area};
use crate::deed::Deed;
use crate::holder::Holder;
use crate::store::{Store, disk_of};

impl<P: Holder + Drop> Store<P> {
    /// Whether what is seen of the store is as it is to be.
    fn shows(&self, deed: &Deed) -> bool {
        match *deed {
            Deed::Heard(wanted) => self.has_heard(wanted),
            Deed::HeardHeld(count) => self.heard_from_all(count),
            Deed::WroteOther(stored) => self.wrote_other(stored),
            Deed::DiskIs(bytes) => self.journal() == bytes,
            Deed::DiskReads(at, bytes) => self.reads(at, bytes),
            Deed::DiskHas(len) => self.journal().len() == len,
            Deed::Known(stored) => self.is_known(stored),
            Deed::Holds(provider, object) => self.holds(provider, object),
            Deed::Lacks(provider, object) => !self.holds(provider, object),
            Deed::Holders(count) => self.holders() == count,
            Deed::Block(provider, len, zero) => self.is_block(provider, len, zero),
            Deed::Blocks(providers, object, stripes, symbols) => self.are_blocks(
                providers, object, stripes, symbols,
            ),
            Deed::Mended => self.is_mended(),
            _ => false,
        }
    }

    /// Whether what is done to the devices is done.
    fn is_done(&mut self, deed: &Deed) -> bool {
        match *deed {
            Deed::DiskBecomes(bytes) => self.takes(disk_of(self.alloc, bytes, &[])),
            Deed::SecondBecomes(bytes) => self.takes_bytes(second_area(self.alloc, bytes)),
            Deed::LongBecomes(letters) => self.takes_bytes(long_journal(self.alloc, letters)),
            Deed::DiskOf(stored) => self.takes(disk_of(self.alloc, stored.journal(), &[])),
            Deed::Stops(picks) => self.is_stopped(picks),
            Deed::DiskFails(calls) => self.fails_at(calls),
            Deed::Providers(count) => self.has_left(count),
            Deed::Loses(provider) => self.loses(provider, 1),
            Deed::LosesOne(provider) => self.loses(provider, 1) || self.loses(provider, 2),
            Deed::LosesOf(provider, object) => self.loses(provider, object),
            Deed::Puts(count) => self.puts(count),
            Deed::Alters(provider, place, symbol) => self.alters(provider, place, symbol),
            Deed::Keeps => self.keeps(),
            _ => self.shows(deed),
        }
    }

    /// Whether a deed comes to what it is to.
    pub fn goes(&mut self, deed: &Deed) -> bool {
        match *deed {
            Deed::Done(line, input, text) => self.ends(line, input, 0, 0, text),
            Deed::Refused(line, input, status, at) => self.ends(line, input, status, at, b""),
            Deed::OverSource(line, call, status) => self.over_source(line, call, status),
            Deed::StopsAt(line, input, call, status) => self.stops_at(line, input, call, status),
            Deed::Long(line, len, status, text) => self.over_long(line, len, status, text),
            Deed::OverSink(line, input, call, status, text) => self.over_sink(
                line, input, call, status, text,
            ),
            Deed::Again(line, input, text, status) => self.ends_again(line, input, text, status),
            Deed::Pinched(line, input, write) => self.is_pinched(line, input, write),
            _ => self.is_done(deed),
        }
    }

    /// The place of the first deed that comes to something else.
    pub fn first_wrong(&mut self, deeds: &[Deed]) -> Option<usize> {
        for place in 0..deeds.len() {
            if !self.goes(&deeds[place]) {
                return Some(place);
            }
        }
        None
    }

    /// Whether each deed comes to what it is to.
    pub fn all_go(&mut self, deeds: &[Deed]) -> bool {
        self.first_wrong(deeds).is_none()
    }
}
