ghost use Rattle.std.specs.Prelude.{◌≡◌, ◌-◌, ◌<◌, ◌^◌, ℕ, List, [], OnOk, OnErr};
ghost use Rattle.hail_replay.specs.Came.{came_outcome};
ghost use Rattle.hail_replay.specs.Counts.{counts_of, counts_on};
ghost use Rattle.hail_replay.specs.Seen.{SeesOne};

use crate::Came;
use crate::seen::seen_of;
use std::alloc::Global;
use std::marker::Model;
use stream_model::Memory;

/// What a trial counts: events that were done, gets that ended with bytes and those with the right ones,
/// audits that ended and whom they flagged, in order, repairs that ended, and stops.
#[derive(Drop)]
pub struct Tally {
    pub(crate) events: u64,
    pub(crate) gets: u64,
    pub(crate) right: u64,
    pub(crate) audits: u64,
    pub(crate) flagged: Vec<u32>,
    pub(crate) repairs: u64,
    pub(crate) stops: u64,
}

impl Model for Tally {
    ghost use Rattle.hail_replay.specs.Counts.{TrialCounts};

    ghost Value = { TrialCounts };

    ghost use Rattle.hail_replay.specs.Seen.{counts_in, IsTally};

    ghost view = { counts_in };

    ghost invariant = { IsTally };
}

impl Tally {
    /// The counts of no event.
    pub fn new(alloc: Global) -> Tally
        ensures { (expected : List ℕ) → result ≡ counts_of expected [] [] }
    {
        Tally {
            events: 0,
            gets: 0,
            right: 0,
            audits: 0,
            flagged: Vec::new(alloc),
            repairs: 0,
            stops: 0,
        }
    }

    /// How many events were done.
    pub fn events(&self) -> u64
        ensures { result ≡ self.now.events }
    {
        self.events
    }

    /// Counts one more event that came to this; gets are to give the expected bytes, and an audit flags by
    /// the tolerance of the store, in wrong rounds. Want of memory is its one refusal. Condition: fewer than
    /// 2^64 - 1 events were counted (`events` tells).
    pub fn see(
        &mut self,
        alloc: Global,
        expected: &[u8],
        tolerance: u16,
        came: &Came<'_>,
    ) -> Result<(), Memory>
        requires { self.old.events < 2 ^ 64 - 1 }
        ensures ok { OnOk result (self.new ≡ counts_on expected.now tolerance (came_outcome came.now) self.old) }
        ensures err { OnErr result (self.new ≡ self.old) }
        ensures run { OnOk result
            (SeesOne expected.now tolerance (came_outcome came.now) self.old self.new) }
    {
        let seen = seen_of(alloc, expected, tolerance, came)?;
        self.flagged.extend_from_slice(&seen.flagged)?;
        self.events += 1;
        self.gets += u64::from(seen.got);
        self.right += u64::from(seen.right);
        self.audits += u64::from(seen.audited);
        self.repairs += u64::from(seen.repaired);
        self.stops += u64::from(seen.stopped);
        Ok(())
    }
}
