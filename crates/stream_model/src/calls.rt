ghost use Rattle.std.specs.Prelude.{◌≡◌, IfOk, IsTrue};
ghost use Rattle.device_defs.specs.Faults.{HasCause};
ghost use Rattle.device_defs.specs.Calls.{fails_next, no_calls, called};

use crate::fault::Memory;
use std::alloc::Global;
use std::marker::Model;

/// The calls of a device in memory: counts them from 0, and fails those whose numbers are listed.
#[derive(Drop)]
pub struct Calls {
    fails: Vec<u64>,
    made: u64,
    failed: u64,
}

impl Model for Calls {
    ghost use Rattle.device_defs.specs.Calls.{CallCount};

    ghost Value = { CallCount };

    ghost view = { λ calls. record { fails = calls.fails.items; made = calls.made; failed = calls.failed } };
}

impl Calls {
    /// No call was made yet. Want of memory is its one refusal.
    pub fn new(alloc: Global, fails: &[u64]) -> Result<Calls, Memory>
        ensures { IfOk result (λ calls. calls ≡ no_calls fails.now) }
    {
        Ok(Calls {
            fails: fails.to_vec(alloc)?,
            made: 0,
            failed: 0,
        })
    }

    /// Counts one more call, and says whether it fails.
    pub fn next(&mut self) -> bool
        ensures fails { result ≡ fails_next self.old }
        ensures counted { self.new ≡ called self.old }
        ensures cause { HasCause self.old.failed self.new.failed (IsTrue result) }
    {
        let fails = self.fails.contains(&self.made);
        self.made = self.made.saturating_add(1);
        if fails {
            self.failed = self.failed.saturating_add(1);
        }
        fails
    }
}
