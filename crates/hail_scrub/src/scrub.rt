ghost use Rattle.std.specs.Prelude.{◌≡◌, ◌<◌, ◌≤◌, Bool, length, map};
ghost use Rattle.stripe_bench.specs.Calls.{sight};
ghost use Rattle.machine_defs.specs.States.{State, Scrub as MachineScrub};

use crate::cursor::Cursor;
use crate::progress::Progress;
use crate::turn::ScrubTurn;
use provider_model::Provider;
use std::marker::Model;

/// A scrub: it fetches every block of each of its files, counts each symbol that differs from what the accepted
/// rows give, and rewrites each block that differs at all. Contracts see what it has still to do, the stripe in
/// work, and what it has found.
#[derive(Drop)]
pub struct Scrub {
    pub(crate) progress: Progress,
}

impl Model for Scrub {
    ghost use Rattle.hail_scrub.specs.Views.{ScrubView};

    ghost Value = { ScrubView };

    ghost use Rattle.hail_scrub.specs.Progress.{scrub_view, IsProgress};

    ghost view = { λ s. scrub_view s.progress };

    ghost invariant = { λ s. IsProgress s.progress };
}

impl Scrub {
    ghost use Rattle.std.specs.Prelude.{◌≡◌, ◌<◌, ◌≤◌, Bool, length, map};
    ghost use Rattle.hail_scrub.specs.Views.{scrub_left, next_to_do, called_by};
    ghost use Rattle.stripe_bench.specs.Calls.{CallsOnly};
    ghost use Rattle.hail_scrub.specs.Stands.{ScrubStands, MakesScrubStep, IsOver};

    /// Makes the next action: a fetch, an opening, a store, or the end. Conditions: the scrub has not ended, so
    /// that `left` is above 0; and as many providers at least as its files have, of which only these are used.
    pub fn step<P: Provider>(&mut self, providers: &mut [P]) -> ScrubTurn
        requires going { 0 < scrub_left self.old }
        requires there { self.old.providers ≤ length providers.old }
        ensures machine { (w : State) (m : MachineScrub) (is_told : Bool)
            → ScrubStands self.old (map (sight is_told P.Provider) providers.old) w m
            → MakesScrubStep w m result self.new (map (sight is_told P.Provider) providers.new) }
        ensures left { scrub_left self.new < scrub_left self.old }
        ensures over { IsOver result self.new }
        ensures providers { self.new.providers ≡ self.old.providers }
        ensures calls { CallsOnly P.calls (called_by (next_to_do self.old)) providers.old providers.new }
    {
        self.progress.step(providers)
    }

    /// How many steps may remain: each opening counts with a store on each provider until it is made. It falls
    /// at each step, and is 0 exactly where the scrub has ended.
    pub fn left(&self) -> u64
        ensures { result ≡ scrub_left self.now }
    {
        self.progress.left
    }
}
