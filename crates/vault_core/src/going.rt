//! How a job goes on.
ghost use Rattle.std.specs.Prelude.{◌≡◌, ◌<◌, ◌≤◌, ◌+◌, ◌-◌, ◌^◌, ℕ, false, true, [], ◌++◌, length, map, drop, IfSome, IfNone};
ghost use Rattle.vault_core.specs.View.{flag_at};
ghost use Rattle.vault_core.specs.Coming.{is_last_ask};
ghost use Rattle.vault_core.specs.Rest.{rest_of, closing_of, tasks_on, beyond, calls_from, work_of, rewrites_from};
ghost use Rattle.vault_core.specs.Parts.{IsSet, MayBeAt, IsSteadyJob, is_over, is_rewriter, is_worker, is_caller};
ghost use Rattle.vault_core.specs.Going.{aimed, is_taker, decides, decides_on, drawn_tasks, removals_of, LeavesBehind};
ghost use Rattle.vault_core.specs.Parts.{MayFinish};

use crate::action::Action;
use crate::cursor::{Cursor, Move, Spot};
use crate::job::{Job, Task};
use crate::wish::Wish;

/// The first flagged provider from one on, below so many.
fn flagged_from(flagged: &[bool; 16], from: u32, providers: u32) -> Option<u32>
    requires { providers ≤ 16 }
    ensures below { IfSome result (λ j. j < providers) }
    ensures flagged { IfSome result (λ j. flag_at flagged.now j ≡ true) }
    ensures first { (object turn : ℕ)
        → IfSome result (λ j. rewrites_from from providers flagged.now object turn
        ≡ rewrites_from j providers flagged.now object turn) }
    ensures none { (object turn : ℕ)
        → IfNone result (rewrites_from from providers flagged.now object turn ≡ []) }
{
    for j in from..providers {
        if flagged[j as usize] {
            return Some(j);
        }
    }
    None
}

/// Names the object of a put's own file.
fn aim(tasks: &mut [Task], object: u64)
    ensures { tasks.new ≡ map (aimed object) tasks.old }
{
    for task in tasks.iter_mut() {
        task.object = object;
    }
}

impl Job {
    /// The cursor behind all files.
    fn closing(&self) -> Cursor
        ensures { (n : ℕ) → MayBeAt n self.now result (closing_of self.now.wish) }
    {
        match self.wish {
            Wish::Get { .. } | Wish::Drop { .. } => Cursor::Ending,
            _ => Cursor::Closing { at: Move::Body },
        }
    }

    /// The cursor at the task of a place, or behind all files.
    fn task_at(&self, place: usize) -> Cursor
        ensures { (n : ℕ) → 0 < n → IsSet n self.now
            → MayBeAt n self.now result (tasks_on n self.now (drop place self.now.tasks.items)) }
    {
        match self.tasks.get(place) {
            Some(task) => Cursor::Calling {
                spot: Spot {
                    object: task.object,
                    turn: 0,
                    turns: task.turns,
                    behind: place + 1,
                },
                provider: 0,
            },
            None => self.closing(),
        }
    }

    /// The cursor behind a stripe or round.
    fn turn_after(&self, spot: Spot) -> Cursor
        requires { spot.turn < spot.turns }
        ensures { (n : ℕ) → 0 < n → IsSet n self.now → is_caller self.now.wish ≡ true
            → MayBeAt n self.now result (beyond n self.now spot) }
    {
        if spot.turn + 1 < spot.turns {
            return Cursor::Calling {
                spot: Spot {
                    turn: spot.turn + 1,
                    ..spot
                },
                provider: 0,
            };
        }
        self.task_at(spot.behind)
    }

    /// The cursor behind the calls of providers at a stripe or round.
    fn calls_after(&self, spot: Spot) -> Cursor
        requires { spot.turn < spot.turns }
        ensures { (n : ℕ) → 0 < n → IsSet n self.now → is_caller self.now.wish ≡ true →
            MayBeAt n self.now result
            (work_of n self.now.wish self.now.flagged spot.object spot.turn ++ beyond n self.now spot) }
    {
        match self.wish {
            Wish::Get { .. } | Wish::Repair => Cursor::Working { spot },
            _ => self.turn_after(spot),
        }
    }

    /// The cursor at the stores of a repair from a provider on, or behind them.
    fn rewrites_after(&self, spot: Spot, from: u32, providers: u32) -> Cursor
        requires within { spot.turn < spot.turns }
        requires few { providers ≤ 16 }
        requires some { 0 < providers }
        requires stays { IsSet providers self.now }
        requires wish { is_rewriter self.now.wish ≡ true }
        ensures { MayBeAt providers self.now result
            (rewrites_from from providers self.now.flagged spot.object spot.turn
            ++ beyond providers self.now spot) }
    {
        match flagged_from(&self.flagged, from, providers) {
            Some(provider) => Cursor::Rewriting { spot, provider },
            None => self.turn_after(spot),
        }
    }

    /// The cursor behind the work on a stripe.
    fn work_after(&self, spot: Spot, providers: u32) -> Cursor
        requires within { spot.turn < spot.turns }
        requires few { providers ≤ 16 }
        requires some { 0 < providers }
        requires stays { IsSet providers self.now }
        requires wish { is_worker self.now.wish ≡ true }
        ensures { MayBeAt providers self.now result
            (drop 1 (work_of providers self.now.wish self.now.flagged spot.object spot.turn)
            ++ beyond providers self.now spot) }
    {
        match self.wish {
            Wish::Repair => self.rewrites_after(spot, 0, providers),
            _ => self.turn_after(spot),
        }
    }

    /// The cursor behind the call of a provider.
    fn call_after(&self, spot: Spot, provider: u32, providers: u32) -> Cursor
        requires within { spot.turn < spot.turns }
        requires some { provider < providers }
        requires stays { IsSet providers self.now }
        requires wish { is_caller self.now.wish ≡ true }
        ensures { MayBeAt providers self.now result
            (calls_from (provider + 1) providers self.now.wish spot.object spot.turn
            ++ (work_of providers self.now.wish self.now.flagged spot.object spot.turn
            ++ beyond providers self.now spot)) }
    {
        if provider + 1 < providers {
            return Cursor::Calling {
                spot,
                provider: provider + 1,
            };
        }
        self.calls_after(spot)
    }

    /// The cursor behind the next action, where that is not the end.
    fn after(&self, providers: u32) -> Cursor
        requires few { providers ≤ 16 }
        requires some { 0 < providers }
        requires kept { IsSteadyJob providers self.now }
        requires going { is_over self.now.cursor ≡ false }
        ensures { MayBeAt providers self.now result (drop 1 (rest_of providers self.now)) }
    {
        match self.cursor {
            Cursor::Opening { at } => match at.next() {
                Some(at) => Cursor::Opening { at },
                None => self.task_at(0),
            },
            Cursor::Calling { spot, provider } => self.call_after(spot, provider, providers),
            Cursor::Working { spot } => self.work_after(spot, providers),
            Cursor::Rewriting { spot, provider } => {
                self.rewrites_after(spot, provider + 1, providers)
            }
            Cursor::Closing { at } => match at.next() {
                Some(at) => Cursor::Closing { at },
                None => Cursor::Ending,
            },
            Cursor::Removing { object, provider } => {
                if provider + 1 < providers {
                    Cursor::Removing {
                        object,
                        provider: provider + 1,
                    }
                } else {
                    Cursor::Ending
                }
            }
            Cursor::Ending => unreachable!(),
        }
    }

    /// The next action is the last ask of an audit.
    pub fn is_last_ask(&self, providers: u32) -> bool
        requires few { providers ≤ 16 }
        requires some { 0 < providers }
        requires kept { IsSteadyJob providers self.now }
        ensures { result ≡ is_last_ask (rest_of providers self.now) }
    {
        match self.action() {
            Action::Ask { .. } => self.after(providers).is_start(),
            _ => false,
        }
    }

    /// Makes the next action, where it does not decide on the removal of an older object.
    pub fn advance(&mut self, providers: u32)
        requires few { providers ≤ 16 }
        requires some { 0 < providers }
        requires kept { IsSteadyJob providers self.old }
        requires going { is_over self.old.cursor ≡ false }
        requires left { 0 < self.old.left }
        requires fits { self.old.place + self.old.left < 2 ^ 64 }
        ensures kept { IsSteadyJob providers self.new }
        ensures rest { rest_of providers self.new ≡ drop 1 (rest_of providers self.old) }
        ensures same { self.new ≡ record self.old {
          cursor = self.new.cursor;
          place = self.old.place + 1;
          left = self.old.left - 1;
        } }
    {
        self.cursor = self.after(providers);
        self.place += 1;
        self.left -= 1;
    }

    /// Takes the number of a put or an audit.
    pub fn draw(&mut self, number: u64)
        ensures subject { self.new.subject ≡ number }
        ensures tasks { self.new.tasks.items ≡ drawn_tasks number self.old.wish self.old.tasks.items }
        ensures same { self.new ≡ record self.old { subject = self.new.subject; tasks = self.new.tasks } }
    {
        self.subject = number;
        if let Wish::Put { .. } = self.wish {
            aim(&mut self.tasks, number);
        }
    }

    /// The last append of a put or a drop has ended, which decides on the removal of an older object.
    fn decides(&self) -> bool
        ensures { result ≡ decides self.now }
    {
        self.appends == 0 && matches!(self.wish, Wish::Put { .. } | Wish::Drop { .. })
    }

    /// Makes the action that decides on the removal of an older object.
    fn decide(&mut self, older: Option<u64>, providers: u32)
        requires some { 0 < providers }
        requires kept { IsSteadyJob providers self.old }
        requires taker { is_taker self.old.wish ≡ true }
        requires left { self.old.left ≡ 2 + providers }
        requires fits { self.old.place + self.old.left < 2 ^ 64 }
        ensures kept { IsSteadyJob providers self.new }
        ensures rest { rest_of providers self.new ≡ removals_of providers older }
        ensures left { self.new.left ≡ length (removals_of providers older) }
        ensures same { self.new ≡ record self.old {
          cursor = self.new.cursor;
          place = self.old.place + 1;
          left = self.new.left;
        } }
    {
        self.place += 1;
        match older {
            Some(object) => {
                self.cursor = Cursor::Removing {
                    object,
                    provider: 0,
                };
                self.left -= 1;
            }
            None => {
                self.cursor = Cursor::Ending;
                self.left = 1;
            }
        }
    }

    /// Makes the last move of an append, which decides on the removal of an older object where it is the last
    /// append of a put or a drop.
    pub fn finish(&mut self, older: Option<u64>, providers: u32)
        requires few { providers ≤ 16 }
        requires some { 0 < providers }
        requires ready { MayFinish providers self.old }
        ensures kept { IsSteadyJob providers self.new }
        ensures behind { LeavesBehind providers older (decides_on self.old) self.old self.new }
        ensures same { self.new ≡ record self.old {
          older = older;
          cursor = self.new.cursor;
          appends = self.old.appends - 1;
          place = self.old.place + 1;
          left = self.new.left;
        } }
    {
        self.older = older;
        self.appends -= 1;
        if self.decides() {
            self.decide(older, providers);
        } else {
            self.advance(providers);
        }
    }
}
