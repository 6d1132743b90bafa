// Reads what stands behind the first word of a line.
ghost use Rattle.std.specs.Prelude.{[]};
ghost use Rattle.record_codec.specs.Entries.{with_master};
ghost use Rattle.schedule_text.specs.Grammar.{words};
ghost use Rattle.schedule_text.specs.Events.{event_command};
ghost use Rattle.schedule_text.specs.Reading.{Gives, setup_words_at, init_at, step_at, run_at, alter_at, lose_at, stop_at};

use crate::event::Event;
use crate::fault::LineFault;
use crate::field::{take_bytes, take_key, take_u8, take_u16, take_u32, take_u64, take_u128};
use crate::word::ended;
use hail_field::Symbol;
use record_codec::Setup;
use std::alloc::Global;

/// The seven numbers of a setup.
#[tactic(auto, unfolding(crate::specs::Reading::setup_words_at))]
fn take_setup(line: &[u8]) -> Result<(Setup, &[u8]), LineFault>
    ensures { Gives (λ x. (with_master x.0 [], words x.1.now)) result (setup_words_at (words line.now)) }
{
    let (n, left) = take_u8(line)?;
    let (l, left) = take_u8(left)?;
    let (b, left) = take_u8(left)?;
    let (profile, left) = take_u8(left)?;
    let (rounds, left) = take_u8(left)?;
    let (picks, left) = take_u8(left)?;
    let (tolerance, left) = take_u16(left)?;
    let setup = Setup {
        n,
        l,
        b,
        profile,
        rounds,
        picks,
        tolerance,
    };
    Ok((setup, left))
}

/// An `init`.
#[tactic(auto, unfolding(crate::specs::Reading::init_at))]
pub(crate) fn read_init(line: &[u8]) -> Result<Event, LineFault>
    ensures { Gives event_command result (init_at (words line.now)) }
{
    let (setup, left) = take_setup(line)?;
    let (master, left) = take_key(left)?;
    ended(Event::Init { setup, master }, left)
}

/// A `step`.
#[tactic(auto, unfolding(crate::specs::Reading::step_at))]
pub(crate) fn read_step(line: &[u8]) -> Result<Event, LineFault>
    ensures { Gives event_command result (step_at (words line.now)) }
{
    let (job, left) = take_u32(line)?;
    ended(Event::Step { job }, left)
}

/// A `run`.
#[tactic(auto, unfolding(crate::specs::Reading::run_at))]
pub(crate) fn read_run(line: &[u8]) -> Result<Event, LineFault>
    ensures { Gives event_command result (run_at (words line.now)) }
{
    let (job, left) = take_u32(line)?;
    ended(Event::Run { job }, left)
}

/// An `alter`.
#[tactic(auto, unfolding(crate::specs::Reading::alter_at))]
pub(crate) fn read_alter(line: &[u8]) -> Result<Event, LineFault>
    ensures { Gives event_command result (alter_at (words line.now)) }
{
    let (provider, left) = take_u32(line)?;
    let (object, left) = take_u64(left)?;
    let (stripe, left) = take_u32(left)?;
    let (place, left) = take_u32(left)?;
    let (symbol, left) = take_u128(left)?;
    let alter = Event::Alter {
        provider,
        object,
        stripe,
        place,
        symbol: Symbol(symbol),
    };
    ended(alter, left)
}

/// A `lose`.
#[tactic(auto, unfolding(crate::specs::Reading::lose_at))]
pub(crate) fn read_lose(line: &[u8]) -> Result<Event, LineFault>
    ensures { Gives event_command result (lose_at (words line.now)) }
{
    let (provider, left) = take_u32(line)?;
    let (object, left) = take_u64(left)?;
    let (stripe, left) = take_u32(left)?;
    let lose = Event::Lose {
        provider,
        object,
        stripe,
    };
    ended(lose, left)
}

/// A `stop`.
#[tactic(auto, unfolding(crate::specs::Reading::stop_at))]
pub(crate) fn read_stop(alloc: Global, line: &[u8]) -> Result<Event, LineFault>
    ensures { Gives event_command result (stop_at (words line.now)) }
{
    let (picks, left) = take_bytes(alloc, line)?;
    ended(Event::Stop { picks }, left)
}
