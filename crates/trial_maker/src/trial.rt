ghost use Rattle.std.specs.Prelude.{◌≡◌, ◌++◌, ◌/◌, ◌%◌, ◌^◌, [], IfOk, OnOk};
ghost use Rattle.schedule_text.specs.Events.{commands_of};
ghost use Rattle.trial_maker.specs.Draws.{draw};
ghost use Rattle.trial_maker.specs.Trials.{opening, trial_key, trial_bytes, trial_commands};

use crate::draws::Draws;
use crate::epochs::{push, push_epoch, push_last_epoch, push_whole};
use key_schedule::Master;
use record_codec::Setup;
use schedule_text::Event;
use std::alloc::{AllocError, Global};
use stream_model::{Bytes, Memory};

/// The setup of a trial.
const SETUP: Setup = Setup {
    n: 6,
    l: 3,
    b: 1,
    profile: 2,
    rounds: 4,
    picks: 8,
    tolerance: 0,
};

/// How many bytes the file of a trial has.
const SIZE: usize = 65536;

/// A trial: its events, in order, and the bytes of its file, which each get is to give.
#[derive(Drop)]
pub struct Trial {
    pub events: Vec<Event>,
    pub expected: Bytes,
}

/// What the draws of a trial give.
#[derive(Drop)]
struct Drawn {
    provider: u32,
    master: Master,
    bytes: Vec<u8>,
}

/// Draws what a trial needs.
fn draw_all(alloc: Global, number: u64) -> Result<Drawn, AllocError>
    ensures provider { IfOk result (λ drawn. drawn.provider ≡ draw number 1 / 2 ^ 33 % 6) }
    ensures master { IfOk result (λ drawn. drawn.master.0 ≡ trial_key number) }
    ensures bytes { IfOk result (λ drawn. drawn.bytes.items ≡ trial_bytes number) }
{
    let mut draws = Draws::new(number);
    let provider = ((draws.next() >> 33) % 6) as u32;
    let master = Master(draws.key());
    let bytes = draws.bytes(alloc, SIZE)?;
    Ok(Drawn {
        provider,
        master,
        bytes,
    })
}

/// The first events of a trial: the store is set up and opened, and the file is put.
fn push_opening(
    alloc: Global,
    events: &mut Vec<Event>,
    number: u64,
    drawn: &Drawn,
) -> Result<(), Memory>
    requires master { drawn.now.master.0 ≡ trial_key number }
    requires bytes { drawn.now.bytes.items ≡ trial_bytes number }
    ensures { OnOk result (commands_of events.new.items ≡ commands_of events.old.items ++ opening number) }
{
    push(
        events,
        Event::Init {
            setup: SETUP,
            master: drawn.master,
        },
    )?;
    push(events, Event::Reopen)?;
    let name = Bytes::from_slice(alloc, b"trial")?;
    let bytes = Bytes::from_slice(alloc, &drawn.bytes)?;
    let put = Event::BeginPut {
        name,
        bytes,
        profile: None,
    };
    push_whole(events, put, 1)?;
    Ok(())
}

/// The trial of a number: its events, and the bytes that each get is to give. Want of memory is its one
/// refusal.
#[tactic(auto, unfolding(crate::specs::Trials::trial_commands))]
pub fn make_trial(alloc: Global, number: u64) -> Result<Trial, Memory>
    ensures events { IfOk result (λ trial. commands_of trial.events.items ≡ trial_commands number) }
    ensures expected { IfOk result (λ trial. trial.expected ≡ trial_bytes number) }
{
    let drawn = draw_all(alloc, number)?;
    let mut events = Vec::new(alloc);
    push_opening(alloc, &mut events, number, &drawn)?;
    push_epoch(alloc, &mut events, drawn.provider, 2)?;
    push_epoch(alloc, &mut events, (drawn.provider + 1) % 6, 7)?;
    push_last_epoch(alloc, &mut events, (drawn.provider + 2) % 6, 12)?;
    Ok(Trial {
        events,
        expected: Bytes::from_vec(drawn.bytes),
    })
}
