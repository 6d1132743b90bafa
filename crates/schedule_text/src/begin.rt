// Reads what stands behind the word `begin`.
ghost use Rattle.std.specs.Prelude.{◌≡◌, false, codes, IfErr};
ghost use Rattle.std.specs.Str.{bytes_eq};
ghost use Rattle.schedule_text.specs.Grammar.{words};
ghost use Rattle.schedule_text.specs.Events.{event_command};
ghost use Rattle.schedule_text.specs.Reading.{Gives, put_at, get_at, drop_words_at, begun_at, begin_at};

use crate::event::Event;
use crate::fault::LineFault;
use crate::field::{take_bytes, take_profile};
use crate::word::{ended, take_word};
use std::alloc::Global;
use stream_model::Bytes;

/// The begin of a put.
#[tactic(auto, unfolding(crate::specs::Reading::put_at))]
fn read_put(alloc: Global, line: &[u8]) -> Result<Event, LineFault>
    ensures { Gives event_command result (put_at (words line.now)) }
{
    let (name, left) = take_word(line)?;
    let (bytes, left) = take_bytes(alloc, left)?;
    let name = Bytes::from_slice(alloc, name)?;
    let (profile, left) = take_profile(left)?;
    let put = Event::BeginPut {
        name,
        bytes,
        profile,
    };
    ended(put, left)
}

/// The begin of a get.
#[tactic(auto, unfolding(crate::specs::Reading::get_at))]
fn read_get(alloc: Global, line: &[u8]) -> Result<Event, LineFault>
    ensures { Gives event_command result (get_at (words line.now)) }
{
    let (name, left) = take_word(line)?;
    let name = Bytes::from_slice(alloc, name)?;
    ended(Event::BeginGet { name }, left)
}

/// The begin of a drop.
#[tactic(auto, unfolding(crate::specs::Reading::drop_words_at))]
fn read_drop(alloc: Global, line: &[u8]) -> Result<Event, LineFault>
    ensures { Gives event_command result (drop_words_at (words line.now)) }
{
    let (name, left) = take_word(line)?;
    let name = Bytes::from_slice(alloc, name)?;
    ended(Event::BeginDrop { name }, left)
}

/// The begin of a job of this kind, or of a scrub or a pack.
#[tactic(auto, unfolding(crate::specs::Reading::begun_at))]
fn read_begun(alloc: Global, kind: &[u8], line: &[u8]) -> Result<Event, LineFault>
    ensures read { Gives event_command result (begun_at kind.now (words line.now)) }
    ensures bad { bytes_eq kind.now (codes "put") ≡ false → bytes_eq kind.now (codes "get") ≡ false
        → bytes_eq kind.now (codes "drop") ≡ false → IfErr result (λ fault. fault ≡ LineFault.Bad) }
{
    if kind == b"put".as_slice() {
        read_put(alloc, line)
    } else if kind == b"get".as_slice() {
        read_get(alloc, line)
    } else if kind == b"drop".as_slice() {
        read_drop(alloc, line)
    } else if kind == b"audit".as_slice() {
        ended(Event::BeginAudit, line)
    } else if kind == b"repair".as_slice() {
        ended(Event::BeginRepair, line)
    } else if kind == b"upgrade".as_slice() {
        ended(Event::BeginUpgrade, line)
    } else if kind == b"scrub".as_slice() {
        ended(Event::BeginScrub, line)
    } else if kind == b"pack".as_slice() {
        ended(Event::BeginPack, line)
    } else {
        Err(LineFault::Bad)
    }
}

/// A `begin`.
#[tactic(auto, unfolding(crate::specs::Reading::begin_at))]
pub(crate) fn read_begin(alloc: Global, line: &[u8]) -> Result<Event, LineFault>
    ensures { Gives event_command result (begin_at (words line.now)) }
{
    let (kind, left) = take_word(line)?;
    read_begun(alloc, kind, left)
}
