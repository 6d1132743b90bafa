use hail_client::{ClientTurn, PackStep};
use hail_replay::*;
use hail_scrub::{ScrubAnswer, ScrubTurn};
use record_codec::Counts;
use std::alloc::Global;
use stream_model::Bytes;
use vault::{Answer, BeginFault, PackAnswer, Turn};

/// The bytes that a get is to give.
const WANTED: &[u8] = b"hail";

/// Counts an event.
fn count(alloc: Global, tally: &mut Tally, came: &Came<'_>) -> Option<()> {
    if tally.events() == u64::MAX {
        return None;
    }
    tally.see(alloc, WANTED, 0, came).ok()
}

/// The counts of some events.
fn counted(alloc: Global, events: &[Came<'_>]) -> Option<Tally> {
    let mut tally = Tally::new(alloc);
    for came in events {
        count(alloc, &mut tally, came)?;
    }
    Some(tally)
}

/// Whether the counts tell this of a trial of this number.
fn tells(alloc: Global, tally: &Tally, number: u64, wanted: &[u8]) -> bool {
    match tally.lines(alloc, number) {
        Ok(text) => text.as_slice() == wanted,
        Err(_) => false,
    }
}

/// How many of these events are counted, and whether this is then told of the trial of the largest number.
fn told(alloc: Global, events: &[Came<'_>], wanted: &[u8]) -> Option<(u64, bool)> {
    let tally = counted(alloc, events)?;
    Some((tally.events(), tells(alloc, &tally, u64::MAX, wanted)))
}

#[test]
fn events_are_counted(rt: HostRuntime) {
    let events = [
        Came::Inited(Ok(())),
        Came::Reopened(Ok(())),
        Came::Begun(Some(Err(BeginFault::NothingDue))),
        Came::Stepped(Some(ClientTurn::Job(Turn::NoSuchJob))),
        Came::Stopped,
        Came::Replaced(true),
        Came::Named(None),
        Came::Stopped,
    ];
    let wanted =
        b"trial 18446744073709551615\nevents 8\ngets 0 right 0\naudits 0 flagged\nrepairs 0\nstops 2\n";
    assert_eq!(rt; told(rt.alloc(), &events, wanted), Some((8, true)));
}

/// A step of a scrub.
fn scrubbed(turn: ScrubTurn) -> Came<'static> {
    Came::Stepped(Some(ClientTurn::Scrub { providers: 6, turn }))
}

/// A step of a pack.
fn packed(step: PackStep) -> Came<'static> {
    Came::Stepped(Some(ClientTurn::Pack(step)))
}

#[test]
fn scrubs_and_packs_count_as_events_alone(rt: HostRuntime) {
    let found = ScrubAnswer::Scrubbed {
        stripes: 1,
        symbols: [9; 16],
        blocks: [1; 16],
    };
    let events = [
        Came::Begun(Some(Ok(1))),
        scrubbed(ScrubTurn::More),
        scrubbed(ScrubTurn::Done(found)),
        scrubbed(ScrubTurn::Done(ScrubAnswer::Lost { stripe: 0, row: 1 })),
        packed(PackStep::More),
        packed(PackStep::Done(PackAnswer::Packed {
            before: 124,
            after: 89,
        })),
    ];
    let wanted =
        b"trial 18446744073709551615\nevents 6\ngets 0 right 0\naudits 0 flagged\nrepairs 0\nstops 0\n";
    assert_eq!(rt; told(rt.alloc(), &events, wanted), Some((6, true)));
}

/// Whether the end of a job is seen so by a tolerance: as a get, as a right one, as an audit, as a repair, and
/// with these providers flagged.
fn is_seen_by(
    alloc: Global,
    tolerance: u16,
    answer: &Answer,
    flags: [bool; 4],
    flagged: &[u32],
) -> bool {
    match seen_end(alloc, WANTED, tolerance, answer) {
        Ok(seen) => {
            [seen.got, seen.right, seen.audited, seen.repaired] == flags
                && seen.flagged.as_slice() == flagged
        }
        Err(_) => false,
    }
}

/// The same where no wrong round is tolerated.
fn is_seen(alloc: Global, answer: &Answer, flags: [bool; 4], flagged: &[u32]) -> bool {
    is_seen_by(alloc, 0, answer, flags, flagged)
}

/// Whether the end of a get with these bytes is seen as a get, and as a right one.
fn is_seen_as_get(alloc: Global, bytes: &[u8], right: bool) -> Option<bool> {
    let bytes = Bytes::from_slice(alloc, bytes).ok()?;
    let answer = Answer::Got { bytes };
    Some(is_seen(alloc, &answer, [true, right, false, false], &[]))
}

#[test]
fn gets_are_seen(rt: HostRuntime) {
    let right = [
        is_seen_as_get(rt.alloc(), b"hail", true),
        is_seen_as_get(rt.alloc(), b"hall", false),
    ];
    assert_eq!(rt; right, [Some(true); 2]);
}

#[test]
fn other_ends_are_seen(rt: HostRuntime) {
    let mut counts = Counts { n: 6, by: [0; 16] };
    counts.by[2] = 4;
    counts.by[5] = 1;
    let audited = Answer::Audited {
        number: 1,
        undecided: 0,
        counts,
    };
    let lost = Answer::Lost { stripe: 0, row: 1 };
    let repaired = Answer::Repaired { number: 1 };
    let right = [
        is_seen(rt.alloc(), &Answer::Put, [false; 4], &[]),
        is_seen(rt.alloc(), &lost, [false; 4], &[]),
        is_seen(rt.alloc(), &Answer::Upgraded, [false; 4], &[]),
        is_seen(rt.alloc(), &repaired, [false, false, false, true], &[]),
        is_seen(rt.alloc(), &audited, [false, false, true, false], &[2, 5]),
        is_seen_by(rt.alloc(), 1, &audited, [false, false, true, false], &[2]),
        is_seen_by(rt.alloc(), 4, &audited, [false, false, true, false], &[]),
    ];
    assert_eq!(rt; right, [true; 7]);
}
