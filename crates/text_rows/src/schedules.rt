use crate::given::{KEY, KEY_BYTES, no_other};
use hail_field::Symbol;
use record_codec::Setup;
use schedule_text::*;
use std::alloc::{AllocError, Global};

/// An event that a line is to be read as, its names, bytes and numbers as they stand there.
#[derive(Clone, Copy)]
enum Wanted {
    /// The set-up with the key that stands here.
    Init(Setup),
    /// A name, bytes, and the number of a profile.
    Put(&'static [u8], &'static [u8], Option<u8>),
    Get(&'static [u8]),
    Drop(&'static [u8]),
    Audit,
    Repair,
    Upgrade,
    Scrub,
    Pack,
    Step(u32),
    Run(u32),
    /// A provider, an object, a stripe, a place and a symbol.
    Alter(u32, u64, u32, u32, u128),
    /// A provider, an object and a stripe.
    Lose(u32, u64, u32),
    Stop(&'static [u8]),
    Reopen,
    List,
}

/// Whether an event is this.
fn is(event: &Event, wanted: Wanted) -> bool {
    match (event, wanted) {
        (Event::Init { setup, master }, Wanted::Init(numbers)) => {
            *setup == numbers && master.0 == KEY_BYTES
        }
        (
            Event::BeginPut {
                name,
                bytes,
                profile,
            },
            Wanted::Put(letters, content, number),
        ) => name.as_slice() == letters && bytes.as_slice() == content && *profile == number,
        (Event::BeginGet { name }, Wanted::Get(letters)) => name.as_slice() == letters,
        (Event::BeginDrop { name }, Wanted::Drop(letters)) => name.as_slice() == letters,
        (Event::BeginAudit, Wanted::Audit) => true,
        (Event::BeginRepair, Wanted::Repair) => true,
        (Event::BeginUpgrade, Wanted::Upgrade) => true,
        (Event::BeginScrub, Wanted::Scrub) => true,
        (Event::BeginPack, Wanted::Pack) => true,
        (Event::Step { job }, Wanted::Step(number)) => *job == number,
        (Event::Run { job }, Wanted::Run(number)) => *job == number,
        (
            Event::Alter {
                provider,
                object,
                stripe,
                place,
                symbol,
            },
            Wanted::Alter(by, of, at, within, number),
        ) => (*provider, *object, *stripe, *place, *symbol) == (by, of, at, within, Symbol(number)),
        (
            Event::Lose {
                provider,
                object,
                stripe,
            },
            Wanted::Lose(by, of, at),
        ) => (*provider, *object, *stripe) == (by, of, at),
        (Event::Stop { picks }, Wanted::Stop(bytes)) => picks.as_slice() == bytes,
        (Event::Reopen, Wanted::Reopen) => true,
        (Event::List, Wanted::List) => true,
        _ => false,
    }
}

/// Whether events are these.
fn are(events: &[Event], wanted: &[Wanted]) -> bool {
    if events.len() != wanted.len() {
        return false;
    }
    for place in 0..events.len() {
        if !is(&events[place], wanted[place]) {
            return false;
        }
    }
    true
}

/// What a text is to be read as: events, or the number of its first bad line.
type Read = Result<&'static [Wanted], u64>;

/// Whether a text is read as this.
fn reads_as(alloc: Global, text: &[u8], wanted: Read) -> bool {
    match (read_schedule(alloc, text), wanted) {
        (Ok(events), Ok(wanted)) => are(&events, wanted),
        (Err(ScheduleFault::BadLine { number }), Err(line)) => number == line,
        _ => false,
    }
}

/// A text, and what it is read as.
type Row = (&'static str, Read);

/// The place of the first of these texts that is read otherwise, if any.
fn first_misread(alloc: Global, rows: &[Row]) -> Option<usize> {
    for place in 0..rows.len() {
        let (text, wanted) = rows[place];
        if !reads_as(alloc, text.as_bytes(), wanted) {
            return Some(place);
        }
    }
    None
}

/// A line with the key behind it, and more.
fn line_with_key(alloc: Global, line: &str, more: &str) -> Result<String, AllocError> {
    format!(in alloc; "{line} {KEY}{more}")
}

/// Whether a line with the key behind it, and more, is read as this.
fn reads_with_key(alloc: Global, line: &str, more: &str, wanted: Read) -> bool {
    match line_with_key(alloc, line, more) {
        Ok(text) => reads_as(alloc, text.as_bytes(), wanted),
        Err(_) => false,
    }
}

/// The fault of a text whose first line is bad.
const BAD: Read = Err(1);

/// The place of the first of these lines that is read, if any.
fn first_read(alloc: Global, lines: &[&str]) -> Option<usize> {
    for place in 0..lines.len() {
        if !reads_as(alloc, lines[place].as_bytes(), BAD) {
            return Some(place);
        }
    }
    None
}

static LINES: [Row; 28] = [
    ("reopen", Ok(&[Wanted::Reopen])),
    ("list", Ok(&[Wanted::List])),
    (
        "begin put a/b 00",
        Ok(&[Wanted::Put(b"a/b", b"\x00", None)]),
    ),
    (
        "begin put a 00fFAb",
        Ok(&[Wanted::Put(b"a", b"\x00\xff\xab", None)]),
    ),
    ("begin put put -", Ok(&[Wanted::Put(b"put", b"", None)])),
    (
        "begin put a 00 0",
        Ok(&[Wanted::Put(b"a", b"\x00", Some(0))]),
    ),
    ("begin put a - 5", Ok(&[Wanted::Put(b"a", b"", Some(5))])),
    (
        "begin put a 0fFF 255",
        Ok(&[Wanted::Put(b"a", b"\x0f\xff", Some(255))]),
    ),
    (
        "begin  put  a  00  4  ",
        Ok(&[Wanted::Put(b"a", b"\x00", Some(4))]),
    ),
    ("begin get #", Ok(&[Wanted::Get(b"#")])),
    ("begin get é\t", Ok(&[Wanted::Get(b"\xc3\xa9\x09")])),
    ("begin drop trial", Ok(&[Wanted::Drop(b"trial")])),
    ("begin audit", Ok(&[Wanted::Audit])),
    ("begin repair", Ok(&[Wanted::Repair])),
    ("begin upgrade", Ok(&[Wanted::Upgrade])),
    ("begin scrub", Ok(&[Wanted::Scrub])),
    (" begin  scrub ", Ok(&[Wanted::Scrub])),
    ("begin pack", Ok(&[Wanted::Pack])),
    (" begin  pack ", Ok(&[Wanted::Pack])),
    ("step 0", Ok(&[Wanted::Step(0)])),
    ("step 4294967295", Ok(&[Wanted::Step(4294967295)])),
    ("run 1", Ok(&[Wanted::Run(1)])),
    ("alter 0 1 0 0 5", Ok(&[Wanted::Alter(0, 1, 0, 0, 5)])),
    (
        "alter 4294967295 18446744073709551615 4294967295 4294967295 340282366920938463463374607431768211455",
        Ok(&[Wanted::Alter(u32::MAX, u64::MAX, u32::MAX, u32::MAX, u128::MAX)]),
    ),
    ("lose 15 2 3", Ok(&[Wanted::Lose(15, 2, 3)])),
    ("stop -", Ok(&[Wanted::Stop(b"")])),
    ("stop 0aFF", Ok(&[Wanted::Stop(b"\x0a\xff")])),
    ("  step   7  ", Ok(&[Wanted::Step(7)])),
];

#[test]
fn each_line_is_read(rt: HostRuntime) {
    no_other(&rt, first_misread(rt.alloc(), &LINES));
}

/// What an `init` is read as.
const SET_UP: &[Wanted] = &[Wanted::Init(Setup {
    n: 6,
    l: 3,
    b: 1,
    profile: 2,
    rounds: 4,
    picks: 8,
    tolerance: 65535,
})];

#[test]
fn an_init_is_read(rt: HostRuntime) {
    let right = reads_with_key(rt.alloc(), "init 6 3 1 2 4 8 65535", "", Ok(SET_UP));
    assert!(rt; right);
}

static CUTS: [Row; 16] = [
    ("", Ok(&[])),
    ("\n", Ok(&[])),
    ("\r\n \r\n", Ok(&[])),
    ("reopen\nlist\n", Ok(&[Wanted::Reopen, Wanted::List])),
    ("reopen\r\nlist\r\n", Ok(&[Wanted::Reopen, Wanted::List])),
    (
        "reopen \r\n\n# fly\r\n  #\nlist",
        Ok(&[Wanted::Reopen, Wanted::List]),
    ),
    ("#\r", Ok(&[])),
    ("reopen\r\r\n", Err(1)),
    ("reopen\nlist\r", Err(2)),
    ("begin get a\r \r\n", Ok(&[Wanted::Get(b"a\x0d")])),
    ("\r\r\n", Err(1)),
    ("reopen\nlist\nfly\n", Err(3)),
    ("# one\n\nfly\nflee\n", Err(3)),
    ("reopen list", Err(1)),
    ("reopen\tlist", Err(1)),
    ("reopen\n\tlist", Err(2)),
];

#[test]
fn lines_are_cut_at_newlines(rt: HostRuntime) {
    no_other(&rt, first_misread(rt.alloc(), &CUTS));
}

static NO_LINES: [&str; 57] = [
    "fly",
    "Reopen",
    "init",
    "init 6 3 1 2 4 8 0",
    "init 6 3 1 2 4 8 0 00",
    "init 6 3 1 2 4 8 0 -",
    "step",
    "step -1",
    "step +1",
    "step 01",
    "step 00",
    "step 1x",
    "step 4294967296",
    "step 1 2",
    "run",
    "run a",
    "run 340282366920938463463374607431768211456",
    "begin",
    "begin put",
    "begin put a",
    "begin put a 0",
    "begin put a 0g",
    "begin put a 00 00",
    "begin put a 00 01",
    "begin put a 00 256",
    "begin put a 00 -",
    "begin put a 00 +1",
    "begin put a 00 0 0",
    "begin put a 0 0",
    "begin put a --",
    "begin get",
    "begin get a b",
    "begin drop",
    "begin audit 1",
    "begin repair 1",
    "begin upgrade now",
    "begin upgrades",
    "begin scrub 1",
    "begin scrubs",
    "begin Scrub",
    "scrub",
    "begin pack 1",
    "begin packs",
    "begin Pack",
    "pack",
    "alter 0 1 0 0",
    "alter 0 1 0 0 5 6",
    "alter 4294967296 1 0 0 5",
    "alter 0 18446744073709551616 0 0 5",
    "alter 0 1 0 0 340282366920938463463374607431768211456",
    "alter 0 1 0 0 -",
    "lose 0 1",
    "lose 0 1 0 0",
    "stop",
    "stop 0",
    "stop 00 00",
    "list 1",
];

#[test]
fn other_lines_are_bad(rt: HostRuntime) {
    no_other(&rt, first_read(rt.alloc(), &NO_LINES));
    assert!(rt; reads_as(rt.alloc(), b"step \xff", BAD));
}

/// Lines with the key behind them, and more, that are bad.
static NO_SETUPS: [(&str, &str); 4] = [
    ("init 256 3 1 2 4 8 0", ""),
    ("init 6 3 1 2 4 8 65536", ""),
    ("init 6 3 1 2 4 8", ""),
    ("init 6 3 1 2 4 8 0", "00"),
];

/// The place of the first of these lines that is read, if any.
fn first_set_up(alloc: Global, rows: &[(&str, &str)]) -> Option<usize> {
    for place in 0..rows.len() {
        let (line, more) = rows[place];
        if !reads_with_key(alloc, line, more, BAD) {
            return Some(place);
        }
    }
    None
}

#[test]
fn other_setups_are_bad(rt: HostRuntime) {
    no_other(&rt, first_set_up(rt.alloc(), &NO_SETUPS));
}
