use crate::given::{KEY, KEY_BYTES, no_other};
use command_words::*;
use hail_field::Symbol;
use record_codec::Setup;
use std::alloc::{AllocError, Global};

/// The words of a line, cut at its spaces.
fn words(alloc: Global, line: &str) -> Option<Vec<String>> {
    let mut all = Vec::new(alloc);
    for word in line.split_whitespace() {
        let word = String::from_str(alloc, word).ok()?;
        all.push(word).ok()?;
    }
    Some(all)
}

/// The command that words are to spell.
#[derive(Clone, Copy)]
enum Wanted {
    Init([u128; 7]),
    Put(&'static [u8]),
    /// A name and the number of a profile.
    PutAt(&'static [u8], u8),
    Get(&'static [u8]),
    Drop(&'static [u8]),
    List,
    Audit,
    Repair,
    Upgrade,
    Scrub,
    Pack,
    /// Providers, primaries, bad ones, and what is seen of each.
    Row([u128; 3], &'static [Option<u128>]),
}

/// The numbers of an `init` in the order of its words.
fn numbers(all: [u128; 7]) -> Numbers {
    let [n, l, b, profile, rounds, picks, tolerance] = all;
    Numbers {
        n,
        l,
        b,
        profile,
        rounds,
        picks,
        tolerance,
    }
}

/// Whether a symbol has this number, or there is neither.
fn is_seen(symbol: Option<Symbol>, number: Option<u128>) -> bool {
    match (symbol, number) {
        (Some(symbol), Some(number)) => symbol.0 == number,
        (None, None) => true,
        _ => false,
    }
}

/// Whether these symbols have these numbers.
fn are_seen(symbols: &[Option<Symbol>], numbers: &[Option<u128>]) -> bool {
    if symbols.len() != numbers.len() {
        return false;
    }
    for place in 0..symbols.len() {
        if !is_seen(symbols[place], numbers[place]) {
            return false;
        }
    }
    true
}

/// Whether a row has these numbers and symbols.
fn is_row(row: &Row, numbers: [u128; 3], seen: &[Option<u128>]) -> bool {
    [row.n, row.l, row.b] == numbers && are_seen(&row.seen, seen)
}

/// Whether a command is this.
fn is(command: &Command, wanted: Wanted) -> bool {
    match (command, wanted) {
        (Command::Init(found), Wanted::Init(all)) => *found == numbers(all),
        (Command::Put { name, profile }, Wanted::Put(wanted)) => {
            *name == wanted && profile.is_none()
        }
        (Command::Put { name, profile }, Wanted::PutAt(wanted, number)) => {
            *name == wanted && *profile == Some(number)
        }
        (Command::Get { name }, Wanted::Get(wanted)) => *name == wanted,
        (Command::Drop { name }, Wanted::Drop(wanted)) => *name == wanted,
        (Command::List, Wanted::List) => true,
        (Command::Audit, Wanted::Audit) => true,
        (Command::Repair, Wanted::Repair) => true,
        (Command::Upgrade, Wanted::Upgrade) => true,
        (Command::Scrub, Wanted::Scrub) => true,
        (Command::Pack, Wanted::Pack) => true,
        (Command::Row(row), Wanted::Row(numbers, seen)) => is_row(row, numbers, seen),
        _ => false,
    }
}

/// Whether what was read is this command, or none.
fn is_wanted(command: &Option<Command>, wanted: Option<Wanted>) -> bool {
    match (command, wanted) {
        (Some(command), Some(wanted)) => is(command, wanted),
        (None, None) => true,
        _ => false,
    }
}

/// Whether words are read as this command, or as none.
fn are_read_as(alloc: Global, words: &[String], wanted: Option<Wanted>) -> bool {
    match read_command(alloc, words) {
        Ok(command) => is_wanted(&command, wanted),
        Err(_) => false,
    }
}

/// Whether a line is read as this command, or as none.
fn is_read_as(alloc: Global, line: &str, wanted: Option<Wanted>) -> bool {
    match words(alloc, line) {
        Some(words) => are_read_as(alloc, &words, wanted),
        None => false,
    }
}

/// The place of the first line that is read as another command, if any.
fn first_misread(alloc: Global, rows: &[(&str, Wanted)]) -> Option<usize> {
    for place in 0..rows.len() {
        let (line, wanted) = rows[place];
        if !is_read_as(alloc, line, Some(wanted)) {
            return Some(place);
        }
    }
    None
}

/// The place of the first line that is read as a command, if any.
fn first_read(alloc: Global, lines: &[&str]) -> Option<usize> {
    for place in 0..lines.len() {
        if !is_read_as(alloc, lines[place], None) {
            return Some(place);
        }
    }
    None
}

static COMMANDS: [(&str, Wanted); 19] = [
    ("init 6 3 1 2 4 8 0", Wanted::Init([6, 3, 1, 2, 4, 8, 0])),
    (
        "init 256 3 1 2 4 8 340282366920938463463374607431768211455",
        Wanted::Init([256, 3, 1, 2, 4, 8, u128::MAX]),
    ),
    ("put a", Wanted::Put(b"a")),
    ("put put", Wanted::Put(b"put")),
    ("put -/é", Wanted::Put(b"-/\xc3\xa9")),
    ("put 256", Wanted::Put(b"256")),
    ("put a 0", Wanted::PutAt(b"a", 0)),
    ("put a 5", Wanted::PutAt(b"a", 5)),
    ("put 0 255", Wanted::PutAt(b"0", 255)),
    ("get trial", Wanted::Get(b"trial")),
    ("drop trial", Wanted::Drop(b"trial")),
    ("list", Wanted::List),
    ("audit", Wanted::Audit),
    ("repair", Wanted::Repair),
    ("upgrade", Wanted::Upgrade),
    ("put upgrade", Wanted::Put(b"upgrade")),
    ("scrub", Wanted::Scrub),
    ("pack", Wanted::Pack),
    ("get pack", Wanted::Get(b"pack")),
];

#[test]
fn each_command_is_read(rt: HostRuntime) {
    no_other(&rt, first_misread(rt.alloc(), &COMMANDS));
}

static ROWS: [(&str, Wanted); 3] = [
    (
        "row 4 1 1 7 - 0 340282366920938463463374607431768211455",
        Wanted::Row([4, 1, 1], &[Some(7), None, Some(0), Some(u128::MAX)]),
    ),
    ("row 0 260 0", Wanted::Row([0, 260, 0], &[])),
    ("row 1 1 1 -", Wanted::Row([1, 1, 1], &[None])),
];

#[test]
fn rows_are_read(rt: HostRuntime) {
    no_other(&rt, first_misread(rt.alloc(), &ROWS));
}

static NO_COMMANDS: [&str; 47] = [
    "",
    "fly",
    "get",
    "get a b",
    "GET a",
    "put",
    "put a 256",
    "put a -",
    "put a 05",
    "put a +5",
    "put a five",
    "put a 340282366920938463463374607431768211456",
    "put a 5 5",
    "get a 0",
    "drop a 0",
    "drop",
    "list a",
    "lists",
    "audit 1",
    "repair all",
    "upgrade now",
    "upgrade 2",
    "upgrades",
    "scrub all",
    "pack all",
    "packs",
    "Pack",
    "init",
    "init 6 3 1 2 4 8",
    "init 6 3 1 2 4 8 0 0",
    "init 06 3 1 2 4 8 0",
    "init 6 +3 1 2 4 8 0",
    "init 6 3 -1 2 4 8 0",
    "init 6 3 1 2 4 8 -",
    "init 6 3 1 2 4 8 00",
    "init 6 3 1 2 4 340282366920938463463374607431768211456 0",
    "init six 3 1 2 4 8 0",
    "row",
    "row 4 1 1",
    "row 4 1 1 7 7 7",
    "row 4 1 1 7 7 7 7 7",
    "row 4 1 1 7 7 7 340282366920938463463374607431768211456",
    "row 4 1 1 07 7 7 7",
    "row 4 1 1 +7 7 7 7",
    "row 4 1 1 7 7 7 --",
    "row 4 1 - 7 7 7 7",
    "row 260 1 1 7",
];

#[test]
fn faulty_words_are_no_command(rt: HostRuntime) {
    no_other(&rt, first_read(rt.alloc(), &NO_COMMANDS));
}

#[test]
fn a_setup_is_made_of_its_numbers(rt: HostRuntime) {
    let setup = Setup {
        n: 6,
        l: 3,
        b: 1,
        profile: 2,
        rounds: 4,
        picks: 8,
        tolerance: 300,
    };
    assert!(rt; read_setup(&numbers([6, 3, 1, 2, 4, 8, 300])) == Some(setup));
}

static NO_SETUPS: [[u128; 7]; 10] = [
    [262, 3, 1, 2, 4, 8, 300],
    [6, 259, 1, 2, 4, 8, 300],
    [6, 3, 257, 2, 4, 8, 300],
    [6, 3, 1, 258, 4, 8, 300],
    [6, 3, 1, 2, 260, 8, 300],
    [6, 3, 1, 2, 4, 264, 300],
    [6, 3, 1, 2, 4, 8, 65_836],
    [5, 3, 1, 2, 4, 8, 300],
    [6, 3, 1, 5, 4, 8, 300],
    [6, 3, 1, 2, 4, 8, 4097],
];

/// The place of the first of these numbers that give a setup, if any.
fn first_within(rows: &[[u128; 7]]) -> Option<usize> {
    for place in 0..rows.len() {
        if read_setup(&numbers(rows[place])).is_some() {
            return Some(place);
        }
    }
    None
}

#[test]
fn setups_are_within_limits(rt: HostRuntime) {
    no_other(&rt, first_within(&NO_SETUPS));
}

/// The key that a text spells.
fn key_of(text: &[u8]) -> Option<[u8; 32]> {
    match read_key(text) {
        Some(master) => Some(master.0),
        None => None,
    }
}

/// The digits of the key, and more.
fn key_then(alloc: Global, more: &str) -> Result<String, AllocError> {
    format!(in alloc; "{KEY}{more}")
}

/// Whether the digits of the key, and more, spell this.
fn spells(alloc: Global, more: &str, wanted: Option<[u8; 32]>) -> bool {
    match key_then(alloc, more) {
        Ok(text) => key_of(text.as_bytes()) == wanted,
        Err(_) => false,
    }
}

/// What stands behind the digits of the key, and whether it is a key then.
static ENDS: [(&str, bool); 10] = [
    ("", true),
    ("\n", true),
    ("\r\n", true),
    ("\r", false),
    ("\n\n", false),
    ("\n\r", false),
    ("\r\n\n", false),
    (" ", false),
    ("0", false),
    ("00", false),
];

/// The place of the first of these ends that is taken otherwise, if any.
fn first_other_end(alloc: Global, rows: &[(&str, bool)]) -> Option<usize> {
    for place in 0..rows.len() {
        let (end, is_key) = rows[place];
        if !spells(alloc, end, if is_key { Some(KEY_BYTES) } else { None }) {
            return Some(place);
        }
    }
    None
}

#[test]
fn keys_are_sixty_four_digits_and_a_line_end(rt: HostRuntime) {
    no_other(&rt, first_other_end(rt.alloc(), &ENDS));
}

/// The digits of the key but for the first, which is none.
const NO_DIGITS: &[u8] = b"g00102030405060708090A0b0c0d0e0f101112131415161718191a1b1C1d1eFf";

#[test]
fn other_texts_are_no_key(rt: HostRuntime) {
    let text = KEY.as_bytes();
    assert!(rt; key_of(&text[1..]).is_none() && key_of(&text[..62]).is_none());
    assert!(rt; key_of(b"").is_none() && key_of(NO_DIGITS).is_none());
}
