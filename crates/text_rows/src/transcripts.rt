use crate::given::{SETUP, TWO_FILES, is_line, no_other, table_of};
use hail_client::{ClientTurn, PackStep, ReopenFault};
use hail_replay::*;
use hail_scrub::{ScrubAnswer, ScrubTurn};
use record_codec::Counts;
use std::alloc::Global;
use stream_model::{Bytes, Memory};
use vault::{Answer, BeginFault, InitFault, PackAnswer, StartFault, Turn};

/// What a step of a job answers.
#[derive(Clone, Copy)]
enum Step {
    More,
    Waiting(u32),
    NoSuchJob,
    MustReopen,
}

/// How a job ends.
#[derive(Clone, Copy)]
enum End {
    Put,
    Dropped,
    /// An audit with these counts: its number, and how many rounds were undecided.
    Audited(u64, u32),
    Repaired(u64),
    Upgraded,
    Lost(u32, u64),
    ProviderFault(u32),
    DiskFault,
    Memory,
}

/// How a pack ends.
#[derive(Clone, Copy)]
enum Packed {
    /// The lengths of the text before and after.
    Packed(u64, u64),
    DiskFault,
    Memory,
}

/// What came of an event.
#[derive(Clone, Copy)]
enum Event {
    Inited,
    Reopened,
    Begun,
    Stepped,
    Replaced,
    Stopped,
}

/// What is told by a line or several.
#[derive(Clone, Copy)]
enum Line {
    Begin(Option<Result<u32, BeginFault>>),
    Init(Result<(), InitFault>),
    Reopen(Result<(), ReopenFault>),
    /// A step, or none where no vault is open.
    Step(Option<Step>),
    End(End),
    /// A step of a scrub of so many providers.
    Scrub(u8, ScrubTurn),
    /// The end of one.
    Scrubbed(u8, ScrubAnswer),
    /// A step of a pack that is not its last.
    Packing,
    /// The last step of a pack, and its end.
    PackStepped(Packed),
    Packed(Packed),
    /// The end of a get with these bytes.
    Got(&'static [u8]),
    /// The files of no table.
    NoNames,
    /// The files of a table of these records, and the same as an event.
    Names(&'static [&'static [u8]]),
    NamesAsEvent(&'static [&'static [u8]]),
    Came(Event),
}

/// The counts of the audit.
const COUNTS: Counts = Counts {
    n: 6,
    by: [4, 0, 0, 0, 0, u32::MAX, 0, 0, 0, 0, 0, 0, 0, 0, 0, 0],
};

fn turn_of(step: Step) -> Turn {
    match step {
        Step::More => Turn::More,
        Step::Waiting(holder) => Turn::Waiting { holder },
        Step::NoSuchJob => Turn::NoSuchJob,
        Step::MustReopen => Turn::MustReopen,
    }
}

fn step_told(alloc: Global, step: Option<Step>) -> Result<Bytes, Memory> {
    match step {
        Some(step) => step_line(alloc, &Some(ClientTurn::Job(turn_of(step)))),
        None => step_line(alloc, &None),
    }
}

fn scrub_told(alloc: Global, providers: u8, turn: ScrubTurn) -> Result<Bytes, Memory> {
    step_line(alloc, &Some(ClientTurn::Scrub { providers, turn }))
}

fn packed_of(end: Packed) -> PackAnswer {
    match end {
        Packed::Packed(before, after) => PackAnswer::Packed { before, after },
        Packed::DiskFault => PackAnswer::DiskFault,
        Packed::Memory => PackAnswer::Memory,
    }
}

fn pack_told(alloc: Global, step: PackStep) -> Result<Bytes, Memory> {
    step_line(alloc, &Some(ClientTurn::Pack(step)))
}

fn answer_of(end: End) -> Answer {
    match end {
        End::Put => Answer::Put,
        End::Dropped => Answer::Dropped,
        End::Audited(number, undecided) => Answer::Audited {
            number,
            undecided,
            counts: COUNTS,
        },
        End::Repaired(number) => Answer::Repaired { number },
        End::Upgraded => Answer::Upgraded,
        End::Lost(stripe, row) => Answer::Lost { stripe, row },
        End::ProviderFault(provider) => Answer::ProviderFault { provider },
        End::DiskFault => Answer::DiskFault,
        End::Memory => Answer::Memory,
    }
}

fn end_told(alloc: Global, end: End) -> Result<Bytes, Memory> {
    answer_line(alloc, &answer_of(end))
}

fn got_told(alloc: Global, bytes: &[u8]) -> Result<Bytes, Memory> {
    let bytes = Bytes::from_slice(alloc, bytes)?;
    answer_line(alloc, &Answer::Got { bytes })
}

fn names_told(alloc: Global, records: &[&[u8]]) -> Result<Bytes, Memory> {
    match table_of(alloc, records) {
        Some(table) => names_lines(alloc, Some(&table)),
        None => Err(Memory),
    }
}

fn names_told_as_event(alloc: Global, records: &[&[u8]]) -> Result<Bytes, Memory> {
    match table_of(alloc, records) {
        Some(table) => came_lines(alloc, &Came::Named(Some(&table))),
        None => Err(Memory),
    }
}

fn came_of(event: Event) -> Came<'static> {
    match event {
        Event::Inited => Came::Inited(Ok(())),
        Event::Reopened => Came::Reopened(Ok(())),
        Event::Begun => Came::Begun(None),
        Event::Stepped => Came::Stepped(Some(ClientTurn::Job(Turn::More))),
        Event::Replaced => Came::Replaced(true),
        Event::Stopped => Came::Stopped,
    }
}

fn event_told(alloc: Global, event: Event) -> Result<Bytes, Memory> {
    came_lines(alloc, &came_of(event))
}

/// The line or the lines that are told.
fn told(alloc: Global, what: Line) -> Result<Bytes, Memory> {
    match what {
        Line::Begin(answer) => begin_line(alloc, answer),
        Line::Init(answer) => init_line(alloc, answer),
        Line::Reopen(answer) => reopen_line(alloc, answer),
        Line::Step(step) => step_told(alloc, step),
        Line::Scrub(providers, turn) => scrub_told(alloc, providers, turn),
        Line::Scrubbed(providers, answer) => scrub_answer_line(alloc, providers, &answer),
        Line::Packing => pack_told(alloc, PackStep::More),
        Line::PackStepped(end) => pack_told(alloc, PackStep::Done(packed_of(end))),
        Line::Packed(end) => pack_answer_line(alloc, &packed_of(end)),
        Line::End(end) => end_told(alloc, end),
        Line::Got(bytes) => got_told(alloc, bytes),
        Line::NoNames => names_lines(alloc, None),
        Line::Names(records) => names_told(alloc, records),
        Line::NamesAsEvent(records) => names_told_as_event(alloc, records),
        Line::Came(event) => event_told(alloc, event),
    }
}

/// What is told, and its text.
type Row = (Line, &'static str);

/// The place of the first row that is told otherwise, if any.
fn first_other(alloc: Global, rows: &[Row]) -> Option<usize> {
    for place in 0..rows.len() {
        let (what, wanted) = rows[place];
        if !is_line(told(alloc, what), wanted) {
            return Some(place);
        }
    }
    None
}

static BEGINS: [Row; 17] = [
    (Line::Begin(None), "closed\n"),
    (Line::Begin(Some(Ok(1))), "job 1\n"),
    (Line::Begin(Some(Ok(u32::MAX))), "job 4294967295\n"),
    (
        Line::Begin(Some(Err(BeginFault::MustReopen))),
        "refused MustReopen\n",
    ),
    (Line::Begin(Some(Err(BeginFault::Busy))), "refused Busy\n"),
    (
        Line::Begin(Some(Err(BeginFault::BadName))),
        "refused BadName\n",
    ),
    (
        Line::Begin(Some(Err(BeginFault::BadProfile))),
        "refused BadProfile\n",
    ),
    (
        Line::Begin(Some(Err(BeginFault::TooLong))),
        "refused TooLong\n",
    ),
    (
        Line::Begin(Some(Err(BeginFault::OldVersion))),
        "refused OldVersion\n",
    ),
    (
        Line::Begin(Some(Err(BeginFault::NoSuchName))),
        "refused NoSuchName\n",
    ),
    (
        Line::Begin(Some(Err(BeginFault::TooManyFiles))),
        "refused TooManyFiles\n",
    ),
    (
        Line::Begin(Some(Err(BeginFault::RepairDue))),
        "refused RepairDue\n",
    ),
    (
        Line::Begin(Some(Err(BeginFault::NothingDue))),
        "refused NothingDue\n",
    ),
    (
        Line::Begin(Some(Err(BeginFault::NewVersion))),
        "refused NewVersion\n",
    ),
    (
        Line::Begin(Some(Err(BeginFault::JournalFull))),
        "refused JournalFull\n",
    ),
    (
        Line::Begin(Some(Err(BeginFault::PackTooLong))),
        "refused PackTooLong\n",
    ),
    (
        Line::Begin(Some(Err(BeginFault::Memory))),
        "refused Memory\n",
    ),
];

#[test]
fn a_begin_tells_its_job_or_why_not(rt: HostRuntime) {
    no_other(&rt, first_other(rt.alloc(), &BEGINS));
}

static INITS: [Row; 6] = [
    (Line::Init(Ok(())), "ready\n"),
    (Line::Init(Err(InitFault::BadSetup)), "refused BadSetup\n"),
    (Line::Init(Err(InitFault::DiskFault)), "refused DiskFault\n"),
    (
        Line::Init(Err(InitFault::BadJournal { at: u64::MAX })),
        "refused BadJournal 18446744073709551615\n",
    ),
    (Line::Init(Err(InitFault::Already)), "refused Already\n"),
    (Line::Init(Err(InitFault::Memory)), "refused Memory\n"),
];

#[test]
fn an_init_tells_why_not(rt: HostRuntime) {
    no_other(&rt, first_other(rt.alloc(), &INITS));
}

static REOPENINGS: [Row; 6] = [
    (Line::Reopen(Ok(())), "opened\n"),
    (
        Line::Reopen(Err(ReopenFault::TooFewProviders)),
        "refused TooFewProviders\n",
    ),
    (
        Line::Reopen(Err(ReopenFault::NotOpened(StartFault::DiskFault))),
        "refused DiskFault\n",
    ),
    (
        Line::Reopen(Err(ReopenFault::NotOpened(StartFault::NotSetUp))),
        "refused NotSetUp\n",
    ),
    (
        Line::Reopen(Err(ReopenFault::NotOpened(StartFault::BadJournal { at: 9 }))),
        "refused BadJournal 9\n",
    ),
    (
        Line::Reopen(Err(ReopenFault::NotOpened(StartFault::Memory))),
        "refused Memory\n",
    ),
];

#[test]
fn a_reopening_tells_why_not(rt: HostRuntime) {
    no_other(&rt, first_other(rt.alloc(), &REOPENINGS));
}

static STEPS: [Row; 5] = [
    (Line::Step(None), "closed\n"),
    (Line::Step(Some(Step::More)), "more\n"),
    (Line::Step(Some(Step::Waiting(3))), "waiting 3\n"),
    (Line::Step(Some(Step::NoSuchJob)), "refused NoSuchJob\n"),
    (Line::Step(Some(Step::MustReopen)), "refused MustReopen\n"),
];

#[test]
fn a_step_tells_whether_its_job_goes_on(rt: HostRuntime) {
    no_other(&rt, first_other(rt.alloc(), &STEPS));
}

static ENDS: [Row; 9] = [
    (Line::End(End::Put), "put\n"),
    (Line::End(End::Dropped), "dropped\n"),
    (
        Line::End(End::Audited(1, 2)),
        "audited 1 undecided 2 counts 4 0 0 0 0 4294967295\n",
    ),
    (Line::End(End::Repaired(1)), "repaired 1\n"),
    (Line::End(End::Upgraded), "upgraded\n"),
    (Line::End(End::Lost(56, 7)), "lost 56 7\n"),
    (Line::End(End::ProviderFault(3)), "provider fault 3\n"),
    (Line::End(End::DiskFault), "disk fault\n"),
    (Line::End(End::Memory), "memory\n"),
];

#[test]
fn a_job_tells_how_it_ended(rt: HostRuntime) {
    no_other(&rt, first_other(rt.alloc(), &ENDS));
}

/// What a scrub found, of each of 16 providers.
const FOUND: ScrubAnswer = ScrubAnswer::Scrubbed {
    stripes: 1,
    symbols: [16, 0, 0, 0, 0, 4, 7, 0, 0, 0, 0, 0, 0, 0, 0, u64::MAX],
    blocks: [1, 0, 0, 0, 0, 1, 2, 0, 0, 0, 0, 0, 0, 0, 0, 3],
};

/// What it found where there is nothing to find.
const NOTHING: ScrubAnswer = ScrubAnswer::Scrubbed {
    stripes: u64::MAX,
    symbols: [0; 16],
    blocks: [0; 16],
};

static SCRUBS: [Row; 10] = [
    (Line::Scrub(6, ScrubTurn::More), "more\n"),
    (
        Line::Scrub(6, ScrubTurn::Done(FOUND)),
        "scrubbed 1 symbols 16 0 0 0 0 4\n",
    ),
    (
        Line::Scrubbed(6, FOUND),
        "scrubbed 1 symbols 16 0 0 0 0 4\n",
    ),
    (Line::Scrubbed(4, FOUND), "scrubbed 1 symbols 16 0 0 0\n"),
    (
        Line::Scrubbed(16, FOUND),
        "scrubbed 1 symbols 16 0 0 0 0 4 7 0 0 0 0 0 0 0 0 18446744073709551615\n",
    ),
    (
        Line::Scrubbed(4, NOTHING),
        "scrubbed 18446744073709551615 symbols 0 0 0 0\n",
    ),
    (
        Line::Scrub(4, ScrubTurn::Done(ScrubAnswer::Lost { stripe: 1, row: 6 })),
        "lost 1 6\n",
    ),
    (
        Line::Scrubbed(4, ScrubAnswer::Lost { stripe: 0, row: 0 }),
        "lost 0 0\n",
    ),
    (
        Line::Scrubbed(4, ScrubAnswer::ProviderFault { provider: 3 }),
        "provider fault 3\n",
    ),
    (Line::Scrubbed(4, ScrubAnswer::Memory), "memory\n"),
];

#[test]
fn a_scrub_tells_the_symbols_of_the_providers_in_use(rt: HostRuntime) {
    no_other(&rt, first_other(rt.alloc(), &SCRUBS));
}

static PACKS: [Row; 6] = [
    (Line::Packing, "more\n"),
    (
        Line::PackStepped(Packed::Packed(124, 89)),
        "packed 124 89\n",
    ),
    (Line::Packed(Packed::Packed(89, 97)), "packed 89 97\n"),
    (
        Line::Packed(Packed::Packed(0, u64::MAX)),
        "packed 0 18446744073709551615\n",
    ),
    (Line::PackStepped(Packed::DiskFault), "disk fault\n"),
    (Line::Packed(Packed::Memory), "memory\n"),
];

#[test]
fn a_pack_tells_the_lengths_of_the_text(rt: HostRuntime) {
    no_other(&rt, first_other(rt.alloc(), &PACKS));
}

static GETS: [Row; 2] = [
    (Line::Got(b""), "got -\n"),
    (
        Line::Got(b"\x00\x09\x0a\x9f\xf0hail\xff"),
        "got 00090a9ff06861696cff\n",
    ),
];

#[test]
fn a_get_tells_its_bytes_as_digits(rt: HostRuntime) {
    no_other(&rt, first_other(rt.alloc(), &GETS));
}

/// The line of a get of 2^22 bytes of a7.
fn largest_line(alloc: Global) -> Option<Bytes> {
    let bytes = vec![in alloc; 0xa7u8; 4_194_304].ok()?;
    let bytes = Bytes::from_vec(bytes);
    answer_line(alloc, &Answer::Got { bytes }).ok()
}

/// How long that line is, and whether it begins and ends as it is to.
fn largest_seen(alloc: Global) -> Option<(usize, bool, bool)> {
    let line = largest_line(alloc)?;
    let text = line.as_slice();
    let front = text.get(..8) == Some(b"got a7a7".as_slice());
    let back = text.get(8_388_609..) == Some(b"7a7\n".as_slice());
    Some((text.len(), front, back))
}

#[test]
fn the_largest_file_is_told(rt: HostRuntime) {
    assert_eq!(rt; largest_seen(rt.alloc()), Some((8_388_613, true, true)));
}

static NAMES: [Row; 3] = [
    (Line::NoNames, "closed\n"),
    (Line::Names(&[&SETUP]), "names 0\n"),
    (Line::Names(&TWO_FILES), "names 2\nZ. 256\nab 100\n"),
];

#[test]
fn files_are_listed_behind_their_number(rt: HostRuntime) {
    no_other(&rt, first_other(rt.alloc(), &NAMES));
}

#[test]
fn changes_and_stops_have_fixed_lines(rt: HostRuntime) {
    assert!(rt; replace_line(true) == b"replaced\n".as_slice());
    assert!(rt; replace_line(false) == b"nothing held\n".as_slice());
    assert!(rt; stop_line() == b"stopped\n".as_slice());
}

static EVENTS: [Row; 7] = [
    (Line::Came(Event::Inited), "ready\n"),
    (Line::Came(Event::Reopened), "opened\n"),
    (Line::Came(Event::Begun), "closed\n"),
    (Line::Came(Event::Stepped), "more\n"),
    (Line::Came(Event::Replaced), "replaced\n"),
    (Line::Came(Event::Stopped), "stopped\n"),
    (Line::NamesAsEvent(&[&SETUP]), "names 0\n"),
];

#[test]
fn each_kind_of_event_has_its_line(rt: HostRuntime) {
    no_other(&rt, first_other(rt.alloc(), &EVENTS));
}
