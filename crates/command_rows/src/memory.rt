use crate::check::check;
use crate::setups::NOTES;
use command_fixtures::Deed::{Again, LosesOne, Providers};
use command_fixtures::{KEY, Rows};

/// With ample memory each ends well at once. With one allocation refused in the whole run, one of them may
/// find no memory; then it ends well when it is made again, and nothing is lost.
const COMMANDS: &[Rows] = &[Rows::Again(&[
    Providers(4),
    Again("init 4 1 1 0 1 1 0", KEY, Some(b"ready\n"), 10),
    Again("put a", b"abc", Some(b"stored a 3\n"), 0),
    Again("get a", b"", Some(b"abc"), 0),
    LosesOne(2),
    Again("audit", b"", None, 6),
    Again("repair", b"", None, 7),
    Again("get a", b"", Some(b"abc"), 0),
    Again("list", b"", Some(b"a 3\n"), 0),
    LosesOne(1),
    Again("scrub", b"", None, 0),
    Again("get a", b"", Some(b"abc"), 0),
    Again("upgrade", b"", Some(b"upgraded\n"), 24),
    Again("put b 2", b"other", Some(b"stored b 5\n"), 0),
    Again("get b", b"", Some(b"other"), 0),
    Again("pack", b"", None, 0),
    Again("get b", b"", Some(b"other"), 0),
    Again("list", b"", Some(b"a 3\nb 5\n"), 0),
])];

#[test]
fn a_command_that_found_no_memory_is_made_again(rt: HostRuntime) {
    check(&rt, COMMANDS);
}

/// The same over six providers, of which three have a file's own bytes: a short text is put, a provider loses
/// its block, and an audit and a repair follow.
const NOTED: &[Rows] = &[Rows::Again(&[
    Providers(6),
    Again("init 6 3 1 1 4 8 0", KEY, Some(b"ready\n"), 10),
    Again("put notes.txt", NOTES, Some(b"stored notes.txt 100\n"), 0),
    Again("list", b"", Some(b"notes.txt 100\n"), 0),
    LosesOne(0),
    Again("audit", b"", None, 6),
    Again("repair", b"", None, 7),
    Again("get notes.txt", b"", Some(NOTES), 0),
])];

#[test]
fn a_worked_store_bears_a_refused_allocation(rt: HostRuntime) {
    check(&rt, NOTED);
}
