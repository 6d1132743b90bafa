// Rows of one link.
use crate::places::{Pipes, has_failed, link, receives, sends};
use std::alloc::{Alloc, Global};
use std::fs::{self, Files};
use std::io::{Read, Write};
use std::os::unix::fs::symlink;
use std::process::Abort;

/// Whether a reader gives these bytes next.
fn reads<F: Read>(reader: &mut F, wanted: &[u8]) -> bool {
    let mut out = [0; 8];
    match reader.read(&mut out) {
        Ok(count) => out.get(..count) == Some(wanted),
        Err(_) => false,
    }
}

/// Bytes go out as they were sent, and answers come in as they are written, up to their end. An end is opened
/// once: when it is taken away from its name, it goes on.
fn carries(rt: &HostRuntime, alloc: Global) -> Option<bool> {
    let mut pipes = Pipes::new(rt).ok()?;
    pipes.name(rt, "carries").ok()?;
    let mut link = link(rt, alloc, "carries")?;
    pipes.answers.write_all(b"abc").ok()?;
    let first = sends(&mut link, b"xy") && receives(&mut link, b"abc");
    fs::remove_dir_all(rt, "carries").ok()?;
    pipes.answers.write_all(b"d").ok()?;
    let second = sends(&mut link, b"z") && receives(&mut link, b"d");
    let (mut requests, answers) = pipes.far();
    drop(answers);
    Some(first && second && reads(&mut requests, b"xyz") && receives(&mut link, b""))
}

#[test]
fn bytes_go_over_pipes_and_come_back(rt: HostRuntime) {
    assert_eq!(rt; carries(&rt, rt.alloc()), Some(true));
}

/// What comes of a far end that is gone: no answer, and no request.
fn tells_an_end(rt: &HostRuntime, alloc: Global) -> Option<bool> {
    let pipes = Pipes::new(rt).ok()?;
    pipes.name(rt, "gone").ok()?;
    let mut link = link(rt, alloc, "gone")?;
    let before = sends(&mut link, b"x");
    drop(pipes);
    fs::remove_dir_all(rt, "gone").ok()?;
    Some(before && !sends(&mut link, b"x") && has_failed(&mut link))
}

#[test]
fn a_far_end_that_is_gone_fails(rt: HostRuntime) {
    assert_eq!(rt; tells_an_end(&rt, rt.alloc()), Some(true));
}

/// A link that failed once does not use its other pipe either.
fn stays_failed(rt: &HostRuntime, alloc: Global) -> Option<bool> {
    let mut pipes = Pipes::new(rt).ok()?;
    pipes.name(rt, "failed").ok()?;
    fs::remove_file(rt, "failed/answers").ok()?;
    let mut link = link(rt, alloc, "failed")?;
    let failed = !receives(&mut link, b"") && has_failed(&mut link);
    fs::remove_dir_all(rt, "failed").ok()?;
    pipes.answers.write_all(b"a").ok()?;
    let (mut requests, answers) = pipes.far();
    drop(answers);
    Some(failed && reads(&mut requests, b""))
}

#[test]
fn a_link_that_failed_is_not_used_again(rt: HostRuntime) {
    assert_eq!(rt; stays_failed(&rt, rt.alloc()), Some(true));
}

/// Whether nothing goes through the names in a folder, which then goes.
fn is_refused(rt: &HostRuntime, alloc: Global, folder: &str) -> Option<bool> {
    let mut sending = link(rt, alloc, folder)?;
    let mut receiving = link(rt, alloc, folder)?;
    Some(!sends(&mut sending, b"x") && !receives(&mut receiving, b"") && has_failed(&mut receiving))
}

/// Plain files and folders in place of the links, and a link to a file, are refused, and not written to.
fn refuses_files(rt: &HostRuntime, alloc: Global) -> Option<bool> {
    let missing = is_refused(rt, alloc, "files")?;
    fs::create_dir(rt, "files").ok()?;
    let empty = is_refused(rt, alloc, "files")?;
    fs::write(rt, "files/requests", b"kept").ok()?;
    fs::create_dir(rt, "files/answers").ok()?;
    let other = is_refused(rt, alloc, "files")?;
    fs::remove_dir(rt, "files/answers").ok()?;
    symlink(rt, "requests", "files/answers").ok()?;
    let linked = is_refused(rt, alloc, "files")?;
    let kept = fs::read(rt, "files/requests").ok()?;
    fs::remove_dir_all(rt, "files").ok()?;
    Some(missing && empty && other && linked && kept.as_slice() == b"kept".as_slice())
}

#[test]
fn what_is_no_pipe_is_refused(rt: HostRuntime) {
    assert_eq!(rt; refuses_files(&rt, rt.alloc()), Some(true));
}

/// A link to a folder that names pipes is refused: it could lie at a provider.
fn refuses_links(rt: &HostRuntime, alloc: Global) -> Option<bool> {
    let mut pipes = Pipes::new(rt).ok()?;
    pipes.name(rt, "pipes").ok()?;
    symlink(rt, "pipes", "linked").ok()?;
    let refused = is_refused(rt, alloc, "linked")?;
    let mut link = link(rt, alloc, "pipes")?;
    pipes.answers.write_all(b"a").ok()?;
    let taken = sends(&mut link, b"y") && receives(&mut link, b"a");
    fs::remove_file(rt, "linked").ok()?;
    fs::remove_dir_all(rt, "pipes").ok()?;
    Some(refused && taken && reads(&mut pipes.requests, b"y"))
}

#[test]
fn a_link_in_place_of_the_folder_is_refused(rt: HostRuntime) {
    assert_eq!(rt; refuses_links(&rt, rt.alloc()), Some(true));
}
