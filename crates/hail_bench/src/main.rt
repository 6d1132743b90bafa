//! `hail_bench WORK COUNT ..`: does a piece of hail's work, writes a checksum of its answers, and tells how
//! long it took.
#![tactic(auto)]

use bench_works::{FORMS, Failure, Outcome, measured};
use std::env::{self, Env};
use std::process::ExitCode;
use std::rt::Clock;

const FAULT: u8 = 1;

const USAGE: u8 = 2;

/// The words after the program's name. Words that are no text name no work.
fn words(rt: &(impl Env + AllocGlobal)) -> Result<Vec<String>, Failure> {
    let Ok(all) = env::args(rt) else {
        return Err(Failure::Usage);
    };
    Ok(all.skip(1).collect(rt.alloc())?)
}

/// Writes the words and the checksum to standard output, to standard error the time, and how much was decoded.
fn tell(
    rt: &(impl Print + Eprint),
    words: &[String],
    outcome: &Outcome,
    nanos: u128,
) -> Result<(), Failure> {
    for word in words {
        print!(rt; "{word} ")?;
    }
    println!(rt; "checksum {:032x}", outcome.checksum)?;
    let rate = outcome.rate(nanos);
    eprintln!(rt; "{} in {nanos} ns, {rate} a second", outcome.count)?;
    let (blocks, rows) = (outcome.decoded.blocks, outcome.decoded.rows);
    eprintln!(rt; "decoded {blocks} blocks and {rows} rows")?;
    Ok(())
}

/// Does the work that the words name, and tells of it.
fn measure(rt: &(impl Env + AllocGlobal + Clock + Print + Eprint)) -> Result<(), Failure> {
    let words = words(rt)?;
    let (outcome, nanos) = measured(rt, &words)?;
    tell(rt, &words, &outcome, nanos)
}

fn main(rt: HostRuntime) -> ExitCode {
    match measure(&rt) {
        Ok(()) => ExitCode::SUCCESS,
        Err(Failure::Usage) => {
            let _ = eprintln!(rt; "usage: hail_bench {FORMS}");
            ExitCode::from(USAGE)
        }
        Err(Failure::Fault) => ExitCode::from(FAULT),
    }
}
