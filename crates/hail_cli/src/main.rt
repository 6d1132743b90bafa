//! `hail`: keeps files on several providers.
#![tactic(auto)]

mod guard;
mod run;

use program_words::{has_place, text_of, words};
use run::{Told, run};
use std::process::ExitCode;

fn main(rt: HostRuntime) -> ExitCode {
    let told = match words(&rt) {
        Ok(words) => run(&rt, &words),
        Err(status) => Told { status, at: 0 },
    };
    let text = text_of(told.status);
    let _ = if told.status == 0 {
        Ok(())
    } else if has_place(told.status) {
        eprintln!(rt; "{text} {}", told.at)
    } else {
        eprintln!(rt; "{text}")
    };
    ExitCode::from(told.status)
}
